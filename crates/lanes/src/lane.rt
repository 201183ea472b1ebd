// One lane through the interleaver, by whole blocks of five bytes.
ghost use Rattle.std.specs.Prelude.{◌≡◌, ◌<◌, ◌≤◌, ◌+◌, ◌*◌, ◌/◌, ◌%◌, ◌++◌, List, ℕ, length, take};
ghost use Rattle.bits.specs.definitions.Bits.{tabulate};
ghost use Rattle.lanes.specs.private.Blocks.{lane_of, block_of, block_byte, out_from, kept_from, TurnsOut};

use crate::side::Side;
use std::marker::Model;

// A lane's 33 blocks of a frame, with the 18 of its store behind them.
#[derive(Drop)]
pub struct Lane<'a> {
    frame: &'a [u8; 165],
    store: &'a [u8; 90],
}

impl<'a> Model for Lane<'a> {
    ghost Value = { List ℕ };

    ghost view = { λ lane. lane.frame.now ++ lane.store.now };

    ghost invariant = { λ lane. length lane.frame.now ≡ 165 };
}

// A block stored, which was read whole before, so that the compiler makes two moves of the five bytes.
fn put_block(block: [u8; 5], out: &mut [u8])
    requires { length out.old ≡ 5 }
    ensures { out.new ≡ block }
{
    *out.as_mut_array().unwrap() = block;
}

impl<'a> Lane<'a> {
    // Lane p of a frame and of its store.
    pub fn of(frame: &'a [u8; 5280], store: &'a [u8; 2880], p: usize) -> Lane<'a>
        requires { p < 32 }
        ensures { result ≡ lane_of frame.now store.now p }
    {
        Lane {
            frame: frame[165 * p..].first_chunk().unwrap(),
            store: store[90 * p..].first_chunk().unwrap(),
        }
    }

    // Block b of the frame.
    fn entered(&self, b: usize) -> [u8; 5]
        requires { b < 33 }
        ensures { result ≡ block_of self.now b }
    {
        let frame = self.frame;
        *frame[5 * b..].first_chunk().unwrap()
    }

    // Block q of the store.
    fn held(&self, q: usize) -> [u8; 5]
        requires { q < 18 }
        ensures { result ≡ block_of self.now (33 + q) }
    {
        let store = self.store;
        *store[5 * q..].first_chunk().unwrap()
    }

    // The block that comes out of row r at turn t: first those of the store, oldest first, and then those that entered with the frame.
    fn turned_out<S: Side>(&self, r: usize, t: usize) -> [u8; 5]
        requires { (r < 3) × (t < 11) }
        ensures { result ≡ block_of self.now (out_from S.rows (3 * t + r)) }
    {
        let d = S::depth(r);
        if t < d {
            return self.held(S::start(r) + (d - 1 - t));
        }
        self.entered(3 * (t - d) + r)
    }

    // The block that row r keeps at place q, newest first.
    fn kept<S: Side>(&self, r: usize, q: usize) -> [u8; 5]
        requires { (r < 3) × (q < S.rows.depth r) }
        ensures { result ≡ block_of self.now (kept_from S.rows (S.rows.start r + q)) }
    {
        if q < 11 {
            return self.entered(3 * (10 - q) + r);
        }
        self.held(S::start(r) + (q - 11))
    }

    // The eleven blocks of row r that come out.
    fn row_out<S: Side>(&self, r: usize, out: &mut [u8])
        requires { (r < 3) × (length out.old ≡ 165) }
        ensures { TurnsOut S.rows self.now r 11 out.old out.new }
    {
        for t in 0..11 {
            let at = 15 * t + 5 * r;
            put_block(self.turned_out::<S>(r, t), &mut out[at..at + 5]);
        }
    }

    // The blocks that row r keeps.
    fn row_kept<S: Side>(&self, r: usize, next: &mut [u8])
        requires { (r < 3) × (length next.old ≡ 5 * S.rows.depth r) }
        ensures { next.new ≡ tabulate (5 * S.rows.depth r) (λ i. block_byte self.now (kept_from S.rows (S.rows.start r + i / 5)) (i % 5)) }
    {
        for q in 0..S::depth(r) {
            let at = 5 * q;
            put_block(self.kept::<S>(r, q), &mut next[at..at + 5]);
        }
    }

    // The 33 blocks that come out. The part lent has the lane's own, so that of the row that holds nothing none is moved.
    pub fn blocks_out<S: Side>(&self, out: &mut [u8])
        requires { (length out.old ≡ 165) × (out.old ≡ take 165 self.now) }
        ensures { out.new ≡ tabulate 165 (λ i. block_byte self.now (out_from S.rows (i / 5)) (i % 5)) }
    {
        let r = S::FIRST_KEPT;
        self.row_out::<S>(r, out);
        self.row_out::<S>(r + 1, out);
    }

    // The 18 blocks that are kept: two rows.
    pub fn blocks_kept<S: Side>(&self, next: &mut [u8])
        requires { length next.old ≡ 90 }
        ensures { next.new ≡ tabulate 90 (λ i. block_byte self.now (kept_from S.rows (i / 5)) (i % 5)) }
    {
        let r = S::FIRST_KEPT;
        let (first, second) = next.split_at_mut(5 * S::depth(r));
        self.row_kept::<S>(r, first);
        self.row_kept::<S>(r + 1, second);
    }
}
