// The two sides of a line, by the rows of their interleavers.
ghost use Rattle.std.specs.Prelude.{◌≡◌, ℕ, ◌<◌, ◌≤◌};
ghost use Rattle.std.proofs.Common.{rules};
ghost use Rattle.lanes.specs.definitions.Interleaver.{Rows, sender, receiver};
ghost use Rattle.lanes.specs.private.Blocks.{FillStore};

pub trait Side {
    ghost rows: { Rows };

    ghost FIRST_KEPT: { ℕ };

    // The first of the two rows that a store keeps, the other being the next: the third row holds nothing.
    const FIRST_KEPT: usize;

    // How many blocks row r holds.
    fn depth(r: usize) -> usize
        requires { r < 3 }
        ensures { (result ≡ rows.depth r) × (result ≤ 12) };

    // Where row r begins in a lane's store, in blocks.
    fn start(r: usize) -> usize
        requires { r < 3 }
        ensures { (result ≡ rows.start r) × (result ≤ 24) };

    ghost fills: { FillStore rows FIRST_KEPT };
}

#[derive(Clone, Copy, Debug, PartialEq, Eq)]
pub struct Sender;

impl Side for Sender {
    ghost rows = { sender };

    ghost FIRST_KEPT = { 1 };

    const FIRST_KEPT: usize = 1;

    fn depth(r: usize) -> usize {
        6 * r
    }

    fn start(r: usize) -> usize {
        6 * (r / 2)
    }

    ghost fills = { Prim.search rules };
}

#[derive(Clone, Copy, Debug, PartialEq, Eq)]
pub struct Receiver;

impl Side for Receiver {
    ghost rows = { receiver };

    ghost FIRST_KEPT = { 0 };

    const FIRST_KEPT: usize = 0;

    fn depth(r: usize) -> usize {
        12 - 6 * r
    }

    fn start(r: usize) -> usize {
        12 * r
    }

    ghost fills = { Prim.search rules };
}
