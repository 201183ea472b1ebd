// Where a frame starts in a run of symbols that does not mark it: over the whole run, and piece by piece.
#![tactic(auto)]

ghost use Rattle.std.specs.Prelude.{◌≡◌, cond, suc, ◌+◌, ◌^◌, ◌<◌, length, set};
ghost use Rattle.pilots.specs.definitions.Pilots.{locks};
ghost use Rattle.refusal.specs.definitions.Refusal.{answer_of};
ghost use Rattle.hunt.specs.definitions.Found.{found_in};
ghost use Rattle.hunt.specs.definitions.Find.{find};
ghost use Rattle.hunt.specs.definitions.Pieces.{opened, kept_place, from_oldest, answer, start_found, piece_taken, Feeds};

use refusal::Refusal;

// The first start of a whole run, if a frame starts in it. Refused: the run is shorter than a frame.
#[tactic(auto, using(crate::proofs::Finding::find_short, crate::proofs::Finding::find_long))]
pub fn find(run: &[u8]) -> Result<Option<u64>, Refusal>
    ensures { found_in result ≡ find run.now }
{
    if run.len() < 6144 {
        return Err(Refusal::ShortRun);
    }
    Ok(pilots::first_lock(run).map(|offset| offset as u64))
}

// The numbers that a search keeps: how many symbols were taken in, and whether a start was found, which any number but 0 says.
#[repr(C)]
#[derive(Clone, Copy, Debug, PartialEq, Eq)]
pub struct Hunt {
    pub taken: u64,
    pub found: u64,
}

impl Hunt {
    // A search before its first piece.
    pub fn opened() -> Hunt
        ensures { result ≡ opened }
    {
        Hunt { taken: 0, found: 0 }
    }

    // The first start of what was taken in, if a frame starts in it. Refused: that is shorter than a frame.
    #[tactic(auto, using(crate::proofs::Finding::answer_short, crate::proofs::Finding::answer_none, crate::proofs::Finding::answer_at))]
    pub fn answer(&self) -> Result<Option<u64>, Refusal>
        ensures { found_in result ≡ answer self.now }
    {
        let start = self.taken.checked_sub(6144).ok_or(Refusal::ShortRun)?;
        Ok((self.found != 0).then_some(start))
    }

    // The next piece. Refused, and nothing changed: other than 6,144 symbols are kept; no start was found yet and the symbols taken in and the piece's are 2^64
    // or more together.
    pub fn feed(&mut self, kept: &mut [u8], piece: &[u8]) -> Result<(), Refusal>
        ensures { Feeds self.old kept.old piece.now (answer_of result) self.new kept.new }
    {
        let kept = kept.as_mut_array().ok_or(Refusal::Store)?;
        if self.found != 0 {
            return Ok(());
        }
        self.taken
            .checked_add(piece.len() as u64)
            .ok_or(Refusal::TooMany)?;
        self.take_piece(kept, piece);
        Ok(())
    }

    // A piece, symbol by symbol, until a start is found.
    fn take_piece(&mut self, kept: &mut [u8; 6144], piece: &[u8])
        requires { (self.old.found ≡ 0) × (self.old.taken + length piece.now < 2 ^ 64) }
        ensures { record { hunt = self.new; kept = kept.new } ≡ piece_taken (record { hunt = self.old; kept = kept.old }) piece.now }
    {
        for &symbol in piece {
            let found = take_symbol(self.taken, kept, symbol);
            self.taken += 1;
            if found {
                self.found = 1;
                return;
            }
        }
    }
}

// Whether the kept symbols, from the oldest on, lock, where so many were taken in: the pilots' are the oldest one's column.
fn kept_locks(kept: &[u8; 6144], taken: u64) -> bool
    ensures { result ≡ locks (from_oldest taken kept.now) 0 }
{
    let from = 96 * (taken % 64) as usize;
    let row = (taken / 64 % 96) as usize;
    pilots::locked_column(&kept[from..from + 96], row)
}

// One symbol more, at its place among those kept: whether it is the last of a frame that locks.
#[tactic(auto, using(crate::proofs::Taking::too_few, crate::proofs::Taking::start_asked), unfolding(crate::specs::definitions::Pieces::kept_place))]
fn take_symbol(taken: u64, kept: &mut [u8; 6144], symbol: u8) -> bool
    requires { suc taken < 2 ^ 64 }
    ensures kept_after { kept.new ≡ set kept.old (kept_place taken) symbol }
    ensures value { cond result 1 0 ≡ start_found (suc taken) kept.new }
{
    let place = (96 * (taken % 64) + taken / 64 % 96) as usize;
    kept[place] = symbol;
    taken >= 6143 && kept_locks(kept, taken + 1)
}
