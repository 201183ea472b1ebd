// The hunt for a frame's start, over a whole run of symbols and piece by piece, its numbers lent by a host.
ghost use Rattle.std.specs.Prelude.{◌≡◌};
ghost use Rattle.hunt.specs.definitions.Find.{find};
ghost use Rattle.hunt.specs.definitions.Found.{found_in};
ghost use Rattle.adderbloom.specs.definitions.Found.{found_of};
ghost use Rattle.hunt.specs.definitions.Pieces.{opened, answer, Feeds};

use hunt::Hunt;
use refusal::Refusal;

// What a search says: a refusal's number or 0, whether a start was found, 1 or 0, and its offset.
#[repr(C)]
#[derive(Clone, Copy, Debug, PartialEq, Eq)]
pub struct Found {
    pub refusal: u32,
    pub found: u32,
    pub offset: u64,
}

impl From<Result<Option<u64>, Refusal>> for Found {
    ghost from_gives = { λ said numbers. numbers ≡ found_of (found_in said) };

    #[tactic(auto, unfolding(crate::specs::definitions::Found::found_of))]
    fn from(said: Result<Option<u64>, Refusal>) -> Found {
        let (refusal, found, offset) = match said {
            Ok(None) => (0, 0, 0),
            Ok(Some(offset)) => (0, 1, offset),
            Err(refusal) => (u32::from(refusal), 0, 0),
        };
        Found {
            refusal,
            found,
            offset,
        }
    }
}

// The first start of a whole run. Refused: 13, it is shorter than a frame.
pub fn lr800_hunt(run: &[u8]) -> Found
    ensures { result ≡ found_of (find run.now) }
{
    Found::from(hunt::find(run))
}

// A search before its first piece.
pub fn lr800_hunt_open(state: &mut Hunt)
    ensures { state.new ≡ opened }
{
    *state = Hunt::opened();
}

// The next piece. Refused: 2, other than 6,144 symbols are kept; 23, no start was found yet and the symbols taken in and the piece's
// are 2^64 or more together.
pub fn lr800_hunt_feed(state: &mut Hunt, kept: &mut [u8], piece: &[u8]) -> u32
    ensures { Feeds state.old kept.old piece.now result state.new kept.new }
{
    refusal::number(state.feed(kept, piece))
}

// The first start of what was taken in. Refused: 13, it is less than a frame.
pub fn lr800_hunt_answer(state: Hunt) -> Found
    ensures { result ≡ found_of (answer state) }
{
    Found::from(state.answer())
}
