// The hunt for a frame's start, over a whole run of symbols and piece by piece, its numbers lent by a host.
ghost use Rattle.std.specs.Prelude.{◌≡◌};
ghost use Rattle.hunt.specs.definitions.Find.{find};
ghost use Rattle.hunt.specs.definitions.Pieces.{opened, answer, Feeds};
ghost use Rattle.adderbloom.specs.definitions.Found.{found_of};

use hunt::Hunt;

// The first start of a whole run. Refused: 13, it is shorter than a frame.
#[unsafe(no_mangle)]
pub extern "C" fn lr800_hunt(run: &[u8]) -> adderbloom::hunts::Found
    ensures { result ≡ found_of (find run.now) }
{
    adderbloom::hunts::lr800_hunt(run)
}

// A search before its first piece.
#[unsafe(no_mangle)]
pub extern "C" fn lr800_hunt_open(state: &mut Hunt)
    ensures { state.new ≡ opened }
{
    adderbloom::hunts::lr800_hunt_open(state);
}

// The next piece. Refused: 2, other than 6,144 symbols are kept; 23, no start was found yet and the symbols taken in and the piece's
// are 2^64 or more together.
#[unsafe(no_mangle)]
pub extern "C" fn lr800_hunt_feed(state: &mut Hunt, kept: &mut [u8], piece: &[u8]) -> u32
    ensures { Feeds state.old kept.old piece.now result state.new kept.new }
{
    adderbloom::hunts::lr800_hunt_feed(state, kept, piece)
}

// The first start of what was taken in. Refused: 13, it is less than a frame.
#[unsafe(no_mangle)]
pub extern "C" fn lr800_hunt_answer(state: Hunt) -> adderbloom::hunts::Found
    ensures { result ≡ found_of (answer state) }
{
    adderbloom::hunts::lr800_hunt_answer(state)
}
