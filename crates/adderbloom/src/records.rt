// What stands at a place of a capture, as numbers.
ghost use Rattle.std.specs.Prelude.{◌≡◌};
ghost use Rattle.capture.specs.definitions.Capture.{read_at, wanted};
ghost use Rattle.capture.specs.definitions.Read.{End};
ghost use Rattle.adderbloom.specs.definitions.Record.{record_of};

// A record read: a refusal's number or 0, its kind, its figures, where its symbols lie, and the next place.
#[repr(C)]
#[derive(Clone, Copy, Debug, PartialEq, Eq)]
pub struct Record {
    pub refusal: u32,
    pub kind: u32,
    pub number: u32,
    pub asked: u32,
    pub allowed: u32,
    pub symbols: usize,
    pub next: usize,
}

// Nothing at this place: what a record does not have is 0.
#[tactic(auto, unfolding(crate::specs::definitions::Record::record_of))]
fn nothing(place: usize) -> Record
    ensures { result ≡ record_of End place }
{
    Record {
        refusal: 0,
        kind: 0,
        number: 0,
        asked: 0,
        allowed: 0,
        symbols: 0,
        next: place,
    }
}

// What stands at a place of a capture; any place is lawful, also one beyond the end.
#[tactic(auto, unfolding(crate::specs::definitions::Record::record_of))]
pub fn lr800_read(capture: &[u8], place: usize) -> Record
    ensures { result ≡ record_of (read_at capture.now place) place }
{
    match capture::read_at(capture, place) {
        Ok(None) => nothing(place),
        Ok(
            Some(
                capture::Record::Order {
                    start,
                    asked,
                    allowed,
                    next,
                },
            ),
        ) => Record {
            kind: 1,
            number: start,
            asked,
            allowed,
            ..nothing(next)
        },
        Ok(Some(capture::Record::Frame { number, from, next })) => Record {
            kind: 2,
            number,
            symbols: from,
            ..nothing(next)
        },
        Err(refusal) => Record {
            refusal: u32::from(refusal),
            ..nothing(place)
        },
    }
}

// How many bytes of a record to ask for, by those that are there.
pub fn lr800_wanted(piece: &[u8]) -> usize
    ensures { result ≡ wanted piece.now }
{
    capture::wanted(piece)
}
