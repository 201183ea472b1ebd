// Capture records, and what stands at a place of a lent capture. The symbols are handed back as the part of the capture where they lie, never copied.
#![tactic(auto)]

ghost use Rattle.std.specs.Prelude.{◌≡◌, ◌+◌, ◌<◌, ◌≤◌, None, Some, Ok, IfOk, length, take, drop, if◌then◌else◌, nat_lt};
ghost use Rattle.refusal.specs.definitions.Refusal.{answer_of};
ghost use Rattle.capture.specs.definitions.Read.{record_in, read_in, standing_in};
ghost use Rattle.capture.specs.definitions.Capture.{layout, big_endian_at, refusal_at, order_at, frame_at, read_at, next_of, read_one};
ghost use Rattle.capture.specs.definitions.Capture.{symbols_at, wanted};

use refusal::Refusal;

// A record's length comes first: its bytes, and the two lengths that are admitted.
const LENGTH_BYTES: usize = 4;

const ORDER_LENGTH: u32 = 14;

const FRAME_LENGTH: u32 = 6150;

// Then the version and the kind.
const VERSION_AT: usize = 4;

const VERSION: u8 = 1;

const KIND_AT: usize = 5;

const ORDER_KIND: u8 = 0;

const FRAME_KIND: u8 = 1;

// Then the numbers of an order.
const START_AT: usize = 6;

const ASKED_AT: usize = 10;

const ALLOWED_AT: usize = 14;

const ORDER_BYTES: usize = 18;

// Or the number and the symbols of a frame.
const NUMBER_AT: usize = 6;

const SYMBOLS_FROM: usize = 10;

const SYMBOLS: usize = 6144;

// The longest record.
pub const FRAME_BYTES: usize = 6154;

// A record: an order, or a frame with the place from which its symbols lie; and the place behind it.
#[derive(Clone, Copy, Debug, PartialEq, Eq)]
pub enum Record {
    Order {
        start: u32,
        asked: u32,
        allowed: u32,
        next: usize,
    },
    Frame {
        number: u32,
        from: usize,
        next: usize,
    },
}

impl Record {
    // The place behind it.
    pub fn next(&self) -> usize
        ensures { result ≡ next_of (record_in self.now) 0 }
    {
        match *self {
            Record::Order { next, .. } | Record::Frame { next, .. } => next,
        }
    }
}

// The number of the first four bytes, big-endian, if so many are there.
#[tactic(auto, unfolding(crate::specs::definitions::Capture::big_endian_at, bits::specs::definitions::Bits::value))]
fn number_of(bytes: &[u8]) -> Option<u32>
    ensures { result ≡ (if nat_lt (length bytes.now) 4 then None else Some (big_endian_at bytes.now 0)) }
{
    bytes.first_chunk().map(|first| u32::from_be_bytes(*first))
}

// The bytes of a record of a lawful length. Refused: cut short, another version, another kind.
#[tactic(auto, unfolding(crate::specs::definitions::Capture::refusal_at))]
fn record_at<const N: usize>(capture: &[u8], place: usize, kind: u8) -> Result<&[u8; N], Refusal>
    requires { layout.kind_at < N }
    ensures refusal { answer_of result ≡ refusal_at capture.now place N kind }
    ensures bytes { IfOk result (λ bytes. bytes.now ≡ take N (drop place capture.now)) }
{
    let bytes = capture.get(place..).ok_or(Refusal::CutShort)?;
    let record = bytes.first_chunk().ok_or(Refusal::CutShort)?;
    if record[VERSION_AT] != VERSION {
        return Err(Refusal::Version);
    }
    if record[KIND_AT] != kind {
        return Err(Refusal::Kind);
    }
    Ok(record)
}

// A record of the length of an order.
#[tactic(auto, unfolding(crate::specs::definitions::Capture::order_at, crate::specs::definitions::Capture::refused_or))]
fn order_at(capture: &[u8], place: usize) -> Result<Option<Record>, Refusal>
    ensures { read_in result ≡ order_at capture.now place }
{
    let record = record_at::<ORDER_BYTES>(capture, place, ORDER_KIND)?;
    Ok(Some(Record::Order {
        start: number_of(&record[START_AT..]).unwrap(),
        asked: number_of(&record[ASKED_AT..]).unwrap(),
        allowed: number_of(&record[ALLOWED_AT..]).unwrap(),
        next: place + ORDER_BYTES,
    }))
}

// A record of the length of a frame.
#[tactic(auto, unfolding(crate::specs::definitions::Capture::frame_at, crate::specs::definitions::Capture::refused_or))]
fn frame_at(capture: &[u8], place: usize) -> Result<Option<Record>, Refusal>
    ensures { read_in result ≡ frame_at capture.now place }
{
    let record = record_at::<FRAME_BYTES>(capture, place, FRAME_KIND)?;
    Ok(Some(Record::Frame {
        number: number_of(&record[NUMBER_AT..]).unwrap(),
        from: place + SYMBOLS_FROM,
        next: place + FRAME_BYTES,
    }))
}

// What stands at a place of a capture: nothing at the end, else a record. Any place is lawful, also one beyond the end.
#[tactic(auto, using(crate::proofs::Cases::big_endian_first), unfolding(crate::specs::definitions::Capture::read_at))]
pub fn read_at(capture: &[u8], place: usize) -> Result<Option<Record>, Refusal>
    ensures { read_in result ≡ read_at capture.now place }
{
    if capture.len() <= place {
        return Ok(None);
    }
    match number_of(&capture[place..]).ok_or(Refusal::CutShort)? {
        ORDER_LENGTH => order_at(capture, place),
        FRAME_LENGTH => frame_at(capture, place),
        _ => Err(Refusal::Length),
    }
}

// A frame's symbols, as the part of the lent capture where they lie; an empty part where fewer bytes are left.
#[tactic(auto, unfolding(crate::specs::definitions::Capture::symbols_at))]
pub fn symbols_at(capture: &[u8], from: usize) -> &[u8]
    ensures { result.now ≡ symbols_at capture.now from }
{
    let Some(behind) = capture.get(from..) else {
        return &[];
    };
    behind.get(..SYMBOLS).unwrap_or(&[])
}

// How many bytes of a record to ask for, by those that are there: its length first, then all of it.
#[tactic(auto, unfolding(crate::specs::definitions::Capture::wanted))]
pub fn wanted(piece: &[u8]) -> usize
    ensures { result ≡ wanted piece.now }
{
    match number_of(piece) {
        Some(ORDER_LENGTH) => ORDER_BYTES,
        Some(FRAME_LENGTH) => FRAME_BYTES,
        _ => LENGTH_BYTES,
    }
}

// The place after what was read: neither the end nor a refusal moves it, by whatever it is told.
pub fn next_place<E: Copy>(read: Result<Option<Record>, E>, place: usize) -> usize
    ensures { result ≡ next_of (standing_in read) place }
{
    match read {
        Ok(Some(record)) => record.next(),
        _ => place,
    }
}

// The one record that these bytes are: where more stands behind it they are refused, so that nothing is passed over.
#[tactic(auto, unfolding(crate::specs::definitions::Capture::read_one))]
pub fn read_one(piece: &[u8]) -> Result<Option<Record>, Refusal>
    ensures { read_in result ≡ read_one piece.now }
{
    let read = read_at(piece, 0);
    let next = next_place(read, 0);
    if 0 < next && next < piece.len() {
        return Err(Refusal::MoreThanOne);
    }
    read
}

// A reader walks over one lent capture and keeps its place.
#[derive(Clone, Copy, Debug, PartialEq, Eq)]
pub struct Reader<'a> {
    pub capture: &'a [u8],
    pub place: usize,
}

impl<'a> Reader<'a> {
    // A reader at the beginning of a capture.
    pub fn begin(capture: &'a [u8]) -> Reader<'a>
        ensures { (result.capture ≡ capture.entry) × (result.place ≡ 0) }
    {
        Reader { capture, place: 0 }
    }

    // What stands at its place.
    pub fn next(self) -> Result<Option<Record>, Refusal>
        ensures { read_in result ≡ read_at self.entry.capture.now self.entry.place }
    {
        read_at(self.capture, self.place)
    }

    // The reader at another place.
    pub fn moved(self, place: usize) -> Reader<'a>
        ensures { (result.capture ≡ self.entry.capture) × (result.place ≡ place) }
    {
        Reader { place, ..self }
    }

    // A frame's symbols, as a part of the capture that the reader was lent.
    pub fn symbols(self, from: usize) -> &'a [u8]
        ensures { result.now ≡ symbols_at self.entry.capture.now from }
    {
        symbols_at(self.capture, from)
    }
}
