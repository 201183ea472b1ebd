// One call: a frame sent, or a frame received.
#![tactic(auto)]

ghost use Rattle.std.specs.Prelude.{◌≡◌, IsOk};
ghost use Rattle.refusal.specs.definitions.Refusal.{answer_of};
ghost use Rattle.lanes.specs.definitions.Interleaver.{interleaved_store, deinterleaved_frame, deinterleaved_store};
ghost use Rattle.lane_words.specs.definitions.LaneWords.{word_lanes};
ghost use Rattle.framing.specs.definitions.Places.{base};
ghost use Rattle.framing.specs.definitions.Send.{sent_frame, Sends};
ghost use Rattle.framing.specs.definitions.Receive.{received_words, received_flags, ReceivesWords, Receives};

use refusal::Refusal;

// The exchanged places of the base: 2 and 3.
const EXCHANGED: u64 = 12;

// A frame of lanes through every stage; the store becomes what is kept.
fn send_frame(lanes: &[u8; 5280], store: &mut [u8; 2880], frame: &mut [u8; 6144])
    ensures frame_after { frame.new ≡ sent_frame base lanes.now store.old }
    ensures store_after { store.new ≡ interleaved_store base lanes.now store.old }
{
    let mut interleaved = [0u8; 5280];
    lanes::interleave(EXCHANGED, lanes, store, &mut interleaved);
    let mut words = [0u64; 768];
    lane_words::to_words(&interleaved, &mut words);
    bch::encode_frame(&mut words);
    symbols::frame_from_words(&words, frame);
}

// A frame sent: 5,280 bytes of lanes in, 6,144 symbols out, and the store kept. A wrong length is refused by its number and changes nothing.
#[tactic(auto, unfolding(crate::specs::definitions::Send::send_number))]
pub fn send(input: &[u8], store: &mut [u8], output: &mut [u8]) -> Result<(), Refusal>
    ensures { Sends base input.now store.old output.old (answer_of result) store.new output.new }
{
    let lanes = input.as_array().ok_or(Refusal::Input)?;
    let store = store.as_mut_array().ok_or(Refusal::Store)?;
    let frame = output.as_mut_array().ok_or(Refusal::Output)?;
    send_frame(lanes, store, frame);
    Ok(())
}

// A frame's lock, its words mended and their flags: the first half of receiving, for a caller that wants no lanes. A wrong length, or no lock, is refused by
// its number and changes nothing.
#[tactic(auto, unfolding(crate::specs::definitions::Receive::words_number))]
pub fn receive_words(
    input: &[u8],
    words: &mut [u64; 768],
    flags: &mut [u8; 384],
) -> Result<(), Refusal>
    ensures { ReceivesWords input.now words.old flags.old (answer_of result) words.new flags.new }
{
    let frame = input.as_array::<6144>().ok_or(Refusal::Input)?;
    if !pilots::locks(frame, 0) {
        return Err(Refusal::NoLock);
    }
    demapping::words_from_frame(frame, words)?;
    decoder::decode_frame(words, flags);
    Ok(())
}

// The words' lanes, deinterleaved and permuted back; the store becomes what is kept.
fn lanes_out(
    words: &[u64; 768],
    store: &mut [u8; 2880],
    lanes: &mut [u8; 5280],
) -> Result<(), Refusal>
    ensures done { IsOk result }
    ensures lanes_after { lanes.new ≡ deinterleaved_frame base (word_lanes words.now) store.old }
    ensures store_after { store.new ≡ deinterleaved_store (word_lanes words.now) store.old }
{
    let mut interleaved = [0u8; 5280];
    lane_words::to_lanes(words, &mut interleaved);
    lanes::deinterleave(EXCHANGED, &interleaved, store, lanes)
}

// A frame received: 6,144 symbols in, 5,280 bytes of lanes and 384 flag bytes out, and the store kept. A wrong length, or no lock, is refused by its
// number and changes nothing.
#[tactic(auto, unfolding(crate::specs::definitions::Receive::receive_number))]
pub fn receive(
    input: &[u8],
    store: &mut [u8],
    output: &mut [u8],
    flags: &mut [u8],
) -> Result<(), Refusal>
    ensures { Receives base input.now store.old output.old flags.old (answer_of result)
        store.new output.new flags.new }
{
    let frame = input.as_array::<6144>().ok_or(Refusal::Input)?;
    let store = store.as_mut_array().ok_or(Refusal::Store)?;
    let lanes = output.as_mut_array().ok_or(Refusal::Output)?;
    let flags = flags.as_mut_array().ok_or(Refusal::Flags)?;
    let mut words = [0u64; 768];
    receive_words(frame, &mut words, flags)?;
    lanes_out(&words, store, lanes)
}
