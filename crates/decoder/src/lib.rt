// A word received: at most two bits are mended, or it is flagged; one word, and the 384 words of a frame in one call.
// A word is two numbers: hi has bits 0 to 61 in its 62 low bits, lo has bits 62 to 125. Bits 0 to 109 are the information, the rest is parity.
#![tactic(auto)]

ghost use Rattle.std.specs.Prelude.{◌≡◌, ◌↔◌, ◌<◌, ◌+◌, ◌*◌, ◌/◌, ◌%◌, ◌^◌, IsTrue, EachIndex, slice_index, replicate};
ghost use Rattle.bits.specs.definitions.Words.{word_of};
ghost use Rattle.bch.specs.definitions.Code.{remainder};
ghost use Rattle.decoder.specs.definitions.Mend.{mend, mended, flag_of};
ghost use Rattle.decoder.specs.definitions.Word.{decoded, mended_frame, flags_of};
ghost use Rattle.decoder.specs.private.Answer.{HasRemainders, MendedAt, count_of, pattern_of, plain_at, mended_row, flags_row};

use bits::Word;
use decoder_tables::{Locator, Pair};

// What decoding flipped: no bit, one, two in rising order; or no code word lies within two bits.
#[derive(Clone, Copy, Debug, PartialEq, Eq)]
pub enum Mend {
    Clean,
    One(u64),
    Two(u64, u64),
    Flagged,
}

// The word that is passed on, and what was flipped to get it.
#[derive(Clone, Copy, Debug, PartialEq, Eq)]
pub struct Decoded {
    pub word: Word,
    pub mend: Mend,
}

// The flag byte: 0, 1 or 2 bits mended, 3 flagged.
impl From<Mend> for u8 {
    ghost from_gives = { λ m byte. byte ≡ flag_of m };

    #[tactic(auto, unfolding(crate::specs::definitions::Mend::flag_of))]
    fn from(m: Mend) -> u8 {
        match m {
            Mend::Clean => 0,
            Mend::One(_) => 1,
            Mend::Two(_, _) => 2,
            Mend::Flagged => 3,
        }
    }
}

// The flag byte of what decoding flipped.
pub fn flag(m: Mend) -> u8
    ensures { result ≡ flag_of m }
{
    u8::from(m)
}

// The places that are flipped in a word of this remainder, in any order; none where it is flagged. What was looked up is believed only if its bits have the
// remainder.
fn find(locator: &Locator, remainder: u16) -> Option<Pair>
    ensures { pattern_of result ≡ mend remainder }
{
    let places = locator.places(remainder);
    let sum = locator.remainder(places);
    if sum == remainder { Some(places) } else { None }
}

// How many bits have these places.
fn count(places: Pair) -> u8
    ensures { result ≡ count_of places.first + count_of places.second }
{
    u8::from(places.first < 126) + u8::from(places.second < 126)
}

// The flag byte of what was found, with no order of its places in between.
fn flag_found(found: Option<Pair>) -> u8
    ensures { result ≡ flag_of (pattern_of found) }
{
    match found {
        Some(places) => count(places),
        None => 3,
    }
}

// The word with what was found flipped.
fn flip(locator: &Locator, word: Word, found: Option<Pair>) -> Word
    ensures hi { result.hi ≡ mended (word.hi * 2 ^ 64 + word.lo) (pattern_of found) / 2 ^ 64 }
    ensures lo { result.lo ≡ mended (word.hi * 2 ^ 64 + word.lo) (pattern_of found) % 2 ^ 64 }
{
    match found {
        Some(places) => locator.flip(word, places),
        None => word,
    }
}

// The pattern that was found.
fn pattern(found: Option<Pair>) -> Mend
    ensures { result ≡ pattern_of found }
{
    let Some(places) = found else {
        return Mend::Flagged;
    };
    let first = u64::from(places.first.min(places.second));
    let second = u64::from(places.first.max(places.second));
    if second < 126 {
        Mend::Two(first, second)
    } else if first < 126 {
        Mend::One(first)
    } else {
        Mend::Clean
    }
}

// What a word decodes to.
pub fn decode(word: Word) -> Decoded
    ensures { result ≡ decoded (word_of word.hi word.lo) }
{
    let locator = Locator::new();
    let received = Word {
        hi: word.hi % bits::TWO_62,
        lo: word.lo,
    };
    let found = find(&locator, bch::word_remainder(word));
    Decoded {
        word: flip(&locator, received, found),
        mend: pattern(found),
    }
}

// Whether all remainders are 0. They are joined to the last, since the compiler takes many at once only where no way leads out of the loop.
fn are_clean(rest: &[u16]) -> bool
    ensures { IsTrue result ↔ EachIndex rest.now (λ k. slice_index rest.now k ≡ 0) }
{
    rest.iter().fold(0, |all, r| all | *r) == 0
}

// Word i becomes what it decodes to, and gets its flag byte.
fn mend_word(locator: &Locator, rest: u16, i: usize, words: &mut [u64; 768], flags: &mut [u8; 384])
    requires place { i < 384 }
    requires has_remainder { rest ≡ remainder 126 (plain_at words.old i) }
    ensures { MendedAt i words.old flags.old words.new flags.new }
{
    let received = Word {
        hi: words[2 * i],
        lo: words[2 * i + 1],
    };
    let found = find(locator, rest);
    let word = flip(locator, received, found);
    words[2 * i] = word.hi;
    words[2 * i + 1] = word.lo;
    flags[i] = flag_found(found);
}

// Each word becomes what it decodes to, and gets its flag byte. Where all are code words, as on a good line, there is nothing to look up. Else one test a
// group of eight asks whether there is: the one branch on what was received, which is guessed right while few words are hit.
fn mend_frame(rest: &[u16; 384], words: &mut [u64; 768], flags: &mut [u8; 384])
    requires has_remainders { HasRemainders 384 words.old rest.now }
    requires clear { flags.old ≡ replicate 384 0 }
    ensures { (words.new ≡ mended_row 384 words.old) × (flags.new ≡ flags_row 384 words.old) }
{
    if are_clean(rest) {
        return;
    }
    let locator = Locator::new();
    for group in 0..48 {
        let from = 8 * group;
        if !are_clean(&rest[from..from + 8]) {
            for i in from..from + 8 {
                mend_word(&locator, rest[i], i, words, flags);
            }
        }
    }
}

// Each word of a frame becomes what it decodes to, and gets its flag byte.
pub fn decode_frame(words: &mut [u64; 768], flags: &mut [u8; 384])
    ensures { (words.new ≡ mended_frame words.old) × (flags.new ≡ flags_of words.old) }
{
    let mut rest = [0u16; 384];
    bch::remainders(words, &mut rest);
    flags.fill(0);
    mend_frame(&rest, words, flags);
}
