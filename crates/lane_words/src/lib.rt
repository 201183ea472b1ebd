// A frame's lanes and its 384 words, each way: a lane is twelve words of 110 information bits.
// Word 32 k + p is word k of lane p. In the order of the lanes it is word 12 p + k, whose first bit is bit 110 (12 p + k) of the frame.
#![tactic(auto)]

ghost use Rattle.std.specs.Prelude.{◌≡◌, ◌+◌, ◌*◌, ◌-◌, ◌/◌, ◌%◌, ◌^◌, ◌<◌, ◌≤◌, get_or};
ghost use Rattle.bits.specs.definitions.Bits.{tabulate};
ghost use Rattle.lane_words.specs.definitions.LaneWords.{lane_words, word_lanes};
ghost use Rattle.lane_words.specs.private.Thirds.{number_at, word_place, with_word, Placed, across_of, Written};

use bits::Word;
use std::array;

// Third t of lane p: four words in 55 bytes. They are seven numbers of 64 bits that follow each other, but for the last, which begins a byte sooner.
#[derive(Clone, Copy, Debug, PartialEq, Eq)]
struct Third {
    p: usize,
    t: usize,
    ghost bounded: { (p < 32) × (t < 3) },
}

// The last a bits of one number, and then the first 64 - a of the next.
fn joined(x: u64, y: u64, a: u64) -> u64
    requires { (0 < a) × (a < 64) }
    ensures { result ≡ x % 2 ^ a * 2 ^ (64 - a) + y / 2 ^ a }
{
    (x << (64 - a)) | (y >> a)
}

// The last a bits of a word's information, and then the first 64 - a of the next word's.
fn across(word: Word, next: Word, a: u64) -> u64
    requires { (0 < a) × (a < 64) }
    ensures { result ≡ across_of word.lo next.hi a }
{
    joined(word.lo >> 16, next.hi << 2, a)
}

impl Third {
    // The byte of the lanes that number j of the seven begins with.
    fn start(self, j: usize) -> usize
        requires { j < 7 }
        ensures { result ≡ 165 * self.p + 55 * self.t + 8 * j - j / 6 }
    {
        165 * self.p + 55 * self.t + 8 * j - j / 6
    }

    // Where word j of the four stands in a row of numbers, two a word.
    fn place(self, j: usize) -> usize
        requires { j < 4 }
        ensures { result ≡ 2 * word_place (4 * self.t + j) self.p }
    {
        let k = 4 * self.t + j;
        2 * (32 * k + self.p)
    }

    // The seven numbers.
    fn numbers(self, lanes: &[u8; 5280]) -> [u64; 7]
        ensures { result ≡ tabulate 7 (number_at lanes.now self.p self.t) }
    {
        array::from_fn(|j| bits::load(lanes, self.start(j)))
    }

    // Word j, with parity bits 0: the first 62 bits of x, and then the first 48 of y.
    fn put_word(self, words: &mut [u64; 768], j: usize, x: u64, y: u64)
        requires { j < 4 }
        ensures { words.new ≡ with_word words.old (4 * self.t + j) self.p x y }
    {
        let at = self.place(j);
        words[at] = x / 4;
        words[at + 1] = y / 65536 * 65536;
    }

    // The four words: word j begins 18 j bits before number 2 j, counted from 0; the last number begins 8 bits before number 6.
    fn split(self, lanes: &[u8; 5280], words: &mut [u64; 768])
        requires { Placed lanes.now (12 * self.p + 4 * self.t) words.old }
        ensures { Placed lanes.now (12 * self.p + 4 * self.t + 4) words.new }
    {
        let [n0, n1, n2, n3, n4, n5, last] = self.numbers(lanes);
        self.put_word(words, 0, n0, joined(n0, n1, 2));
        self.put_word(words, 1, joined(n1, n2, 18), joined(n2, n3, 20));
        self.put_word(words, 2, joined(n3, n4, 36), joined(n4, n5, 38));
        self.put_word(words, 3, joined(n5, last << 8, 54), last << 16);
    }

    // Word j of the four.
    fn word(self, words: &[u64; 768], j: usize) -> Word
        requires { j < 4 }
        ensures { let at = 2 * word_place (4 * self.t + j) self.p in (result.hi ≡ get_or words.now at 0) × (result.lo ≡ get_or words.now (at + 1) 0) }
    {
        let at = self.place(j);
        Word {
            hi: words[at],
            lo: words[at + 1],
        }
    }

    // The seven numbers out of the information of the four words.
    fn join(self, words: &[u64; 768]) -> [u64; 7]
        ensures { result ≡ tabulate 7 (number_at (word_lanes words.now) self.p self.t) }
    {
        let w0 = self.word(words, 0);
        let w1 = self.word(words, 1);
        let w2 = self.word(words, 2);
        let w3 = self.word(words, 3);
        [
            joined(w0.hi, w0.lo, 62),
            across(w0, w1, 46),
            joined(w1.hi, w1.lo, 44),
            across(w1, w2, 28),
            joined(w2.hi, w2.lo, 26),
            across(w2, w3, 10),
            joined(w3.hi, w3.lo, 16),
        ]
    }

    // The third of the lanes of a frame's words, where those before it are there.
    fn write(self, words: &[u64; 768], lanes: &mut [u8; 5280])
        requires { Written (word_lanes words.now) (165 * self.p + 55 * self.t) lanes.old }
        ensures { Written (word_lanes words.now) (165 * self.p + 55 * self.t + 55) lanes.new }
    {
        for (j, number) in self.join(words).iter().enumerate() {
            bits::put(lanes, self.start(j), *number);
        }
    }
}

// The words of a frame's lanes, with parity bits 0. In two loops: in one over all thirds, the division of its count would take a quarter of the time more, and
// half as much again in `to_lanes`.
pub fn to_words(lanes: &[u8; 5280], words: &mut [u64; 768])
    ensures { words.new ≡ lane_words lanes.now }
{
    for p in 0..32 {
        for t in 0..3 {
            Third { p, t }.split(lanes, words);
        }
    }
}

// The lanes of a frame's words; what stands above bit 0 in a hi, and the parity bits, are not looked at.
pub fn to_lanes(words: &[u64; 768], lanes: &mut [u8; 5280])
    ensures { lanes.new ≡ word_lanes words.now }
{
    for p in 0..32 {
        for t in 0..3 {
            Third { p, t }.write(words, lanes);
        }
    }
}
