// The shuffle: the information of each word of a row rotated, that of lane p by 20 p places, and rotated back.
// Word 32 k + p of a row is word k of lane p.
#![tactic(auto)]

ghost use Rattle.std.specs.Prelude.{◌≡◌, ℕ, ◌<◌, ◌%◌, ◌^◌};
ghost use Rattle.bits.specs.definitions.Words.{word_of, word_bytes};
ghost use Rattle.shuffle.specs.definitions.Shuffle.{shuffled, unshuffled};
ghost use Rattle.shuffle.specs.private.Rotation.{crossed, rotated_first, rotated, HoldsNumbers, HoldsBytes, WordPut, LaneRotated, LanesRotated};

use bits::Word;

// Two halves of a word's information, 55 bits each.
#[derive(Clone, Copy, Debug, PartialEq, Eq)]
struct Halves {
    first: u64,
    second: u64,
    ghost bounded: { (first < 2 ^ 55) × (second < 2 ^ 55) },
}

// The n last bits of x and then the 55 - n first of y, both numbers of 55 bits.
fn cross(x: u64, y: u64, n: u64) -> u64
    requires { (y < 2 ^ 55) × (n < 55) }
    ensures { (result ≡ crossed n x y) × (result < 2 ^ 55) }
{
    let mask = (1 << n) - 1;
    ((x & mask) << (55 - n)) | (y >> n)
}

// Two halves rotated by n places, round the whole of 110.
fn rotate_halves(h: Halves, n: u64) -> Halves
    requires { n < 110 }
    ensures { (result.first ≡ rotated_first n h.first h.second) × (result.second ≡ rotated_first n h.second h.first) }
{
    let (x, y, m) = if n < 55 {
        (h.second, h.first, n)
    } else {
        (h.first, h.second, n - 55)
    };
    Halves {
        first: cross(x, y, m),
        second: cross(y, x, m),
    }
}

// A word whose information is rotated by n places; its parity stays.
fn rotate(word: Word, n: u64) -> Word
    requires { n < 110 }
    ensures bounded { result.hi < 2 ^ 62 }
    ensures value { word_of result.hi result.lo ≡ rotated n (word_of word.hi word.lo) }
{
    let hi = word.hi % bits::TWO_62;
    let halves = Halves {
        first: hi / 128,
        second: hi % 128 * bits::TWO_48 + word.lo / 65536,
    };
    let Halves { first, second } = rotate_halves(halves, n);
    Word {
        hi: first * 128 + second / bits::TWO_48,
        lo: second % bits::TWO_48 * 65536 + word.lo % 65536,
    }
}

// A row of 384 words, whatever it keeps them in.
trait Row {
    // Word i of the row is w.
    ghost holds: { Self → ℕ → ℕ → Type 0 };

    // Word i of the row becomes a word; the others stay.
    fn put_word(&mut self, i: usize, word: Word)
        requires { (i < 384) × (word.hi < 2 ^ 62) }
        ensures { WordPut holds i (word_of word.hi word.lo) self.old self.new };
}

// Two numbers a word.
impl Row for [u64; 768] {
    ghost holds = { HoldsNumbers };

    fn put_word(&mut self, i: usize, word: Word) {
        self[2 * i] = word.hi;
        self[2 * i + 1] = word.lo;
    }
}

// Sixteen bytes a word.
impl Row for [u8; 6144] {
    ghost holds = { HoldsBytes };

    fn put_word(&mut self, i: usize, word: Word) {
        bits::put(self, 16 * i, word.hi);
        bits::put(self, 16 * i + 8, word.lo);
    }
}

// The twelve words of lane p rotated by n places.
fn rotate_lane<R: Row>(words: &[u64; 768], p: usize, n: u64, out: &mut R)
    requires { (p < 32) × (n < 110) }
    ensures { LaneRotated R.holds n p words.now out.old 12 out.new }
{
    for k in 0..12 {
        let i = 32 * k + p;
        let word = Word {
            hi: words[2 * i],
            lo: words[2 * i + 1],
        };
        out.put_word(i, rotate(word, n));
    }
}

// By N places: compiled for each amount by itself, since a shift by a literal takes half the time.
fn rotate_lane_at<const N: u64, R: Row>(words: &[u64; 768], p: usize, out: &mut R)
    requires { (p < 32) × (N < 110) }
    ensures { LaneRotated R.holds N p words.now out.old 12 out.new }
{
    rotate_lane(words, p, N, out);
}

// By any amount; by one of those that the shuffle has, as compiled for it.
fn rotate_lane_by<R: Row>(words: &[u64; 768], p: usize, n: usize, out: &mut R)
    requires { (p < 32) × (n < 110) }
    ensures { LaneRotated R.holds n p words.now out.old 12 out.new }
{
    match n {
        0 => rotate_lane_at::<0, R>(words, p, out),
        10 => rotate_lane_at::<10, R>(words, p, out),
        20 => rotate_lane_at::<20, R>(words, p, out),
        30 => rotate_lane_at::<30, R>(words, p, out),
        40 => rotate_lane_at::<40, R>(words, p, out),
        50 => rotate_lane_at::<50, R>(words, p, out),
        60 => rotate_lane_at::<60, R>(words, p, out),
        70 => rotate_lane_at::<70, R>(words, p, out),
        80 => rotate_lane_at::<80, R>(words, p, out),
        90 => rotate_lane_at::<90, R>(words, p, out),
        100 => rotate_lane_at::<100, R>(words, p, out),
        _ => rotate_lane(words, p, n as u64, out),
    }
}

// Each word of a row rotated, a word of lane p by so many places times p.
fn rotate_words<R: Row>(words: &[u64; 768], places: usize, out: &mut R)
    requires { places < 110 }
    ensures { LanesRotated R.holds places words.now 32 out.new }
{
    for p in 0..32 {
        rotate_lane_by(words, p, places * p % 110, out);
    }
}

// Each word's bits at their places, as the bytes of its two numbers.
pub fn shuffle_words(words: &[u64; 768], out: &mut [u8; 6144])
    ensures { out.new ≡ word_bytes 384 (shuffled words.now) }
{
    rotate_words(words, 20, out);
}

// And back: a rotation by 20 p and one by 90 p bring each bit back.
pub fn unshuffle_words(words: &[u64; 768], out: &mut [u64; 768])
    ensures { out.new ≡ unshuffled words.now }
{
    rotate_words(words, 90, out);
}
