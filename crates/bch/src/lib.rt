// The word code BCH(126,110): the parity and the remainder of one word, and of the 384 words of a frame in one call.
// Bits 0 to 109 of a word are the information, the rest is parity.
#![tactic(auto)]

ghost use Rattle.std.specs.Prelude.{◌≡◌, ℕ, [], ◌+◌, ◌*◌, ◌%◌, ◌^◌, ◌<◌, ◌≤◌, get_or, slice_index};
ghost use Rattle.bits.specs.definitions.Bits.{tabulate};
ghost use Rattle.bits.specs.definitions.Words.{word_of, word_at, row_of};
ghost use Rattle.bch.specs.definitions.Code.{feed_of, remainder, parity_of};
ghost use Rattle.bch.specs.definitions.Word.{information_of, coded_frame};
ghost use Rattle.bch.specs.private.Tables.{IsByteRemainders};
ghost use Rattle.bch.specs.private.Folded.{FoldedBy, FoldedWords, UppersWithin};
ghost use Rattle.bch.specs.private.Digits.{of_digits};

use bits::Word;

mod tables;

// ---- a word in fewer bits

// A word in 64 bits with the same remainder: x^64 has that of 1 + x^6 + x^9 + x^20 + x^31, and x^95 that of 1 + x + x^4 + x^26 + x^30.
fn fold_upper(word: Word) -> u64
    ensures { remainder 64 result ≡ remainder 126 (word_of word.hi word.lo) }
{
    let a = word.hi % bits::TWO_31;
    let b = word.hi % bits::TWO_62 / bits::TWO_31;
    let v = word.lo ^ a ^ (a << 6) ^ (a << 9) ^ (a << 20) ^ (a << 31);
    v ^ b ^ (b << 1) ^ (b << 4) ^ (b << 26) ^ (b << 30)
}

// The same in the 48 low bits, those above them being done with: x^48 has the remainder of 1 + x^2 + x^9 + x^15 + x^24.
fn fold_top(v: u64) -> u64
    ensures { remainder 48 result ≡ remainder 64 v }
{
    let a = v >> 48;
    v ^ a ^ (a << 2) ^ (a << 9) ^ (a << 15) ^ (a << 24)
}

// A word in the 48 low bits of a number, with the same remainder.
fn folded(word: Word) -> u64
    ensures { remainder 48 result ≡ remainder 126 (word_of word.hi word.lo) }
{
    fold_top(fold_upper(word))
}

// Word i of a frame.
fn word_in(words: &[u64; 768], i: usize) -> Word
    requires { i < 384 }
    ensures { word_of result.hi result.lo ≡ word_at words.now i }
{
    Word {
        hi: words[2 * i],
        lo: words[2 * i + 1],
    }
}

// Each word of a frame, folded; and every bit of the upper numbers in one, which none of them exceeds.
fn fold_words<F: Fn(Word) -> u64>(words: &[u64; 768], out: &mut [u64; 384], fold: F) -> u64
    requires { F.IsAlwaysCallable fold }
    ensures folded_words { FoldedBy (F.post fold) 384 words.now out.new }
    ensures uppers_within { UppersWithin words.now result }
{
    let mut uppers = 0;
    for (i, number) in out.iter_mut().enumerate() {
        uppers |= words[2 * i];
        *number = fold(word_in(words, i));
    }
    uppers
}

// ---- the parity, by bytes

static BYTE_REMAINDERS: [u16; 256] = tables::BYTE_REMAINDERS;

// The remainders of bytes times x^16.
#[derive(Clone, Copy)]
struct ByteRemainders {
    entries: &'static [u16; 256],
    ghost is: { IsByteRemainders entries.now },
}

impl ByteRemainders {
    // The table is read where it stands: nothing is copied.
    fn new() -> ByteRemainders {
        ByteRemainders {
            entries: &BYTE_REMAINDERS,
        }
    }

    // The remainder of the low byte of b times x^16.
    fn of(&self, b: u64) -> u16
        ensures { result ≡ remainder 24 (b % 256 * 2 ^ 16) }
    {
        self.entries[(b % 256) as usize]
    }

    // The 24 + n low bits of v in 16 + n, with the same remainder: what the top byte leaves is added two bytes below it.
    fn fold_byte(&self, n: u64, v: u64) -> u64
        requires { n ≤ 24 }
        ensures { remainder (16 + n) result ≡ remainder (24 + n) v }
    {
        let r = u64::from(self.of(v >> (16 + n)));
        v ^ (r << n)
    }

    // The remainder of the 48 low bits of v, byte by byte from the top.
    fn remainder(&self, v: u64) -> u64
        ensures { result ≡ remainder 48 v }
    {
        let c = self.fold_byte(24, v);
        let d = self.fold_byte(16, c);
        let e = self.fold_byte(8, d);
        let f = self.fold_byte(0, e);
        f % 65536
    }
}

// The parity of a word's information; the word's own parity bits are not looked at.
pub fn parity(word: Word) -> u64
    ensures { result ≡ parity_of (information_of (word_of word.hi word.lo)) }
{
    let information = Word {
        lo: word.lo / 65536 * 65536,
        ..word
    };
    ByteRemainders::new().remainder(folded(information))
}

// Each word of a frame gets the parity of its information: a word and its remainder make a code word, whatever parity bits stood there.
fn add_parity(table: &ByteRemainders, folds: &[u64; 384], words: &mut [u64; 768])
    requires { FoldedWords 48 words.old folds.now }
    ensures { words.new ≡ coded_frame words.old }
{
    for (i, fold) in folds.iter().enumerate() {
        let word = word_in(words, i);
        words[2 * i] = word.hi % bits::TWO_62;
        words[2 * i + 1] = word.lo ^ table.remainder(*fold);
    }
}

// The words of a frame, each with the parity of its information. All are folded first, which is quicker than word by word.
pub fn encode_frame(words: &mut [u64; 768])
    ensures { words.new ≡ coded_frame words.old }
{
    let table = ByteRemainders::new();
    let mut folds = [0; 384];
    fold_words(words, &mut folds, folded);
    add_parity(&table, &folds, words);
}

// ---- the remainder of a word received, by digits of 16 bits

// A digit of 16 bits below a remainder: the remainder of r times x^16, and of the digit d. The quotient comes first: that of x^32 by the generator is
// x^16 + x^14 + x^12 + x^11 + x^9 + x^8 + x^6 + x^4 + x^3; then the generator's lower terms, as often as it says.
fn fold_digit(r: u16, d: u16) -> u16
    ensures { result ≡ feed_of r 16 d }
{
    let a = r ^ (r >> 2);
    let b = r ^ (r >> 1);
    let q = a ^ (a >> 10) ^ (b >> 4) ^ (b >> 7) ^ (r >> 13);
    let t = q ^ (q << 2);
    d ^ q ^ (t << 1) ^ (t << 5) ^ (t << 9) ^ (q << 10) ^ (q << 14)
}

// The remainder of a number of four digits, from the top: the top digit is its own remainder.
fn fold_digits(digits: &[u16; 4]) -> u16
    ensures { result ≡ remainder 64 (of_digits digits.now) }
{
    let r = fold_digit(digits[3], digits[2]);
    let s = fold_digit(r, digits[1]);
    fold_digit(s, digits[0])
}

// A number's four digits, the lowest first.
fn digits_of(v: u64) -> [u16; 4]
    ensures { of_digits result ≡ v }
{
    [
        (v % 65536) as u16,
        (v / 65536 % 65536) as u16,
        (v / bits::TWO_32 % 65536) as u16,
        (v / bits::TWO_48) as u16,
    ]
}

// The remainder of a word: 0 exactly at the code words.
pub fn word_remainder(word: Word) -> u16
    ensures { result ≡ remainder 126 (word_of word.hi word.lo) }
{
    fold_digits(&digits_of(fold_upper(word)))
}

// What stands above a word's 126 bits goes. Where no upper number can have more, as in a frame received, no word is looked at.
fn trim_words(uppers: u64, words: &mut [u64; 768])
    requires { UppersWithin words.old uppers }
    ensures { words.new ≡ row_of 384 (word_at words.old) }
{
    if uppers < bits::TWO_62 {
        return;
    }
    for i in (0..768).step_by(2) {
        words[i] %= bits::TWO_62;
    }
}

// The digits of each number.
fn split_numbers(numbers: &[u64; 384], out: &mut [[u16; 4]; 384])
    ensures { (i : ℕ) → i < 384 → of_digits (get_or out.new i []) ≡ slice_index numbers.now i }
{
    for (i, digits) in out.iter_mut().enumerate() {
        *digits = digits_of(numbers[i]);
    }
}

// The remainder of each number, which is shifts of 16 bits alone: eight are done at a time.
fn digit_remainders(numbers: &[[u16; 4]; 384], out: &mut [u16; 384])
    ensures { (i : ℕ) → i < 384 → slice_index out.new i ≡ remainder 64 (of_digits (get_or numbers.now i [])) }
{
    for (i, rest) in out.iter_mut().enumerate() {
        *rest = fold_digits(&numbers[i]);
    }
}

// The remainder of each word of a frame; what stands above a word's 126 bits goes. Each step goes over all words before the next, which is quicker.
pub fn remainders(words: &mut [u64; 768], out: &mut [u16; 384])
    ensures { (words.new ≡ row_of 384 (word_at words.old))
        × (out.new ≡ tabulate 384 (λ i. remainder 126 (word_at words.old i))) }
{
    let mut folds = [0; 384];
    let uppers = fold_words(words, &mut folds, fold_upper);
    trim_words(uppers, words);
    let mut digits = [[0; 4]; 384];
    split_numbers(&folds, &mut digits);
    digit_remainders(&digits, out);
}
