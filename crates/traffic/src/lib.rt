// Test traffic: the PRBS31 test signal in frames of lanes, frame after frame or any one directly, and the checker of recovered frames.
// A register's state is 31 bits, the youngest lowest. The signal's bits stand in words of 64, the earliest on top of the first.
#![tactic(auto)]

ghost use Rattle.std.specs.Prelude.{◌≡◌, ◌⊎◌, ◌+◌, ◌*◌, ◌-◌, ◌/◌, ◌%◌, ◌^◌, ◌<◌, ◌≤◌, length};
ghost use Rattle.bits.specs.definitions.Bits.{tabulate, count};
ghost use Rattle.refusal.specs.definitions.Refusal.{answer_of};
ghost use Rattle.traffic.specs.definitions.Register.{state_from, state_after};
ghost use Rattle.traffic.specs.definitions.Traffic.{traffic_from, Generates, Continues};
ghost use Rattle.traffic.specs.definitions.Checker.{Checks};
ghost use Rattle.traffic.specs.private.Stream.{stream_word, terms_of, Streams, Grows, AsFar, Doubled, parted_of, spread_of, reduced_of};
ghost use Rattle.traffic.specs.private.Lanes.{window_at, row_of, rows_of, Exchanged, Turned, BlockPut, BlocksPut, Placed};
ghost use Rattle.traffic.specs.private.Counting.{differing, differs};

use refusal::Refusal;

// The bits of a frame: 32 lanes of 1,320.
const FRAME_BITS: u64 = 42240;

// The bits of the fill: 36 blocks of 40 in each lane.
const FILL_BITS: u64 = 46080;

// The first half of a group.
const HALF: u64 = 0xFFFFF00000000000;

// The first and the third symbol of a group.
const EVEN: u64 = 0xFFC00FFC00000000;

// A state of the register.
#[derive(Clone, Copy, Debug, PartialEq, Eq)]
struct State {
    bits: u64,
    ghost within: { bits < 2 ^ 31 },
}

// A kept state's top bit is not looked at.
impl From<u32> for State {
    ghost from_gives = { λ kept state. state.bits ≡ kept % 2 ^ 31 };

    fn from(kept: u32) -> State {
        State {
            bits: u64::from(kept) % bits::TWO_31,
        }
    }
}

impl From<State> for u32 {
    ghost from_gives = { λ state kept. kept ≡ state.bits };

    fn from(state: State) -> u32 {
        state.bits as u32
    }
}

impl State {
    // The state before the first bit: all ones.
    const SEED: State = State {
        bits: bits::TWO_31 - 1,
    };

    // The state n bits later. 28 bits do not depend on one another: each enters by bits that are there.
    fn ahead(self, n: u64) -> State
        requires { n ≤ 28 }
        ensures { result.bits ≡ state_from self.bits n }
    {
        let entering = (self.bits >> (28 - n)) ^ (self.bits >> (31 - n));
        State {
            bits: (self.bits << n) % bits::TWO_31 + entering % (1 << n),
        }
    }

    // The state that is as many bits after this one as `other` is after 1: the same sum of the first 31 states after this one, which stand in one number.
    fn as_far(self, other: State) -> State
        ensures { AsFar other.bits self.bits result.bits }
    {
        let terms = terms(other.bits);
        let states = (self.bits << 31) + self.ahead(28).ahead(3).bits;
        let mut sum = 0;
        for i in 0u64..31 {
            sum ^= (terms >> i) % 2 * ((states >> (31 - i)) % bits::TWO_31);
        }
        State { bits: sum }
    }

    // The state twice as many bits after 1 as this one is: the square of a sum is the sum of the squares.
    fn doubled(self) -> State
        ensures { Doubled self.bits result.bits }
    {
        let square = reduced(reduced(spread(terms(self.bits))));
        State {
            bits: terms(square),
        }
    }

    // The state so many bits after the state 1, by halving their number: twice as far as half of them, and one more where it is odd. Up
    // to 28 are one step.
    fn jump(bits: u64) -> State
        ensures { result.bits ≡ state_from 1 bits }
    {
        if bits <= 28 {
            return State { bits: 1 }.ahead(bits);
        }
        State::jump(bits / 2).doubled().ahead(bits % 2)
    }

    // The state after so many bits.
    fn after(bits: u64) -> State
        ensures { result.bits ≡ state_after bits }
    {
        State::SEED.as_far(State::jump(bits))
    }

    // The first 64 bits sent from this state on, sixteen at a time.
    fn first_word(self) -> u64
        ensures { result ≡ stream_word self.bits 0 }
    {
        let mut state = self;
        let mut word = 0;
        for _ in 0..4u32 {
            state = state.ahead(16);
            word = word * 65536 + (65535 - state.bits % 65536);
        }
        word
    }

    // The stream of a frame from this state on, and a word of no meaning behind it. The pairs of words from word 64 on are even in number, so that the compiler
    // makes two of them a turn with one test.
    fn write_stream(self, words: &mut [u64; 661])
        ensures { Streams self.bits 660 words.new }
    {
        words[0] = self.first_word();
        words[1] = self.ahead(28).ahead(28).ahead(8).first_word();
        next_words(words);
        grow::<1>(31, 64, words);
        grow::<2>(64, 660, words);
    }

    // The lanes of the frame from this state on; the answer is the state after it, the last 31 bits of the stream before they were inverted.
    fn generate(self, lanes: &mut [u8; 5280]) -> State
        ensures { (result.bits ≡ state_from self.bits 42240) × (lanes.new ≡ traffic_from self.bits) }
    {
        let mut words = [0; 661];
        self.write_stream(&mut words);
        write_lanes(&words, lanes);
        State {
            bits: !words[659] % bits::TWO_31,
        }
    }
}

// Which of the first 31 states after 1 add up to a state, by exclusive or. These are 1, 2, 4 to 2^27, 2^28 + 1, 2^29 + 2 and 2^30 + 4; the same back.
fn terms(state: u64) -> u64
    ensures { result ≡ terms_of state }
{
    state ^ (state >> 28)
}

// A number and itself k places further on, as far as the mask lets through.
#[tactic(auto, unfolding(crate::specs::private::Stream::parted_of))]
fn parted(x: u64, k: u64, mask: u64) -> u64
    requires { k < 64 }
    ensures { result ≡ parted_of k mask x }
{
    (x ^ (x << k)) & mask
}

// A number's bits at every other place, for up to 32 of them.
#[tactic(auto, unfolding(crate::specs::private::Stream::spread_of))]
fn spread(terms: u64) -> u64
    ensures { result ≡ spread_of terms }
{
    let a = parted(terms, 16, 0x0000FFFF0000FFFF);
    let b = parted(a, 8, 0x00FF00FF00FF00FF);
    let c = parted(b, 4, 0x0F0F0F0F0F0F0F0F);
    let d = parted(c, 2, 0x3333333333333333);
    parted(d, 1, 0x5555555555555555)
}

// The same sum with fewer terms: the state 31 bits on is the sum of the one three bits on and this one.
#[tactic(auto, unfolding(crate::specs::private::Stream::reduced_of))]
fn reduced(terms: u64) -> u64
    ensures { result ≡ reduced_of terms }
{
    let above = terms >> 31;
    (terms % bits::TWO_31) ^ above ^ (above << 3)
}

// The state after so many bits.
pub fn state_after(bits: u64) -> u32
    ensures { result ≡ state_after bits }
{
    u32::from(State::after(bits))
}

// 64 bits of two words that follow one another, from bit k on.
fn window(a: u64, b: u64, k: u64) -> u64
    requires { k < 64 }
    ensures { result ≡ (a * 2 ^ 64 + b) / 2 ^ (64 - k) % 2 ^ 64 }
{
    (a << k) | (b >> 1 >> (63 - k))
}

// Words 2 to 30, each by the two before it: the register's rule holds four times as far back, 112 and 124 bits.
fn next_words(words: &mut [u64; 661])
    ensures { Grows 2 31 words.old words.new }
{
    for n in 2..31 {
        let a = words[n - 2];
        let b = words[n - 1];
        words[n] = !(window(a, b, 16) ^ window(a, b, 4));
    }
}

// Words up to another place, each by those 28 D and 31 D words before it: the rule holds of words, and of two at a time, as of bits. At twice the distance the
// compiler moves two at a time.
fn grow<const D: usize>(from: usize, end: usize, words: &mut [u64; 661])
    requires { ((D ≡ 1) ⊎ (D ≡ 2)) × (31 * D ≤ from) × (from ≤ end) × (end ≤ 660) }
    ensures { Grows from end words.old words.new }
{
    for n in from..end {
        words[n] = !(words[n - 28 * D] ^ words[n - 31 * D]);
    }
}

// A row of 32 symbols in eight groups of four: 40 bits on top of each number, and below them what follows.
fn read_row(words: &[u64; 661], s: usize, groups: &mut [u64; 8])
    requires { s < 132 }
    ensures { groups.new ≡ row_of words.now s }
{
    for (m, group) in groups.iter_mut().enumerate() {
        let k = 5 * s + 5 * m / 8;
        let r = (40 * m % 64) as u64;
        *group = window(words[k], words[k + 1], r);
    }
}

// The four rows of which block i of every lane is made.
fn read_rows(words: &[u64; 661], i: usize, rows: &mut [[u64; 8]; 4])
    requires { i < 33 }
    ensures { rows.new ≡ rows_of words.now i }
{
    for (j, groups) in rows.iter_mut().enumerate() {
        read_row(words, 4 * i + j, groups);
    }
}

// Two numbers with some bits exchanged: where the mask has a bit, b's bit there and a's bit n places further on.
fn exchanged(a: u64, b: u64, n: u64, mask: u64) -> (u64, u64)
    requires { n < 64 }
    ensures { Exchanged a b n mask result.0 result.1 }
{
    let changed = ((a << n) ^ b) & mask;
    (a ^ (changed >> n), b ^ changed)
}

// Four groups of four symbols, one below the other, turned: halves of a group exchanged first, then symbols of a half.
fn turned(groups: [u64; 4]) -> [u64; 4]
    ensures { Turned groups result }
{
    let [a, b, c, d] = groups;
    let (a, c) = exchanged(a, c, 20, HALF);
    let (b, d) = exchanged(b, d, 20, HALF);
    let (a, b) = exchanged(a, b, 10, EVEN);
    let (c, d) = exchanged(c, d, 10, EVEN);
    [a, b, c, d]
}

// Block i of lane p: the 40 top bits of v. What stands below them is covered by the next block; the last is put down alone.
fn put_block(i: usize, p: usize, v: u64, lanes: &mut [u8; 5280])
    requires { (i < 33) × (p < 32) }
    ensures { BlockPut i p v lanes.old lanes.new }
{
    let o = 165 * p + 5 * i;
    if i < 32 {
        bits::put(lanes, o, v);
    } else {
        lanes[o..o + 5].copy_from_slice(&v.to_be_bytes()[..5]);
    }
}

// Block i of every lane. Four lanes are written out: a loop over them keeps the compiler from unrolling the one around it.
fn put_blocks(rows: &[[u64; 8]; 4], i: usize, lanes: &mut [u8; 5280])
    requires { i < 33 }
    ensures { BlocksPut rows.now i 32 lanes.old lanes.new }
{
    for q in 0..8 {
        let [a, b, c, d] = turned([rows[0][q], rows[1][q], rows[2][q], rows[3][q]]);
        put_block(i, 4 * q, a, lanes);
        put_block(i, 4 * q + 1, b, lanes);
        put_block(i, 4 * q + 2, c, lanes);
        put_block(i, 4 * q + 3, d, lanes);
    }
}

// The lanes of a stream, block by block.
fn write_lanes(words: &[u64; 661], lanes: &mut [u8; 5280])
    ensures { Placed words.now 33 lanes.new }
{
    let mut rows = [[0; 8]; 4];
    for i in 0..33 {
        read_rows(words, i, &mut rows);
        put_blocks(&rows, i, lanes);
    }
}

// The lanes of the frame from a kept state on, and the state after it. Refused: `Output`, which is not 5,280 bytes.
pub fn next_frame(state: &mut u32, output: &mut [u8]) -> Result<(), Refusal>
    ensures { Continues state.old output.old (answer_of result) state.new output.new }
{
    let lanes = output.as_mut_array::<5280>().ok_or(Refusal::Output)?;
    *state = u32::from(State::from(*state).generate(lanes));
    Ok(())
}

// The lanes of frame f, counted from the fresh start. Refused: `Output`, which is not 5,280 bytes.
pub fn frame(f: u32, output: &mut [u8]) -> Result<(), Refusal>
    ensures { Generates f output.old (answer_of result) output.new }
{
    let mut state = state_after(u64::from(f) * FRAME_BITS);
    next_frame(&mut state, output)
}

// In how many bits two byte strings differ, as far as both go.
fn differing(a: &[u8], b: &[u8]) -> u32
    requires { differing a.now b.now < 2 ^ 32 }
    ensures { result ≡ differing a.now b.now }
{
    a.iter().zip(b).map(|(a, b)| (a ^ b).count_ones()).sum()
}

// How many bits of each lane differ from what was sent, which the lane holds from byte `fill` on; the bytes before it are not compared.
fn count_lanes(fill: usize, lanes: &[u8; 5280], sent: &[u8; 5280], wrong: &mut [u32; 32])
    requires { fill ≤ 165 }
    ensures { wrong.new ≡ tabulate 32 (λ p. count (differs fill lanes.now sent.now p) 1320) }
{
    let (lanes, _) = lanes.as_chunks::<165>();
    let (sent, _) = sent.as_chunks::<165>();
    for (p, count) in wrong.iter_mut().enumerate() {
        *count = differing(&lanes[p][fill..], &sent[p][..165 - fill]);
    }
}

// The stream bit at which the lanes that recovered frame f holds begin: 36 blocks of 32 lanes before the frame, or the first.
fn start_of(f: u32) -> u64
    ensures { result ≡ 42240 * f - 46080 }
{
    (u64::from(f) * FRAME_BITS).saturating_sub(FILL_BITS)
}

// How many bits of each lane of recovered frame f are wrong; f counts from the fresh start. All of frame 0 is fill, and three blocks of frame 1. Refused:
// `Input`, the lanes, which are not 5,280 bytes; `Output`, which is not 32 counts.
pub fn check(f: u32, lanes: &[u8], wrong: &mut [u32]) -> Result<(), Refusal>
    ensures { Checks f lanes.now wrong.old (answer_of result) wrong.new }
{
    let lanes = lanes.as_array::<5280>().ok_or(Refusal::Input)?;
    let wrong = wrong.as_mut_array::<32>().ok_or(Refusal::Output)?;
    let mut sent = [0; 5280];
    State::after(start_of(f)).generate(&mut sent);
    let fill = match f {
        0 => 165,
        1 => 15,
        _ => 0,
    };
    count_lanes(fill, lanes, &sent, wrong);
    Ok(())
}
