// The way back: a frame's symbols to its words.
// A word is two numbers: hi has bits 0 to 61 in its 62 low bits, lo has bits 62 to 125. Word 32 k + p of a frame is word k of lane p.
// Row g of a frame's symbols, 64 g to 64 g + 63, is a pilot and 63 symbols of words 4 g to 4 g + 3. Symbol j of the row is number 63 g + 3 + j, of which only
// the remainder by 4 counts: 63 g + 3 is the number in the pilot's place, where a word has two bits more than its 126.
#![tactic(auto)]

ghost use Rattle.std.specs.Prelude.{◌≡◌, ◌<◌, ◌≤◌, ◌+◌, ◌*◌, ◌-◌, ◌/◌, ◌%◌, ◌^◌, get_or, length, is_ok, IfErr};
ghost use Rattle.bits.specs.definitions.Bits.{tabulate, field_at};
ghost use Rattle.symbols.specs.definitions.Frame.{words_of};
ghost use Rattle.demapping.specs.definitions.Frame.{ReadsFrame};
ghost use Rattle.demapping.specs.private.Gathering.{gathered_turned, parted_at, gathered_from, rows_at, gathered_at};

use refusal::Refusal;

// A byte of the word of lane Q from four symbols that are turned, of which the first is symbol L.
fn lane_byte<const L: u8, const Q: u8>(four: [u8; 4]) -> u8
    requires { (L < 4) × (Q < 4) }
    ensures { result ≡ gathered_turned L Q four }
{
    let [a, b, c, d] = four;
    let w = symbols::put_dibit(a, symbols::tributary(L, Q), 0);
    let x = symbols::put_dibit(b, symbols::tributary(L + 1, Q), 1);
    let y = symbols::put_dibit(c, symbols::tributary(L + 2, Q), 2);
    let z = symbols::put_dibit(d, symbols::tributary(L + 3, Q), 3);
    w + x + y + z
}

// The four words of a row, sixteen bytes each. Its symbols stand in four lists in s, 256 each, one symbol in each in turn, from place at on; those of the first
// are symbol L, of four. Each is turned once, for all four lanes. One for each L, so that all shifts are by literals.
fn row_words<const L: u8>(s: &[u8; 1024], at: usize, out: &mut [u8])
    requires { (L < 4) × (at + 16 ≤ 256) × (length out.old ≡ 64) }
    ensures { out.new ≡ tabulate 64 (λ i. gathered_from s.now L (i / 16) (at + i % 16)) }
{
    for i in 0..16 {
        let m = at + i;
        let four = [
            symbols::turned(s[m], L),
            symbols::turned(s[m + 512], L + 1),
            symbols::turned(s[m + 256], L + 2),
            symbols::turned(s[m + 768], L + 3),
        ];
        out[i] = lane_byte::<L, 0>(four);
        out[16 + i] = lane_byte::<L, 1>(four);
        out[32 + i] = lane_byte::<L, 2>(four);
        out[48 + i] = lane_byte::<L, 3>(four);
    }
}

// The words of sixteen rows: what a row's first symbol is goes round by four.
fn rows(s: &[u8; 1024], out: &mut [u8])
    requires { length out.old ≡ 1024 }
    ensures { out.new ≡ tabulate 1024 (rows_at s.now) }
{
    for q in 0..4 {
        let at = 64 * q;
        let o = 256 * q;
        row_words::<3>(s, at, &mut out[o..o + 64]);
        row_words::<2>(s, at + 16, &mut out[o + 64..o + 128]);
        row_words::<1>(s, at + 32, &mut out[o + 128..o + 192]);
        row_words::<0>(s, at + 48, &mut out[o + 192..o + 256]);
    }
}

// Bytes two by two, each two in a number.
fn pairs(s: &[u8], out: &mut [u16])
    requires { length s.now ≡ 2 * length out.old }
    ensures { out.new
        ≡ tabulate (length out.old) (λ i. get_or s.now (2 * i) 0 + get_or s.now (2 * i + 1) 0 * 256) }
{
    let (pairs, _) = s.as_chunks::<2>();
    for (i, pair) in pairs.iter().enumerate() {
        out[i] = u16::from_le_bytes(*pair);
    }
}

// Byte K of each number.
fn byte_of_each<const K: usize>(numbers: &[u16], out: &mut [u8])
    requires { (K < 2) × (length numbers.now ≡ length out.old) }
    ensures { out.new ≡ tabulate (length out.old) (λ i. get_or numbers.now i 0 / 256 ^ K % 256) }
{
    for (i, byte) in out.iter_mut().enumerate() {
        *byte = numbers[i].to_le_bytes()[K];
    }
}

// Bytes in two lists, one behind the other, one byte to each in turn, by way of pairs: bytes at a stride the compiler would move one by one.
fn part_bytes(s: &[u8], room: &mut [u16], out: &mut [u8])
    requires { (length s.now ≡ 2 * length room.old) × (length out.old ≡ 2 * length room.old) }
    ensures { out.new ≡ tabulate (length out.old) (parted_at (length out.old) s.now) }
{
    let n = room.len();
    let end = out.len();
    pairs(s, room);
    byte_of_each::<0>(room, &mut out[0..n]);
    byte_of_each::<1>(room, &mut out[n..end]);
}

// Room to work in: made for each sixteen rows, it would be zeroed each time.
#[derive(Drop)]
struct Room {
    pairs: [u16; 512],
    two: [u8; 1024],
    four: [u8; 1024],
}

impl Room {
    fn cleared() -> Room {
        Room {
            pairs: [0; 512],
            two: [0; 1024],
            four: [0; 1024],
        }
    }

    // The bytes of the words of sixteen rows of symbols, which are parted in two lists, and each of these in two again.
    fn sixteen_rows(&mut self, s: &[u8; 1024], out: &mut [u8])
        requires { length out.old ≡ 1024 }
        ensures { out.new ≡ tabulate 1024 (gathered_at s.now) }
    {
        let Room { pairs, two, four } = self;
        part_bytes(s, pairs, two);
        part_bytes(&two[0..512], &mut pairs[0..256], &mut four[0..512]);
        part_bytes(&two[512..1024], &mut pairs[0..256], &mut four[512..1024]);
        rows(four, out);
    }
}

// The bytes of a frame's words, with their bits at their places.
fn gather_bytes(frame: &[u8; 6144], out: &mut [u8; 6144])
    ensures { out.new ≡ tabulate 6144 (gathered_at frame.now) }
{
    let (parts, _) = frame.as_chunks::<1024>();
    let mut room = Room::cleared();
    for (g, part) in parts.iter().enumerate() {
        let from = 1024 * g;
        room.sixteen_rows(part, &mut out[from..from + 1024]);
    }
}

// The numbers of the bytes of a frame's words, two a word. In a loop of their own: else the compiler would move the bytes one by one.
fn numbers(b: &[u8; 6144], out: &mut [u64; 768])
    ensures { out.new ≡ tabulate 768 (λ j. field_at b.now (64 * j) 64) }
{
    let (chunks, _) = b.as_chunks::<8>();
    for (j, chunk) in chunks.iter().enumerate() {
        out[j] = u64::from_be_bytes(*chunk);
    }
}

// The 384 words of a frame.
fn read_words(frame: &[u8; 6144], words: &mut [u64; 768])
    ensures { words.new ≡ words_of frame.now }
{
    let mut b = [0u8; 6144];
    gather_bytes(frame, &mut b);
    let mut placed = [0u64; 768];
    numbers(&b, &mut placed);
    shuffle::unshuffle_words(&placed, words);
}

// The 384 words of a frame; its pilots are not looked at. Where its length is wrong, it is refused, and nothing changes. The frame is the caller's own, so
// that nothing is copied on the way.
pub fn words_from_frame(frame: &[u8], words: &mut [u64; 768]) -> Result<(), Refusal>
    ensures reads { ReadsFrame frame.now words.old (is_ok result) words.new }
    ensures refused { IfErr result (λ refusal. refusal ≡ Refusal.Input) }
{
    let frame = frame.as_array().ok_or(Refusal::Input)?;
    read_words(frame, words);
    Ok(())
}
