// Mapping and the DSP frame: a frame's words to its symbols.
// A word is two numbers: hi has bits 0 to 61 in its 62 low bits, lo has bits 62 to 125. Word 32 k + p of a frame is word k of lane p.
// Row g of a frame's symbols, 64 g to 64 g + 63, is a pilot and 63 symbols of words 4 g to 4 g + 3. Symbol j of the row is number 63 g + 3 + j, of which only
// the remainder by 4 counts: 63 g + 3 is the number in the pilot's place, where a word has two bits more than its 126.
#![tactic(auto)]

ghost use Rattle.std.specs.Prelude.{◌≡◌, cond, ◌<◌, ◌≤◌, ◌+◌, ◌*◌, ◌-◌, ◌/◌, ◌%◌, ◌^◌, eqb, get_or, length};
ghost use Rattle.bits.specs.definitions.Bits.{tabulate};
ghost use Rattle.pilots.specs.definitions.Table5.{pilots};
ghost use Rattle.symbols.specs.definitions.Frame.{frame_of};
ghost use Rattle.symbols.specs.definitions.Dibits.{dibit_in, swapped, turned, tributary_in};
ghost use Rattle.symbols.specs.private.Numbers.{mapped, dibits_of, quarter_at, byte_of_two};

// Each dibit of a byte with its two bits swapped.
fn swapped(x: u8) -> u8
    ensures { result ≡ swapped x }
{
    ((x >> 1) & 0x55) | ((x & 0x55) << 1)
}

// Symbol l's byte as its lanes have its dibits, and back: in an odd symbol the two bits of each are swapped.
pub fn turned(x: u8, l: u8) -> u8
    ensures { result ≡ turned l x }
{
    if l % 2 == 1 { swapped(x) } else { x }
}

// Dibit e of a byte, put at dibit t; both count by their remainders. Compiled for literal e and t.
pub fn put_dibit(x: u8, e: u8, t: u8) -> u8
    ensures { result ≡ dibit_in (e % 4) x * 4 ^ (3 - t % 4) }
{
    let from = 6 - 2 * (e % 4);
    let to = 6 - 2 * (t % 4);
    ((x >> from) % 4) << to
}

// The tributary that has lane r of the four that symbol l carries; both count by their remainders.
pub fn tributary(l: u8, r: u8) -> u8
    ensures { result ≡ tributary_in l r }
{
    (r % 4 + 3 * (2 * (l % 4) + l / 2 % 2)) % 4
}

// Symbol l from dibit E of a byte of each of its four lanes.
fn symbol<const E: u8>(bytes: [u8; 4], l: u8) -> u8
    requires { (E < 4) × (l < 4) }
    ensures { result ≡ mapped l (dibits_of bytes E) }
{
    let [a, b, c, d] = bytes;
    let w = put_dibit(a, E, tributary(l, 0));
    let x = put_dibit(b, E, tributary(l, 1));
    let y = put_dibit(c, E, tributary(l, 2));
    let z = put_dibit(d, E, tributary(l, 3));
    turned(w + x + y + z, l)
}

// Every fourth symbol of row R of four rows, from symbol E on, from the rows' bytes: what number the first has goes round by four. One for each E and R,
// so that all shifts are by literals.
fn row_quarter<const E: u8, const R: u8>(rows: &[u8; 256]) -> [u8; 16]
    requires { (E < 4) × (R < 4) }
    ensures { result ≡ tabulate 16 (λ i. quarter_at rows.now E (16 * R + i)) }
{
    let l = (E + 3 - R) % 4;
    let at = 64 * usize::from(R);
    let mut row = [0; 16];
    for (i, place) in row.iter_mut().enumerate() {
        let m = at + i;
        *place = symbol::<E>([rows[m], rows[m + 16], rows[m + 32], rows[m + 48]], l);
    }
    row
}

// Every fourth symbol of a frame, from symbol E on.
fn quarter<const E: u8>(b: &[u8; 6144], out: &mut [u8; 1536])
    requires { E < 4 }
    ensures { out.new ≡ tabulate 1536 (quarter_at b.now E) }
{
    let (fours, _) = b.as_chunks::<256>();
    for (q, rows) in fours.iter().enumerate() {
        let o = 64 * q;
        out[o..o + 16].copy_from_slice(&row_quarter::<E, 0>(rows));
        out[o + 16..o + 32].copy_from_slice(&row_quarter::<E, 1>(rows));
        out[o + 32..o + 48].copy_from_slice(&row_quarter::<E, 2>(rows));
        out[o + 48..o + 64].copy_from_slice(&row_quarter::<E, 3>(rows));
    }
}

// Two rows of bytes, one byte of each in a number: bytes at a stride the compiler would move one by one.
fn two_bytes(x: &[u8; 1536], y: &[u8; 1536], out: &mut [u16; 1536])
    ensures { out.new ≡ tabulate 1536 (λ i. get_or x.now i 0 + get_or y.now i 0 * 256) }
{
    for (i, two) in out.iter_mut().enumerate() {
        *two = u16::from_le_bytes([x[i], y[i]]);
    }
}

// The bytes of both, two and two in turn.
fn write_two_bytes(x: &[u16; 1536], y: &[u16; 1536], out: &mut [u8; 6144])
    ensures { out.new ≡ tabulate 6144 (byte_of_two x.now y.now) }
{
    for i in 0..1536 {
        let at = 4 * i;
        out[at..at + 2].copy_from_slice(&x[i].to_le_bytes());
        out[at + 2..at + 4].copy_from_slice(&y[i].to_le_bytes());
    }
}

// The symbols of a frame from the bytes of its words; what stands in the pilots' places is no symbol.
fn map_bytes(b: &[u8; 6144], frame: &mut [u8; 6144])
    ensures { frame.new ≡ tabulate 6144 (λ t. quarter_at b.now (t % 4) (t / 4)) }
{
    let mut s = [[0u8; 1536]; 4];
    quarter::<0>(b, &mut s[0]);
    quarter::<1>(b, &mut s[1]);
    quarter::<2>(b, &mut s[2]);
    quarter::<3>(b, &mut s[3]);
    let mut x = [0u16; 1536];
    two_bytes(&s[0], &s[1], &mut x);
    let mut y = [0u16; 1536];
    two_bytes(&s[2], &s[3], &mut y);
    write_two_bytes(&x, &y, frame);
}

// The pilots at their places.
fn put_pilots(frame: &mut [u8; 6144])
    ensures { frame.new ≡ tabulate 6144 (λ t. cond (eqb (t % 64) 0) (get_or pilots (t / 64) 0) (get_or frame.old t 0)) }
{
    let pilots = pilots::pilots();
    for (g, pilot) in pilots.iter().enumerate() {
        frame[64 * g] = *pilot;
    }
}

// The frame of 384 words.
pub fn frame_from_words(words: &[u64; 768], frame: &mut [u8; 6144])
    ensures { frame.new ≡ frame_of words.now }
{
    let mut placed = [0u8; 6144];
    shuffle::shuffle_words(words, &mut placed);
    map_bytes(&placed, frame);
    put_pilots(frame);
}
