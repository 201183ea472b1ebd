// Bits, words and rows, and the laws of them that every other crate cites. The code is what moves bytes without a question asked.
#![tactic(auto)]

ghost use Rattle.std.specs.Prelude.{◌≡◌};
ghost use Rattle.bits.specs.definitions.Bits.{loaded_at};
ghost use Rattle.bits.specs.definitions.Put.{PutEight};

// Powers of two by which numbers are cut, as the definitions write them: 2^24 and so on.
pub const TWO_24: u64 = 1 << 24;

pub const TWO_31: u64 = 1 << 31;

pub const TWO_32: u64 = 1 << 32;

pub const TWO_40: u64 = 1 << 40;

pub const TWO_48: u64 = 1 << 48;

pub const TWO_56: u64 = 1 << 56;

pub const TWO_62: u64 = 1 << 62;

// A word in two numbers: bits 0 to 61 are the 62 low bits of hi, bits 62 to 125 are lo.
#[derive(Clone, Copy, Debug, PartialEq, Eq)]
pub struct Word {
    pub hi: u64,
    pub lo: u64,
}

// The eight bytes from byte o on as a number, the first on top. 0 where there are not eight.
pub fn load(s: &[u8], o: usize) -> u64
    ensures { result ≡ loaded_at s.now o }
{
    if s.len() < 8 || s.len() - 8 < o {
        return 0;
    }
    u64::from_be_bytes([
        s[o],
        s[o + 1],
        s[o + 2],
        s[o + 3],
        s[o + 4],
        s[o + 5],
        s[o + 6],
        s[o + 7],
    ])
}

// v as the eight bytes from byte o on. Where there are not eight, nothing changes.
pub fn put(out: &mut [u8], o: usize, v: u64)
    ensures { PutEight v o out.old out.new }
{
    if out.len() < 8 || out.len() - 8 < o {
        return;
    }
    out[o..o + 8].copy_from_slice(&v.to_be_bytes());
}
