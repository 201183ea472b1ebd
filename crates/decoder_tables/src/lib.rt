// The decoder's tables with the rules that they keep, and what they are looked up for: from a remainder to places, and from places to bits.
#![tactic(auto)]

ghost use Rattle.std.specs.Prelude.{◌≡◌, ◌*◌, ◌+◌, ◌/◌, ◌%◌, ◌^◌, ◌<◌};
ghost use Rattle.std.specs.Int.Bits.{bit_xor};
ghost use Rattle.decoder_tables.specs.private.Tables.{IsColumns, IsSingleBits, Finds, column, located, flipped_at};

use bits::Word;

mod tables;

// Two places, in any order, each 127 where there is no bit.
#[derive(Clone, Copy, Debug, PartialEq, Eq)]
pub struct Pair {
    pub first: u8,
    pub second: u8,
    pub ghost within: { (first < 128) × (second < 128) },
}

// The tables as arrays, side by side, so that one address leads to them all.
#[derive(Debug, PartialEq, Eq)]
pub struct Arrays {
    pub field: [u16; 512],
    pub log: [u8; 128],
    pub cube: [u8; 128],
    pub one: [u8; 255],
    pub other: [u8; 255],
    pub place: [u8; 382],
    pub columns: [u16; 128],
    pub single_bits: [u64; 256],
}

static ARRAYS: Arrays = Arrays {
    field: tables::FIELD,
    log: tables::LOG,
    cube: tables::CUBE,
    one: tables::ONE,
    other: tables::OTHER,
    place: tables::PLACE,
    columns: tables::COLUMNS,
    single_bits: tables::SINGLE_BITS,
};

// The tables: six lead from a remainder to places, one has the remainders of single bits, and one the single bits as words, two numbers each.
#[derive(Clone, Copy, Debug, PartialEq, Eq)]
pub struct Locator {
    pub arrays: &'static Arrays,
    pub ghost finds: { Finds arrays.now },
    pub ghost are_columns: { IsColumns arrays.now.columns },
    pub ghost are_single_bits: { IsSingleBits arrays.now.single_bits },
}

impl Locator {
    // The tables are read where they stand: nothing is copied.
    pub fn new() -> Locator {
        Locator { arrays: &ARRAYS }
    }

    // The places of the bits that have a remainder; any two where no two bits have it. No branch hangs on it.
    #[tactic(auto, unfolding(crate::specs::private::Tables::located, crate::specs::private::Tables::place_by, crate::specs::private::Tables::values_of))]
    pub fn places(&self, remainder: u16) -> Pair
        ensures { (result.first, result.second) ≡ located self.now.arrays.now remainder }
    {
        let arrays = self.arrays;
        let low = usize::from(remainder % 256);
        let high = usize::from(remainder / 256);
        let values = arrays.field[low] ^ arrays.field[256 + high];
        let value = usize::from(values % 128);
        let cubed = usize::from(values / 128 % 128);
        let at = usize::from(arrays.log[value]);
        let way = usize::from(arrays.cube[value]) + 127 - usize::from(arrays.log[cubed]);
        Pair {
            first: arrays.place[at + usize::from(arrays.one[way])],
            second: arrays.place[at + usize::from(arrays.other[way])],
        }
    }

    // The remainder of the bits at two places.
    pub fn remainder(&self, places: Pair) -> u16
        ensures { result ≡ bit_xor (column places.first) (column places.second) }
    {
        let columns = &self.arrays.columns;
        columns[usize::from(places.first)] ^ columns[usize::from(places.second)]
    }

    // The word with the bits at two places flipped, by look-ups: a branch on places, which are any, would be guessed wrong every other time.
    pub fn flip(&self, word: Word, places: Pair) -> Word
        ensures hi { result.hi ≡ flipped_at (word.hi * 2 ^ 64 + word.lo) places.first places.second / 2 ^ 64 }
        ensures lo { result.lo ≡ flipped_at (word.hi * 2 ^ 64 + word.lo) places.first places.second % 2 ^ 64 }
    {
        let bits = &self.arrays.single_bits;
        let first = 2 * usize::from(places.first);
        let second = 2 * usize::from(places.second);
        Word {
            hi: word.hi ^ bits[first] ^ bits[second],
            lo: word.lo ^ bits[first + 1] ^ bits[second + 1],
        }
    }
}
