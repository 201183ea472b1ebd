// Labels and levels, the pilots, the rule of lock, the first offset of a run that keeps it, and the rule over symbols kept in columns.
#![tactic(auto)]

ghost use Rattle.std.specs.Prelude.{◌≡◌, Bool, not, ℕ, ◌+◌, ◌*◌, ◌<◌, ◌≤◌, eqb, ltb, cond, get_or, fold, max};
ghost use Rattle.bits.specs.definitions.Bits.{tabulate, count, least};
ghost use Rattle.pilots.specs.definitions.Levels.{level_of, label_of};
ghost use Rattle.pilots.specs.definitions.Table5.{pilots};
ghost use Rattle.pilots.specs.definitions.Pilots.{met, lock_limit, locks, below, offsets, first_lock, column_frame, locked_column};
ghost use Rattle.pilots.specs.private.Pilots.{AnswersBy, few_fail, agreeing, counts};

mod tables;

// Read in place, where a constant would be copied at each use.
static PILOTS: [u8; 96] = tables::PILOTS;

// The pilots, copied once for a whole search: the loop over its blocks reads them faster from there.
#[derive(Drop)]
struct Table {
    bytes: [u8; 96],
    ghost is_table: { bytes ≡ pilots },
}

// With fewer right of 32 pilots, whichever they are, 25 are wrong, and there is no lock.
const LEAST_RIGHT: u8 = 8;

// The level of a two-bit label.
#[tactic(auto, unfolding(crate::specs::definitions::Levels::level_of))]
pub fn label_level(label: u8) -> Option<i8>
    ensures { result ≡ level_of label }
{
    match label {
        0 => Some(-3),
        1 => Some(-1),
        2 => Some(3),
        3 => Some(1),
        _ => None,
    }
}

// The label of a level.
#[tactic(auto, unfolding(crate::specs::definitions::Levels::label_of))]
pub fn level_label(level: i8) -> Option<u8>
    ensures { result ≡ label_of level }
{
    match level {
        -3 => Some(0),
        -1 => Some(1),
        1 => Some(3),
        3 => Some(2),
        _ => None,
    }
}

// The 96 pilots.
#[tactic(auto, unfolding(crate::specs::definitions::Table5::pilots))]
pub fn pilots() -> [u8; 96]
    ensures { result ≡ pilots }
{
    PILOTS
}

// The rule of lock: fewer than 25 of the 96 pilots are not met.
fn is_lock<F: Fn(usize) -> bool>(met: F) -> bool
    requires { (i : ℕ) → i < 96 → F.pre met i }
    ensures { (p : ℕ → Bool) → AnswersBy (F.post met) p → result ≡ few_fail p }
{
    let mut wrong: u8 = 0;
    for i in 0..96 {
        wrong += u8::from(!met(i));
    }
    wrong < 25
}

// The rule over symbols from a frame's first on: pilot i is symbol 64 i, and a missing one is not met.
fn frame_locks(symbols: &[u8]) -> bool
    ensures { result ≡ locks symbols.now 0 }
{
    is_lock(|i| symbols.get(64 * i) == Some(&PILOTS[i]))
}

// The rule over symbols from the one at `offset` on.
#[tactic(auto, using(crate::proofs::Lock::locks_part, crate::proofs::Lock::nothing_locks))]
pub fn locks(symbols: &[u8], offset: usize) -> bool
    ensures { result ≡ locks symbols.now offset }
{
    symbols.get(offset..).is_some_and(frame_locks)
}

// One pilot at 128 neighbouring offsets: one loop over plain bytes, which the compiler takes sixteen at a time.
fn count_agreeing(symbols: &[u8; 128], pilot: u8, right: &mut [u8; 128])
    requires { (j : ℕ) → j < 128 → get_or right.old j 0 < 32 }
    ensures { right.new ≡ tabulate 128 (λ j. get_or right.old j 0 + cond (eqb (get_or symbols.now j 0) pilot) 1 0) }
{
    for (j, count) in right.iter_mut().enumerate() {
        *count += u8::from(symbols[j] == pilot);
    }
}

// The largest of 128 counts.
fn largest(right: &[u8; 128]) -> u8
    ensures { result ≡ fold max 0 right.now }
{
    right.iter().copied().fold(0, u8::max)
}

impl Table {
    fn new() -> Table {
        Table { bytes: pilots() }
    }

    // How many of the first 32 pilots are met at each of 128 neighbouring offsets: pilot by pilot, so that the inner loop reads neighbours.
    fn count_right(&self, symbols: &[u8; 6271]) -> [u8; 128]
        ensures { result ≡ counts symbols.now 32 }
    {
        let mut right = [0; 128];
        for (i, pilot) in self.bytes[..32].iter().enumerate() {
            count_agreeing(symbols[64 * i..].first_chunk().unwrap(), *pilot, &mut right);
        }
        right
    }

    // The first of 128 neighbouring offsets that locks. Only those are asked at which enough of the first 32 pilots are right, and in most blocks of a string
    // without a lock none are.
    fn first_in_block(&self, symbols: &[u8; 6271]) -> Option<usize>
        ensures { result ≡ below 128 (least (locks symbols.now) 128) }
    {
        let right = self.count_right(symbols);
        if largest(&right) < LEAST_RIGHT {
            return None;
        }
        (0..128).find(|&j| right[j] >= LEAST_RIGHT && locks(symbols, j))
    }
}

// The smallest offset of a run at which a whole frame fits and locks, if there is one. Searched in blocks of 128 offsets, and what is left behind the last of
// them one by one.
pub fn first_lock(run: &[u8]) -> Option<usize>
    ensures { result ≡ below (offsets run.now) (first_lock run.now) }
{
    let table = Table::new();
    let end = run.len().saturating_sub(6143);
    let blocks = end / 128;
    for block in 0..blocks {
        let offset = 128 * block;
        if let Some(j) = table.first_in_block(run[offset..].first_chunk().unwrap()) {
            return Some(offset + j);
        }
    }
    (128 * blocks..end).find(|&offset| locks(run, offset))
}

// How many of 32 symbols side by side are the pilots given.
fn count_same(symbols: &[u8; 32], pilots: &[u8; 32]) -> u8
    ensures { result ≡ count (λ k. eqb (get_or symbols.now k 0) (get_or pilots.now k 0)) 32 }
{
    let mut same = 0;
    for k in 0..32 {
        same += u8::from(symbols[k] == pilots[k]);
    }
    same
}

// Whether 96 symbols, side by side, lock as those of a frame 64 apart, the first of which stands at row `first` and the others behind it and round. Of the
// first 32 pilots and the 32 behind them one group stands in a row: with too few of it right, the rule is broken already.
pub fn locked_column(column: &[u8], first: usize) -> bool
    ensures { result ≡ locked_column column.now first }
{
    let Some(column) = column.as_array::<96>() else {
        return false;
    };
    let row = first % 96;
    let pilot = if row <= 64 { 0 } else { 32 };
    let at = (row + pilot) % 96;
    let right = count_same(
        column[at..].first_chunk().unwrap(),
        PILOTS[pilot..].first_chunk().unwrap(),
    );
    right >= LEAST_RIGHT && is_lock(|i| column[(row + i) % 96] == PILOTS[i])
}
