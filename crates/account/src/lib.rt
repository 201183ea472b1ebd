// The account of a run and its verdict: what each frame changes, and what may be said in the end.
#![tactic(auto)]

ghost use Rattle.std.specs.Prelude.{◌≡◌, ◌+◌, ◌^◌, ◌<◌, ◌≤◌, None, Some, Err, Ok, length, count_by, if◌then◌else◌, ◌==◌, nat_lt};
ghost use Rattle.refusal.specs.definitions.Refusal.{answer_of};
ghost use Rattle.account.specs.definitions.Account.{ahead, by_number, tallies_of, total, added, opened, late, grown, words_over};
ghost use Rattle.account.specs.definitions.Account.{over, right_total, entry_in, frame_entered, loss_entered, measured, verdict, verdict_number};

use refusal::Refusal;

// How many words had 0, 1 or 2 bits mended, or were flagged.
#[repr(C)]
#[derive(Clone, Copy, Debug, PartialEq, Eq)]
pub struct Tallies {
    pub clean: u64,
    pub one: u64,
    pub two: u64,
    pub flagged: u64,
}

// The next expected number, the order's start number, frames accepted and missing, and the tallies of their words.
#[repr(C)]
#[derive(Clone, Copy, Debug, PartialEq, Eq)]
pub struct Account {
    pub expected: u32,
    pub start: u32,
    pub accepted: u64,
    pub missing: u64,
    pub words: Tallies,
}

// What may be said of a run, with its number for a host in C.
#[derive(Clone, Copy, Debug, PartialEq, Eq)]
pub enum Verdict {
    NotMeasured = 0,
    Pass = 1,
    Fail = 2,
}

// The highest that accepted and missing may reach.
const FRAME_LIMIT: u64 = 1000000;

// The highest that any one tally may reach.
const TALLY_LIMIT: u64 = 384000000;

// Half the way round 2^32.
const HALF: u32 = 1 << 31;

// The words of a frame.
const WORDS: u64 = 384;

// The words tallied of the number after the start number.
const NEXT_TALLIED: u64 = 320;

// The words of a run that carry fill: all of the frame at the start number, and 64 of the next.
const FILL: u128 = 448;

// How far a frame's number lies after another number, round 2^32.
#[tactic(auto, unfolding(crate::specs::definitions::Account::ahead))]
fn ahead(got: u32, from: u32) -> u32
    ensures { result ≡ ahead got from }
{
    got.wrapping_sub(from)
}

// How many of a frame's flag bytes, or of the last of them, are v: counted in 16 bits, so that the compiler counts many at a time.
fn count_flags(flags: &[u8], v: u8) -> u64
    requires { length flags.now ≤ 384 }
    ensures { result ≡ count_by (λ flag. flag == v) flags.now }
{
    let mut n: u16 = 0;
    for flag in flags {
        if *flag == v {
            n += 1;
        }
    }
    u64::from(n)
}

// The sum of two numbers, if it keeps within a limit.
fn sum_within(x: u64, y: u64, limit: u64) -> Option<u64>
    ensures { result ≡ (if nat_lt limit (x + y) then None else Some (x + y)) }
{
    x.checked_add(y).filter(|sum| *sum <= limit)
}

impl Tallies {
    // No words.
    pub const NONE: Tallies = Tallies {
        clean: 0,
        one: 0,
        two: 0,
        flagged: 0,
    };

    // The words tallied.
    fn total(self) -> u128
        ensures { (result ≡ total self) × (result < 2 ^ 66) }
    {
        u128::from(self.clean)
            + u128::from(self.one)
            + u128::from(self.two)
            + u128::from(self.flagged)
    }

    // The tallies of both, if none passes its limit.
    fn added(self, t: Tallies) -> Option<Tallies>
        ensures { result ≡ (if words_over (added self t) then None else Some (added self t)) }
    {
        let clean = sum_within(self.clean, t.clean, TALLY_LIMIT)?;
        let one = sum_within(self.one, t.one, TALLY_LIMIT)?;
        let two = sum_within(self.two, t.two, TALLY_LIMIT)?;
        let flagged = sum_within(self.flagged, t.flagged, TALLY_LIMIT)?;
        Some(Tallies {
            clean,
            one,
            two,
            flagged,
        })
    }
}

impl Account {
    // The account of a new order.
    pub fn opened(start: u32) -> Account
        ensures { result ≡ opened start }
    {
        Account {
            expected: start,
            start,
            accepted: 0,
            missing: 0,
            words: Tallies::NONE,
        }
    }

    // One of three, by a frame's number: at the account's start number, at the next one, at every other.
    fn by_number<T: Copy>(&self, got: u32, first: T, second: T, later: T) -> T
        ensures { result ≡ by_number self.now got first second later }
    {
        match ahead(got, self.start) {
            0 => first,
            1 => second,
            _ => later,
        }
    }

    // The flag place from which on a frame's words are tallied: for the number after the start number, behind words 0 and 1 of each lane, which carry fill.
    fn first_tallied(&self, got: u32) -> usize
        ensures { (result ≡ by_number self.now got 384 64 0) × (result ≤ 384) }
    {
        self.by_number(got, 384, 64, 0)
    }

    // The tallies that a frame's flag bytes bring to an account: those of the words tallied, by the frame's number.
    #[tactic(auto, using(crate::proofs::Fill::from_first))]
    pub fn tallies_of(&self, got: u32, flags: &[u8; 384]) -> Tallies
        ensures { result ≡ tallies_of self.now got flags.now }
    {
        let tallied = &flags[self.first_tallied(got)..];
        Tallies {
            clean: count_flags(tallied, 0),
            one: count_flags(tallied, 1),
            two: count_flags(tallied, 2),
            flagged: count_flags(tallied, 3),
        }
    }

    // How many frames are missing before the one numbered got; one that comes half the way round or more after the expected number is late.
    fn gap(&self, got: u32) -> Result<u64, Refusal>
        ensures { result ≡ (if late (ahead got self.now.expected) then Err Refusal.Late else Ok (ahead got self.now.expected)) }
    {
        let gap = ahead(got, self.expected);
        if gap >= HALF {
            return Err(Refusal::Late);
        }
        Ok(u64::from(gap))
    }

    // The account after the frame numbered got, with so many more accepted and missing, and their tallies, if no limit is passed.
    #[tactic(auto, unfolding(crate::specs::definitions::Account::over))]
    fn grown(&self, got: u32, accepted: u64, missing: u64, t: Tallies) -> Option<Account>
        ensures { result ≡ (if over (grown self.now got accepted missing t) then None else Some (grown self.now got accepted missing t)) }
    {
        let accepted = sum_within(self.accepted, accepted, FRAME_LIMIT)?;
        let missing = sum_within(self.missing, missing, FRAME_LIMIT)?;
        let words = self.words.added(t)?;
        Some(Account {
            expected: got.wrapping_add(1),
            start: self.start,
            accepted,
            missing,
            words,
        })
    }

    // The account with a frame and its tallies entered. Refused: late, a limit is passed, the tallies are not of the words due to its number.
    #[tactic(auto, unfolding(crate::specs::definitions::Account::frame_entered))]
    fn with_frame(self, got: u32, t: Tallies) -> Result<Account, Refusal>
        ensures { entry_in self result ≡ frame_entered self got t }
    {
        let gap = self.gap(got)?;
        let grown = self.grown(got, 1, gap, t).ok_or(Refusal::Limit)?;
        let due = self.by_number(got, 0, NEXT_TALLIED, WORDS);
        if t.total() != u128::from(due) {
            return Err(Refusal::Tallies);
        }
        Ok(grown)
    }

    // The account with a loss entered, a frame without lock: it and the frames before it are missing. Refused: late, a limit is passed.
    #[tactic(auto, unfolding(crate::specs::definitions::Account::loss_entered))]
    fn with_loss(self, got: u32) -> Result<Account, Refusal>
        ensures { entry_in self result ≡ loss_entered self got }
    {
        let gap = self.gap(got)?;
        self.grown(got, 0, gap + 1, Tallies::NONE)
            .ok_or(Refusal::Limit)
    }

    // A frame entered in place. Refused, and nothing changed: late, a limit is passed, the tallies are not of the words due to its number.
    pub fn enter(&mut self, got: u32, t: Tallies) -> Result<(), Refusal>
        ensures { record { refusal = answer_of result; account = self.new } ≡ frame_entered self.old got t }
    {
        *self = self.with_frame(got, t)?;
        Ok(())
    }

    // A loss entered in place. Refused, and nothing changed: late, a limit is passed.
    pub fn lose(&mut self, got: u32) -> Result<(), Refusal>
        ensures { record { refusal = answer_of result; account = self.new } ≡ loss_entered self.old got }
    {
        *self = self.with_loss(got)?;
        Ok(())
    }

    // Whether the tallies are of the right total: all the words of the accepted frames but those that carry fill.
    fn right_total(&self) -> bool
        ensures { result ≡ right_total self.now }
    {
        self.words.total() + FILL == u128::from(WORDS) * u128::from(self.accepted)
    }

    // Whether what was asked, all of it and nothing else, was measured.
    #[tactic(auto, unfolding(crate::specs::definitions::Account::measured))]
    fn measured(&self, asked: u32) -> bool
        ensures { result ≡ measured asked self.now }
    {
        asked > 1 && self.accepted == u64::from(asked) && self.missing == 0 && self.right_total()
    }

    // The verdict on numbers, and on whether the run was stopped.
    #[tactic(auto, unfolding(crate::specs::definitions::Account::verdict))]
    pub fn verdict(&self, asked: u32, allowed: u32, stopped: bool) -> Verdict
        ensures { result ≡ verdict asked allowed self.now stopped }
    {
        if stopped || !self.measured(asked) {
            return Verdict::NotMeasured;
        }
        if self.words.flagged <= u64::from(allowed) {
            Verdict::Pass
        } else {
            Verdict::Fail
        }
    }
}

impl From<Verdict> for u32 {
    ghost from_gives = { λ v n. n ≡ verdict_number v };

    #[tactic(auto, unfolding(crate::specs::definitions::Account::verdict_number))]
    fn from(v: Verdict) -> u32 {
        v as u32
    }
}
