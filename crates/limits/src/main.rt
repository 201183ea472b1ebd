// The account at its limits, and what is due to a frame by its number: what each entry is answered, a line each. The file stdout has what must come.
#![tactic(auto)]

use account::{Account, Tallies};
use refusal::Refusal;
use std::{fmt, io};

// Half the way round.
const HALF: u32 = 1 << 31;

// The start number of the accounts at their limits: neither it nor the next number is entered there, so each frame is to bring 384 words.
const START: u32 = 2;

// An account that expects 0, and has counted nothing.
const FRESH: Account = Account {
    expected: 0,
    start: START,
    accepted: 0,
    missing: 0,
    words: Tallies::NONE,
};

// A frame or a loss entered: what was answered, and the account after it.
#[derive(Clone, Copy, Debug)]
struct Entry {
    answer: Result<(), Refusal>,
    account: Account,
}

impl Entry {
    // A frame numbered got, with these tallies.
    fn frame(mut account: Account, got: u32, t: Tallies) -> Entry {
        let answer = account.enter(got, t);
        Entry { answer, account }
    }

    // A loss numbered got.
    fn loss(mut account: Account, got: u32) -> Entry {
        let answer = account.lose(got);
        Entry { answer, account }
    }
}

// The answer's number, then the account's.
impl fmt::Display for Entry {
    fn fmt<W: fmt::Write>(&self, f: &mut fmt::Formatter<W>) -> fmt::Result {
        let answer = refusal::number(self.answer);
        let Account {
            expected,
            start,
            accepted,
            missing,
            words,
        } = self.account;
        let Tallies {
            clean,
            one,
            two,
            flagged,
        } = words;
        write!(
            f,
            "{answer} | {expected} {start} {accepted} {missing} | {clean} {one} {two} {flagged}"
        )
    }
}

fn tallies(clean: u64, one: u64, two: u64, flagged: u64) -> Tallies {
    Tallies {
        clean,
        one,
        two,
        flagged,
    }
}

// An account with so many frames accepted and missing.
fn counted(accepted: u64, missing: u64) -> Account {
    Account {
        accepted,
        missing,
        ..FRESH
    }
}

// An account that holds these tallies.
fn held(words: Tallies) -> Account {
    Account { words, ..FRESH }
}

// Entries below the line that says what they try.
fn group(rt: &impl Print, title: &str, entries: &[Entry]) -> io::Result<()> {
    println!(rt; "{title}")?;
    for entry in entries {
        println!(rt; "{entry}")?;
    }
    Ok(())
}

fn frames(rt: &impl Print) -> io::Result<()> {
    let whole = tallies(384, 0, 0, 0);
    let accepted = [
        Entry::frame(counted(999999, 0), 0, whole),
        Entry::frame(counted(1000000, 0), 0, whole),
    ];
    group(rt, "accepted up to 1,000,000", &accepted)?;
    let missing = [
        Entry::frame(counted(0, 1000000), 0, whole),
        Entry::frame(counted(0, 1000000), 1, whole),
        Entry::frame(FRESH, 1000000, whole),
        Entry::frame(FRESH, 1000001, whole),
    ];
    group(rt, "missing up to 1,000,000", &missing)?;
    let losses = [
        Entry::loss(FRESH, 999999),
        Entry::loss(FRESH, 1000000),
        Entry::loss(counted(1000001, 0), 0),
    ];
    group(rt, "a loss", &losses)
}

fn words(rt: &impl Print) -> io::Result<()> {
    let limits = [
        Entry::frame(held(tallies(383999616, 0, 0, 0)), 0, tallies(384, 0, 0, 0)),
        Entry::frame(held(tallies(383999617, 0, 0, 0)), 0, tallies(384, 0, 0, 0)),
        Entry::frame(held(tallies(0, 383999616, 0, 0)), 0, tallies(0, 384, 0, 0)),
        Entry::frame(held(tallies(0, 383999617, 0, 0)), 0, tallies(0, 384, 0, 0)),
        Entry::frame(held(tallies(0, 0, 383999616, 0)), 0, tallies(0, 0, 384, 0)),
        Entry::frame(held(tallies(0, 0, 383999617, 0)), 0, tallies(0, 0, 384, 0)),
        Entry::frame(held(tallies(0, 0, 0, 383999616)), 0, tallies(0, 0, 0, 384)),
        Entry::frame(held(tallies(0, 0, 0, 383999617)), 0, tallies(0, 0, 0, 384)),
        Entry::loss(held(tallies(0, 0, 384000001, 0)), 0),
    ];
    group(rt, "each tally up to 384,000,000", &limits)?;
    let sums = [
        Entry::frame(counted(u64::MAX, 0), 0, tallies(384, 0, 0, 0)),
        Entry::frame(held(tallies(0, u64::MAX, 0, 0)), 0, tallies(0, 1, 0, 383)),
        Entry::frame(FRESH, 0, tallies(u64::MAX, 385, 0, 0)),
    ];
    group(rt, "no sum wraps", &sums)
}

fn order(rt: &impl Print) -> io::Result<()> {
    let whole = tallies(384, 0, 0, 0);
    let refused = [
        Entry::frame(FRESH, HALF, whole),
        Entry::frame(FRESH, HALF - 1, whole),
        Entry::frame(FRESH, u32::MAX, Tallies::NONE),
        Entry::frame(counted(1000000, 0), u32::MAX, Tallies::NONE),
        Entry::frame(counted(1000000, 0), 0, Tallies::NONE),
        Entry::frame(FRESH, 0, tallies(383, 0, 0, 0)),
        Entry::frame(FRESH, 0, tallies(384, 1, 0, 0)),
        Entry::loss(counted(1000001, 0), u32::MAX),
    ];
    group(rt, "10 before 11, 11 before 12", &refused)
}

fn due(rt: &impl Print) -> io::Result<()> {
    // an order for frames from the last number on
    let opened = Account::opened(u32::MAX);
    let clean = [
        Entry::frame(opened, u32::MAX, Tallies::NONE),
        Entry::frame(opened, u32::MAX, tallies(1, 0, 0, 0)),
        Entry::frame(opened, u32::MAX, tallies(384, 0, 0, 0)),
        Entry::frame(opened, 0, tallies(320, 0, 0, 0)),
        Entry::frame(opened, 0, tallies(319, 0, 0, 0)),
        Entry::frame(opened, 0, tallies(321, 0, 0, 0)),
        Entry::frame(opened, 0, tallies(384, 0, 0, 0)),
        Entry::frame(opened, 1, tallies(384, 0, 0, 0)),
        Entry::frame(opened, 1, tallies(320, 0, 0, 0)),
        Entry::frame(opened, 1, Tallies::NONE),
    ];
    group(
        rt,
        "no words at the start number, 320 at the next one, 384 at all others",
        &clean,
    )?;
    let lost = Entry::loss(opened, u32::MAX).account;
    let numbered = [
        Entry::frame(lost, 0, tallies(0, 320, 0, 0)),
        Entry::frame(lost, 1, tallies(0, 0, 384, 0)),
        Entry::frame(FRESH, START, Tallies::NONE),
        Entry::frame(FRESH, START + 1, tallies(0, 0, 0, 320)),
        Entry::frame(FRESH, START + 2, tallies(0, 0, 0, 384)),
    ];
    group(
        rt,
        "by number, where the start frame was lost, and where the numbers come round",
        &numbered,
    )
}

fn main(rt: HostRuntime) -> io::Result<()> {
    frames(&rt)?;
    words(&rt)?;
    order(&rt)?;
    due(&rt)
}
