// The run of a capture, record by record.
#![tactic(auto)]

ghost use Rattle.std.specs.Prelude.{◌≡◌, length};
ghost use Rattle.refusal.specs.definitions.Refusal.{answer_of};
ghost use Rattle.capture.specs.definitions.Read.{read_in};
ghost use Rattle.bench.specs.definitions.Run.{begun, stopped, is_stopped, entry_of, refusal_of, came_as, stepped, step_refusal, verdict_of};
ghost use Rattle.bench.specs.definitions.Walk.{examined};
ghost use Rattle.bench.specs.private.Frame.{SymbolsThere};

use account::{Account, Verdict};
use capture::Record;
use refusal::Refusal;

// No order yet; going on; stopped by a refusal, a second order, a frame before any order or a read that failed.
#[derive(Clone, Copy, Debug, PartialEq, Eq)]
pub enum Phase {
    Unordered,
    Going,
    Stopped,
}

// What a run holds: where it stands, the order's figures and the account.
#[derive(Clone, Copy, Debug, PartialEq, Eq)]
pub struct Run {
    pub phase: Phase,
    pub asked: u32,
    pub allowed: u32,
    pub account: Account,
}

// A frame entered with the tallies of its flags, or, without lock, as a loss.
fn enter_frame(account: &mut Account, got: u32, symbols: &[u8]) -> Result<(), Refusal>
    requires { length symbols.now ≡ 6144 }
    ensures { record { refusal = answer_of result; account = account.new } ≡ entry_of account.old got symbols.now }
{
    let mut words = [0u64; 768];
    let mut flags = [0u8; 384];
    match framing::receive_words(symbols, &mut words, &mut flags) {
        Ok(()) => {
            let tallies = account.tallies_of(got, &flags);
            account.enter(got, tallies)
        }
        Err(_) => account.lose(got),
    }
}

impl Run {
    // The run before its first record.
    pub fn begun() -> Run
        ensures { result ≡ begun }
    {
        Run {
            phase: Phase::Unordered,
            asked: 0,
            allowed: 0,
            account: Account::opened(0),
        }
    }

    // Stops the run: its figures and its account stay.
    pub fn stop(&mut self)
        ensures { self.new ≡ stopped self.old }
    {
        self.phase = Phase::Stopped;
    }

    // Whether it is stopped.
    #[tactic(auto, unfolding(crate::specs::definitions::Run::is_stopped))]
    pub fn is_stopped(&self) -> bool
        ensures { result ≡ is_stopped self.now.phase }
    {
        self.phase == Phase::Stopped
    }

    // What was read in some bytes, and what it changes of the run: the first order opens the account, and a frame is entered. A refusal, a second order and a
    // frame before any order stop the run, and a run that is stopped changes no more.
    #[tactic(auto, using(crate::proofs::Coming::coming))]
    fn came(&mut self, read: Result<Option<Record>, Refusal>, bytes: &[u8]) -> Result<(), Refusal>
        requires { SymbolsThere (read_in read) bytes.now }
        ensures refusal { answer_of result ≡ refusal_of (read_in read) self.old bytes.now }
        ensures run { self.new ≡ came_as (read_in read) self.old bytes.now }
    {
        match (self.phase, read) {
            (Phase::Stopped, _) | (_, Ok(None)) => Ok(()),
            (_, Err(refusal)) => {
                self.stop();
                Err(refusal)
            }
            (
                Phase::Unordered,
                Ok(
                    Some(
                        Record::Order {
                            start,
                            asked,
                            allowed,
                            ..
                        },
                    ),
                ),
            ) => {
                *self = Run {
                    phase: Phase::Going,
                    asked,
                    allowed,
                    account: Account::opened(start),
                };
                Ok(())
            }
            (Phase::Going, Ok(Some(Record::Frame { number, from, .. }))) => {
                let symbols = capture::symbols_at(bytes, from);
                let entered = enter_frame(&mut self.account, number, symbols);
                if entered.is_err() {
                    self.stop();
                }
                entered
            }
            // a frame before any order, or a second order
            (Phase::Unordered | Phase::Going, Ok(Some(_))) => {
                self.stop();
                Ok(())
            }
        }
    }

    // One record's bytes alone, and what they change. No bytes change nothing; what else is no single record only stops the run, and a run that is stopped
    // changes no more. The refusal is the one by which the record stopped the run.
    #[tactic(auto, unfolding(crate::specs::definitions::Run::stepped, crate::specs::definitions::Run::step_refusal))]
    pub fn step(&mut self, piece: &[u8]) -> Result<(), Refusal>
        ensures refusal { answer_of result ≡ step_refusal self.old piece.now }
        ensures run { self.new ≡ stepped self.old piece.now }
    {
        self.came(capture::read_one(piece), piece)
    }

    // The verdict of a run.
    #[tactic(auto, unfolding(crate::specs::definitions::Run::verdict_of, crate::specs::definitions::Run::goes_on))]
    pub fn verdict(&self) -> Verdict
        ensures { result ≡ verdict_of self.now }
    {
        let going = self.phase == Phase::Going;
        self.account.verdict(self.asked, self.allowed, !going)
    }
}

// A whole capture, record by record. At a refused record the place stays, and the run is stopped.
pub fn examine_capture(capture: &[u8]) -> Run
    ensures { result ≡ examined capture.now }
{
    let mut run = Run::begun();
    let mut place = 0;
    loop {
        let read = capture::read_at(capture, place);
        let _ = run.came(read, capture);
        let next = capture::next_place(read, place);
        if next <= place {
            return run;
        }
        place = next;
    }
}
