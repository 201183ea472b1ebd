// A whole run lent by a host: a capture record by record, the verdict and the report.
ghost use Rattle.std.specs.Prelude.{◌≡◌};
ghost use Rattle.account.specs.definitions.Account.{verdict_number};
ghost use Rattle.bench.specs.definitions.Run.{begun, stopped, verdict_of};
ghost use Rattle.report.specs.definitions.Report.{written, written_bytes};
ghost use Rattle.adderbloom.specs.definitions.Run.{phase_number, phase_of, run_of, kept_run, step_answer};

use account::Account;
use bench::Phase;

// A run as a host keeps it: the phase by its number, the order's figures and the account.
#[repr(C)]
#[derive(Clone, Copy, Debug, PartialEq, Eq)]
pub struct Run {
    pub phase: u32,
    pub asked: u32,
    pub allowed: u32,
    pub account: Account,
}

// The phase's number.
#[tactic(auto, unfolding(crate::specs::definitions::Run::phase_number))]
fn phase_number(phase: Phase) -> u32
    ensures { result ≡ phase_number phase }
{
    match phase {
        Phase::Unordered => 0,
        Phase::Going => 1,
        Phase::Stopped => 2,
    }
}

// The phase by its number: any number above 1 says stopped.
#[tactic(auto, unfolding(crate::specs::definitions::Run::phase_of))]
fn phase_of(number: u32) -> Phase
    ensures { result ≡ phase_of number }
{
    match number {
        0 => Phase::Unordered,
        1 => Phase::Going,
        _ => Phase::Stopped,
    }
}

impl From<Run> for bench::Run {
    ghost from_gives = { λ kept run. run ≡ run_of kept };

    fn from(kept: Run) -> bench::Run {
        bench::Run {
            phase: phase_of(kept.phase),
            asked: kept.asked,
            allowed: kept.allowed,
            account: kept.account,
        }
    }
}

impl From<bench::Run> for Run {
    ghost from_gives = { λ run kept. kept ≡ kept_run run };

    fn from(run: bench::Run) -> Run {
        Run {
            phase: phase_number(run.phase),
            asked: run.asked,
            allowed: run.allowed,
            account: run.account,
        }
    }
}

// A run before its first record, in place of the one lent.
pub fn lr800_run_open(r: &mut Run)
    ensures { r.new ≡ kept_run begun }
{
    *r = Run::from(bench::Run::begun());
}

// One record's bytes, and what they change of the run. Refused, which stops the run: 6 to 9 the record, 10 and 11 its entry, 22 more than one record.
pub fn lr800_run_step(r: &mut Run, piece: &[u8]) -> u32
    ensures { record { refusal = result; run = r.new } ≡ step_answer r.old piece.now }
{
    let mut run = bench::Run::from(*r);
    let answer = run.step(piece);
    *r = Run::from(run);
    refusal::number(answer)
}

// The run stopped, as by a read that failed: its figures and its account stay.
pub fn lr800_run_stop(r: &mut Run)
    ensures { r.new ≡ kept_run (stopped (run_of r.old)) }
{
    let mut run = bench::Run::from(*r);
    run.stop();
    *r = Run::from(run);
}

// The verdict of a run: 0 not measured, 1 PASS, 2 FAIL.
pub fn lr800_run_verdict(r: Run) -> u32
    ensures { result ≡ verdict_number (verdict_of (run_of r)) }
{
    u32::from(bench::Run::from(r).verdict())
}

// The report of a run, at the beginning of a lent buffer; the answer is how many bytes it takes. A buffer too small for it is not touched, and the answer is 0.
pub fn lr800_run_report(r: Run, text: &mut [u8]) -> usize
    ensures { (result ≡ written_bytes (run_of r) text.old) × (text.new ≡ written (run_of r) text.old) }
{
    report::report(bench::Run::from(r), text).unwrap_or(0)
}
