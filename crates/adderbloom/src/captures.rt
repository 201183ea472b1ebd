// A whole capture in memory: its report and its verdict, in one call each.
ghost use Rattle.std.specs.Prelude.{◌≡◌};
ghost use Rattle.account.specs.definitions.Account.{verdict_number};
ghost use Rattle.bench.specs.definitions.Run.{verdict_of};
ghost use Rattle.bench.specs.definitions.Walk.{examined};
ghost use Rattle.report.specs.definitions.Report.{written, written_bytes};

// The report of a capture, at the beginning of a lent buffer; the answer is how many bytes it takes. A buffer too small for it is not touched, and the answer
// is 0.
pub fn lr800_examine(capture: &[u8], text: &mut [u8]) -> usize
    ensures { (result ≡ written_bytes (examined capture.now) text.old)
        × (text.new ≡ written (examined capture.now) text.old) }
{
    report::report(bench::examine_capture(capture), text).unwrap_or(0)
}

// The verdict of a capture: 0 not measured, 1 PASS, 2 FAIL.
pub fn lr800_examine_verdict(capture: &[u8]) -> u32
    ensures { result ≡ verdict_number (verdict_of (examined capture.now)) }
{
    u32::from(bench::examine_capture(capture).verdict())
}
