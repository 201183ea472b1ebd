// A whole run lent by a host: a capture record by record, the verdict and the report.
ghost use Rattle.std.specs.Prelude.{◌≡◌};
ghost use Rattle.account.specs.definitions.Account.{verdict_number};
ghost use Rattle.bench.specs.definitions.Run.{begun, stopped, verdict_of};
ghost use Rattle.report.specs.definitions.Report.{written, written_bytes};
ghost use Rattle.adderbloom.specs.definitions.Run.{run_of, kept_run, step_answer};

// A run before its first record, in place of the one lent.
#[unsafe(no_mangle)]
pub extern "C" fn lr800_run_open(r: &mut adderbloom::runs::Run)
    ensures { r.new ≡ kept_run begun }
{
    adderbloom::runs::lr800_run_open(r);
}

// One record's bytes, and what they change of the run. Refused, which stops the run: 6 to 9 the record, 10 and 11 its entry, 22 more than one record.
#[unsafe(no_mangle)]
pub extern "C" fn lr800_run_step(r: &mut adderbloom::runs::Run, piece: &[u8]) -> u32
    ensures { record { refusal = result; run = r.new } ≡ step_answer r.old piece.now }
{
    adderbloom::runs::lr800_run_step(r, piece)
}

// The run stopped, as by a read that failed: its figures and its account stay.
#[unsafe(no_mangle)]
pub extern "C" fn lr800_run_stop(r: &mut adderbloom::runs::Run)
    ensures { r.new ≡ kept_run (stopped (run_of r.old)) }
{
    adderbloom::runs::lr800_run_stop(r);
}

// The verdict of a run: 0 not measured, 1 PASS, 2 FAIL.
#[unsafe(no_mangle)]
pub extern "C" fn lr800_run_verdict(r: adderbloom::runs::Run) -> u32
    ensures { result ≡ verdict_number (verdict_of (run_of r)) }
{
    adderbloom::runs::lr800_run_verdict(r)
}

// The report of a run, at the beginning of a lent buffer; the answer is how many bytes it takes. A buffer too small for it is not touched, and the answer is 0.
#[unsafe(no_mangle)]
pub extern "C" fn lr800_run_report(r: adderbloom::runs::Run, text: &mut [u8]) -> usize
    ensures { (result ≡ written_bytes (run_of r) text.old) × (text.new ≡ written (run_of r) text.old) }
{
    adderbloom::runs::lr800_run_report(r, text)
}
