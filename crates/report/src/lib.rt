// The report of a run as text: each line is written behind the one before it.
#![tactic(auto)]

ghost use Rattle.std.specs.Prelude.{◌≡◌, ◌++◌, ◌+◌, ◌≤◌, if◌then◌else◌, nat_le, Some, None, length};
ghost use Rattle.account.specs.declared.Verdict.{Verdict};
ghost use Rattle.report.specs.definitions.Report.{line, verdict_name, text, written, longest};

use arrayvec::ArrayVec;

// Room for every report.
pub const LONGEST: usize = 213;

// Bytes behind what was written. One by one: the library's copy of a part calls C's `memmove`, which no host is told to have.
fn put(report: &mut ArrayVec<u8, LONGEST>, text: &[u8])
    requires { length report.old.items + length text.now ≤ longest }
    ensures { report.new.items ≡ report.old.items ++ text.now }
{
    for byte in text {
        report.push(*byte);
    }
}

// A line of figures, behind what was written: its name, a number, the line's end. It has at most 21 bytes besides the name.
fn put_line<const N: usize>(report: &mut ArrayVec<u8, LONGEST>, name: &[u8; N], n: u64)
    requires { length report.old.items + N + 21 ≤ longest }
    ensures items { report.new.items ≡ report.old.items ++ line name.now n }
    ensures upper_bound { length report.new.items ≤ length report.old.items + N + 21 }
{
    put(report, name);
    put(report, itoa::Buffer::new().format(n).as_bytes());
    report.push(b'\n');
}

// A verdict in words.
fn verdict_name(verdict: account::Verdict) -> &'static str
    ensures name { result.now ≡ verdict_name verdict }
    ensures short { length result.now ≤ 12 }
{
    match verdict {
        account::Verdict::NotMeasured => "NOT MEASURED",
        account::Verdict::Pass => "PASS",
        account::Verdict::Fail => "FAIL",
    }
}

// The whole report.
fn text(run: bench::Run) -> ArrayVec<u8, LONGEST>
    ensures { result.items ≡ text run }
{
    let account = run.account;
    let words = account.words;
    let mut report = ArrayVec::new();
    put_line(&mut report, b"asked ", u64::from(run.asked));
    put_line(&mut report, b"accepted ", account.accepted);
    put_line(&mut report, b"missing ", account.missing);
    put_line(&mut report, b"clean ", words.clean);
    put_line(&mut report, b"one ", words.one);
    put_line(&mut report, b"two ", words.two);
    put_line(&mut report, b"flagged ", words.flagged);
    put(&mut report, b"verdict ");
    put(&mut report, verdict_name(run.verdict()).as_bytes());
    report.push(b'\n');
    report
}

// The report of a run, at the beginning of a lent buffer; the answer is how many bytes it takes. A buffer too small for it is not touched, and there is none.
pub fn report(run: bench::Run, out: &mut [u8]) -> Option<usize>
    ensures taken { result ≡ (if nat_le (length (text run)) (length out.old) then Some (length (text run)) else None) }
    ensures written { out.new ≡ written run out.old }
{
    let report = text(run);
    let bytes = report.as_slice();
    if out.len() < bytes.len() {
        return None;
    }
    out[..bytes.len()].copy_from_slice(bytes);
    Some(bytes.len())
}
