// The program: a capture on standard input, its report on standard output. It holds one record at a time. A read or a write that fails is told on standard
// error.
#![tactic(auto)]

ghost use Rattle.std.specs.Prelude.{◌≡◌, false, List, [], ◌++◌, ℕ, ◌+◌, ◌<◌, ◌≤◌, length, take, is_some, IsNone, IfNone, IfOk, IfSome, OnOk, OnErr};
ghost use Rattle.std.specs.Io.KnownBytes.{Appends, Consumes, IsAtEnd};
ghost use Rattle.bits.specs.definitions.Bits.{AllBytes};
ghost use Rattle.capture.specs.definitions.Capture.{wanted};
ghost use Rattle.bench.specs.definitions.Run.{stepped, is_stopped};
ghost use Rattle.bench.specs.definitions.Walk.{examined, followed};
ghost use Rattle.report.specs.definitions.Report.{text};

use bench::Run;
use std::fmt::InlineText;
use std::io;
use std::io::{Read, Write};

// The system's number of an interrupted call.
const INTERRUPTED: i32 = 4;

// Fills a buffer, or as much of it as is left of the input, and answers how much that is. Where the bytes that a reader has are known, as of one over memory,
// it is those that stand there, and less than the whole buffer only at their end; where a read fails, some of them came before.
#[tactic(auto, using(crate::proofs::Known::part_given))]
fn fill<R: Read>(reader: &mut R, buffer: &mut [u8]) -> io::Result<usize>
    ensures within { IfOk result (λ n. n ≤ length buffer.new) }
    ensures given { IfOk result (λ n. Consumes (R.remaining reader.old) (R.remaining reader.new) (take n buffer.new)) }
    ensures ended { IfOk result (λ n. n < length buffer.new → IsAtEnd (R.remaining reader.new)) }
    ensures broken { OnErr result ((t : List ℕ) × Consumes (R.remaining reader.old) (R.remaining reader.new) t) }
{
    let mut filled = 0;
    while filled < buffer.len() {
        let n = reader.read(&mut buffer[filled..])?;
        if n == 0 {
            break;
        }
        filled += n;
    }
    Ok(filled)
}

// The next record, read into a buffer: its length, then as many bytes as that asks for, or what is left of the input. At the end of the input it is empty.
#[tactic(auto, using(crate::proofs::Buffer::wanted_least, crate::proofs::Buffer::wanted_most))]
fn next_piece<'b, R: Read>(
    reader: &mut R,
    buffer: &'b mut [u8; capture::FRAME_BYTES],
) -> io::Result<&'b [u8]>
    ensures within { IfOk result (λ piece. length piece.now ≤ wanted piece.now) }
    ensures given { IfOk result (λ piece. Consumes (R.remaining reader.old) (R.remaining reader.new) piece.now) }
    ensures ended { IfOk result (λ piece. length piece.now < wanted piece.now → IsAtEnd (R.remaining reader.new)) }
    ensures broken { OnErr result ((t : List ℕ) × Consumes (R.remaining reader.old) (R.remaining reader.new) t) }
{
    let first = capture::wanted(&[]);
    let head = fill(reader, &mut buffer[..first])?;
    if head < first {
        return Ok(&buffer[..head]);
    }
    let all = capture::wanted(&buffer[..first]);
    let tail = fill(reader, &mut buffer[first..all])?;
    Ok(&buffer[..first + tail])
}

// A step over a piece, which is of bytes. Why one is refused nobody asks here: the run is stopped.
fn step(run: &mut Run, piece: &[u8])
    ensures changed { run.new ≡ stepped run.old piece.now }
    ensures bytes { AllBytes piece.now }
{
    let _ = run.step(piece);
}

// What an input came to: a run, and the error of the read that failed, if one did.
#[derive(Drop)]
struct Came {
    run: Run,
    error: Option<io::Error>,
}

// The input followed record by record, to its end, to what stops the run, or to a read that fails, which stops it too. Where the bytes that a reader has are
// known, those that it gave are the records followed and, if a read failed, what had come of one more; a run that nothing stopped came to their end, and if no
// read failed the run is that of them all. What the system's input has no contract can say, but the code is one for all readers.
fn follow<R: Read>(reader: &mut R) -> Came
    ensures came { (s t : List ℕ) × AllBytes s × (result.run ≡ followed s (is_some result.error))
        × Consumes (R.remaining reader.old) (R.remaining reader.new) (s ++ t) × (IsNone result.error → t ≡ []) }
    ensures ended { is_stopped result.run.phase ≡ false → IsAtEnd (R.remaining reader.new) }
    ensures whole { IsNone result.error → IfSome (R.remaining reader.old) (λ xs. result.run ≡ examined xs) }
{
    let mut buffer = [0u8; capture::FRAME_BYTES];
    let mut run = Run::begun();
    while !run.is_stopped() {
        match next_piece(reader, &mut buffer) {
            Ok([]) => break,
            Ok(piece) => step(&mut run, piece),
            Err(error) => {
                run.stop();
                return Came {
                    run,
                    error: Some(error),
                };
            }
        }
    }
    Came { run, error: None }
}

// The report of a run, in a buffer that holds every one.
fn render(run: Run, out: &mut [u8; report::LONGEST]) -> &[u8]
    ensures { result.now ≡ text run }
{
    let n = report::report(run, out).unwrap();
    &out[..n]
}

// Writes all of some bytes, unless a write fails. One that is interrupted is tried again, and after one try for each byte and 64 more it has failed: the
// library's own `write_all` would try 2^64 times.
fn write_whole<W: Write>(writer: &mut W, bytes: &[u8]) -> io::Result<()>
    ensures { OnOk result (Appends (W.contents writer.old) (W.contents writer.new) bytes.now) }
{
    let mut rest = bytes;
    for _ in 0..bytes.len().saturating_add(64) {
        if rest.is_empty() {
            break;
        }
        match writer.write(rest) {
            Ok(0) => {
                let message = "failed to write whole buffer";
                return Err(io::Error::new(io::ErrorKind::WriteZero, message));
            }
            Ok(n) => rest = &rest[n..],
            Err(error) if error.kind() == io::ErrorKind::Interrupted => {}
            Err(error) => return Err(error),
        }
    }
    if rest.is_empty() {
        Ok(())
    } else {
        Err(io::Error::from_raw_os_error(INTERRUPTED))
    }
}

// Writes a report. Where what a writer holds is known, as of one into memory, the whole report now stands behind that, unless a write failed.
fn print<W: Write>(writer: &mut W, run: Run) -> io::Result<()>
    ensures { OnOk result (Appends (W.contents writer.old) (W.contents writer.new) (text run)) }
{
    let mut out = [0u8; report::LONGEST];
    write_whole(writer, render(run, &mut out))
}

// Tells on standard error what failed and why, in the system's words: without the number that an `io::Error` prints behind them.
fn tell(rt: &impl Eprint, what: &str, error: io::Error) {
    let text = InlineText::<128>::of(error);
    let why = text.as_str();
    let words = why
        .split_once(" (os error ")
        .map_or(why, |(before, _)| before);
    let _ = eprintln!(rt; "examine: {what}: {words}");
}

fn main(rt: HostRuntime) {
    let came = follow(&mut rt.stdin());
    if let Some(error) = came.error {
        tell(&rt, "the input cannot be read", error);
    }
    if let Err(error) = print(&mut rt.stdout(), came.run) {
        tell(&rt, "the report cannot be written", error);
    }
}
