//! The verdict on an input.

ghost use Rattle.std.specs.Prelude.{◌≡◌, ◌<◌, [], ℕ, List, length, IfErr, IfOk, IfSome, IsOk, OnOk};
ghost use Rattle.std.specs.Io.Buffered.{writer_buffer, writer_contents};
ghost use Rattle.r10_checker.specs.Verdict.{IsVerdict};
ghost use Rattle.r10_images.specs.Faults.{IsInputFault, IsLineFault, IsListFault};
ghost use Rattle.r10_windowcheck.specs.Given.{WasGivenAll};
ghost use Rattle.r10_playback.specs.Checked.{verdict_outcome, PrintsVerdict, Checks};

use crate::words::verdict_line;
use r10_checker::Verdict;
use r10_images::{Outcome, StreamFault};
use r10_windowcheck::WindowCheck;
use std::alloc::{AllocError, Global};
use std::io::{BufWriter, ErrorKind, Read, Write};

/// How many bytes are asked for at once.
const WINDOW: usize = 1 << 20;

/// How often the reader is called at most.
const MOST_CALLS: u64 = 1 << 34;

/// Reads a recording, and writes the line of its verdict: `strict`, `lenient OPAQUE` or `faulty OFFSET FAULT`. A faulty one is
/// refused. The recording is read in windows of a megabyte, and the writer's buffer is flushed.
pub fn check_input<R: Read, W: Write + Drop>(
    alloc: Global,
    reader: &mut R,
    writer: &mut BufWriter<W>,
) -> Result<Outcome, StreamFault>
    ensures checks { IfOk result (λ outcome. IfSome (R.remaining reader.old)
        (λ bytes. Checks bytes outcome (writer_contents W.contents writer.old) (writer_contents W.contents writer.new))) }
    ensures sent { OnOk result (writer_buffer writer.new ≡ []) }
    ensures fault { IfErr result IsListFault }
{
    let verdict = input_verdict(alloc, reader)?;
    let outcome = write_verdict(alloc, verdict, writer)?;
    writer.flush().map_err(StreamFault::Write)?;
    Ok(outcome)
}

/// The verdict on every byte that the reader has left.
fn input_verdict<R: Read>(alloc: Global, reader: &mut R) -> Result<Verdict, StreamFault>
    ensures verdict { IfOk result (λ verdict. IfSome (R.remaining reader.old) (λ bytes. IsVerdict bytes verdict)) }
    ensures fault { IfErr result IsInputFault }
{
    let mut piece: Vec<u8> = Vec::new(alloc);
    if piece.resize(WINDOW, 0).is_err() {
        return Err(StreamFault::Memory(AllocError));
    }
    verdict_through(alloc, reader, &mut piece)
}

/// The same, read through a window. A call that was interrupted is made again; `Read` is any other failure of the reader, and
/// `Endless` comes where the reader was called 2^34 times.
fn verdict_through<R: Read>(
    alloc: Global,
    reader: &mut R,
    piece: &mut [u8],
) -> Result<Verdict, StreamFault>
    requires { 0 < length piece.old }
    ensures verdict { IfOk result (λ verdict. IfSome (R.remaining reader.old) (λ bytes. IsVerdict bytes verdict)) }
    ensures fault { IfErr result IsInputFault }
{
    let mut check = WindowCheck::new(alloc);
    let mut calls = 0;
    while calls < MOST_CALLS {
        calls += 1;
        match reader.read(piece) {
            Ok(0) => return ended(check),
            Ok(count) => {
                check = match check.feed(&piece[..count]) {
                    Ok(check) => check,
                    Err(error) => return Err(StreamFault::Memory(error)),
                };
            }
            Err(error) => {
                if error.kind() != ErrorKind::Interrupted {
                    return Err(StreamFault::Read(error));
                }
            }
        }
    }
    Err(StreamFault::Endless { calls })
}

/// The verdict on a file that ends here.
fn ended(check: WindowCheck) -> Result<Verdict, StreamFault>
    ensures verdict { IfOk result (λ verdict. (file : List ℕ) → WasGivenAll check file → IsVerdict file verdict) }
    ensures never_fails { IsOk result }
{
    Ok(check.verdict())
}

/// Writes the line of a verdict.
fn write_verdict<W: Write>(
    alloc: Global,
    verdict: Verdict,
    writer: &mut W,
) -> Result<Outcome, StreamFault>
    ensures checks { IfOk result (λ outcome. PrintsVerdict verdict outcome (W.contents writer.old) (W.contents writer.new)) }
    ensures fault { IfErr result IsLineFault }
{
    let Ok(line) = verdict_line(alloc, verdict) else {
        return Err(StreamFault::Memory(AllocError));
    };
    writer
        .write_all(line.as_bytes())
        .map_err(StreamFault::Write)?;
    Ok(outcome_of(verdict))
}

fn outcome_of(verdict: Verdict) -> Outcome
    ensures { result ≡ verdict_outcome verdict }
{
    match verdict {
        Verdict::Strict | Verdict::Lenient { .. } => Outcome::Done,
        Verdict::Faulty { .. } => Outcome::Refused,
    }
}
