//! All commands of the program, `run` and `run --image` among them.

ghost use Rattle.std.specs.Prelude.{◌≡◌, [], IfErr, IfOk, IfSome, OnOk, map, string_bytes};
ghost use Rattle.std.specs.Io.Buffered.{writer_buffer, writer_contents};
ghost use Rattle.std.specs.Io.KnownBytes.{Appends};
ghost use Rattle.r10_command.specs.Command.{AsksInput, AsksScript};
ghost use Rattle.r10_command.specs.Status.{EndsWithStatus, fault_status};
ghost use Rattle.r10_medium.specs.MemoryDisk.{memory_disk};
ghost use Rattle.r10_session.specs.Command.{DoesAny, IsSession, SessionLeaves, Sessions, TextCame, outcome_of};
ghost use Rattle.r10_script.specs.Session.{AreApart};
ghost use Rattle.r10_arguments.specs.Words.{AsksRun, AsksRunImage, AsksSession};

use crate::ended::Left;
use crate::fault::SessionFault;
use crate::losses::losses_asked;
use crate::running::run_script;
use crate::text::session_text;
use r10_arguments::{asks_run, asks_session};
use r10_body::Refusal;
use r10_command::{Fault, report};
use r10_images::{Outcome, read_whole, write_image};
use r10_medium::Memory;
use r10_script::{SessionScript, read_session};
use std::alloc::Global;
use std::io;
use std::io::{BufWriter, ErrorKind, Read, Write};
use std::sync::Wait;
use std::thread::Threads;

/// Runs the command that the words name, the program's own name first, and answers the exit status: 0, 1 where an audit says no, an
/// image refused it or a recording is faulty, 2 for wrong words or a wrong script, 3 for want of memory and for what can't be read
/// or written. A fault goes to `faults`, as one line; with 0 and 1 nothing goes there, and nothing is left in the writer's buffer.
/// With 2 nothing goes to the writer. The reader is called only where the words ask for a command that reads its input, and wrong
/// words are refused before that. Only a session starts threads and waits.
pub fn run<T: Threads + Wait + Sync, R: Read, W: Write + Drop, E: Write>(
    rt: &T,
    alloc: Global,
    words: &[String],
    reader: &mut R,
    writer: &mut BufWriter<W>,
    faults: &mut E,
) -> u8
    ensures does { EndsWithStatus result (DoesAny (map string_bytes words.now) (R.remaining reader.old)
        (writer_contents W.contents writer.old) (writer_contents W.contents writer.new)) }
    ensures sent { EndsWithStatus result (λ _. writer_buffer writer.new ≡ []) }
    ensures silent { EndsWithStatus result (λ _. faults.new ≡ faults.old) }
    ensures quiet { result ≡ 2 → writer.new ≡ writer.old }
    ensures unread { (AsksSession (map string_bytes words.now) → ⊥)
        → (AsksInput (map string_bytes words.now) → ⊥) → reader.new ≡ reader.old }
    ensures wrong { (AsksSession (map string_bytes words.now) → ⊥) → (AsksScript (map string_bytes words.now) → ⊥)
        → result ≡ 2 → reader.new ≡ reader.old }
{
    if !asks_session(words) {
        return r10_command::run(alloc, words, reader, writer, faults);
    }
    match perform(rt, alloc, words, reader, writer) {
        Ok(Outcome::Done) => 0,
        Ok(Outcome::Refused) => 1,
        Err(fault) => report(faults, &fault),
    }
}

/// Runs a session, and writes its lines or the image that it leaves, as the words ask.
fn perform<T: Threads + Wait + Sync, R: Read, W: Write + Drop>(
    rt: &T,
    alloc: Global,
    words: &[String],
    reader: &mut R,
    writer: &mut BufWriter<W>,
) -> Result<Outcome, Fault>
    requires asks { AsksSession (map string_bytes words.now) }
    ensures run { AsksRun (map string_bytes words.now) → IfOk result (λ outcome. IfSome (R.remaining reader.old)
        (λ text. Sessions text outcome (writer_contents W.contents writer.old) (writer_contents W.contents writer.new))) }
    ensures image { AsksRunImage (map string_bytes words.now) → IfOk result (λ outcome. IfSome (R.remaining reader.old)
        (λ text. SessionLeaves text outcome (writer_contents W.contents writer.old) (writer_contents W.contents writer.new))) }
    ensures sent { OnOk result (writer_buffer writer.new ≡ []) }
    ensures quiet { IfErr result (λ fault. fault_status fault ≡ 2 → writer.new ≡ writer.old) }
{
    if asks_run(words) {
        session(rt, alloc, reader, writer)
    } else {
        session_image(rt, alloc, reader, writer)
    }
}

/// The session script that the text spells.
fn session_script(alloc: Global, text: &[u8]) -> Result<SessionScript, Fault>
    ensures spelled { IfOk result (λ script. IsSession text.now script) }
    ensures apart { IfOk result (λ script. AreApart script.feeds.items) }
{
    match read_session(alloc, text) {
        Ok(script) => Ok(script),
        Err(fault) => Err(Fault::of_script(text, fault)),
    }
}

/// Reads a session script, and runs it on a recorder between threads, over a fresh medium in memory.
/// Beside what it left it gives of each feed whether it has losses among its items.
fn session_left<T: Threads + Wait + Sync, R: Read>(
    rt: &T,
    alloc: Global,
    reader: &mut R,
) -> Result<(Left, Vec<bool>), Fault>
    ensures { IfOk result (λ came. IfSome (R.remaining reader.old)
        (λ text. TextCame text came.1.items (memory_disk came.0.medium).blocks came.0.ended)) }
{
    let text = read_whole(alloc, reader)?;
    let script = session_script(alloc, text.as_slice())?;
    let asked = losses_asked(alloc, script.feeds.as_slice())?;
    match run_script(rt, alloc, script) {
        Ok(left) => Ok((left, asked)),
        Err(fault) => Err(fault_of(fault)),
    }
}

/// Runs the session script that is read, and writes the lines of what came of it. Refused is a session whose audit does not say
/// yes. The writer's buffer is flushed. Of a wrong script nothing is written.
fn session<T: Threads + Wait + Sync, R: Read, W: Write + Drop>(
    rt: &T,
    alloc: Global,
    reader: &mut R,
    writer: &mut BufWriter<W>,
) -> Result<Outcome, Fault>
    ensures ends { IfOk result (λ outcome. IfSome (R.remaining reader.old)
        (λ text. Sessions text outcome (writer_contents W.contents writer.old) (writer_contents W.contents writer.new))) }
    ensures sent { OnOk result (writer_buffer writer.new ≡ []) }
    ensures quiet { IfErr result (λ fault. fault_status fault ≡ 2 → writer.new ≡ writer.old) }
{
    let (left, asked) = session_left(rt, alloc, reader)?;
    let lines = session_text(alloc, asked.as_slice(), &left.ended)?;
    put(writer, lines.as_str())?;
    Ok(outcome(left.ended.audit))
}

/// The same, but the image of the medium that the session left is written in place of the lines, block by block.
fn session_image<T: Threads + Wait + Sync, R: Read, W: Write + Drop>(
    rt: &T,
    alloc: Global,
    reader: &mut R,
    writer: &mut BufWriter<W>,
) -> Result<Outcome, Fault>
    ensures leaves { IfOk result (λ outcome. IfSome (R.remaining reader.old)
        (λ text. SessionLeaves text outcome (writer_contents W.contents writer.old) (writer_contents W.contents writer.new))) }
    ensures sent { OnOk result (writer_buffer writer.new ≡ []) }
    ensures quiet { IfErr result (λ fault. fault_status fault ≡ 2 → writer.new ≡ writer.old) }
{
    let (left, _) = session_left(rt, alloc, reader)?;
    let Left { ended, mut medium } = left;
    write_image(&mut medium, writer)?;
    Ok(outcome(ended.audit))
}

/// What a fault of a session is as one of a command: memory was refused, or else the medium failed.
fn fault_of(fault: SessionFault) -> Fault {
    match fault {
        SessionFault::Memory(error) => Fault::Memory(error),
        SessionFault::Refused(_) => Fault::Read(io::Error::from(ErrorKind::Other)),
    }
}

/// Whether a session is done, by the answer of its audit.
fn outcome(audit: Result<bool, Refusal>) -> Outcome
    ensures { result ≡ outcome_of audit }
{
    match audit {
        Ok(true) => Outcome::Done,
        Ok(false) => Outcome::Refused,
        Err(_) => Outcome::Refused,
    }
}

fn put<W: Write + Drop>(writer: &mut BufWriter<W>, text: &str) -> Result<(), Fault>
    ensures text { OnOk result (Appends (writer_contents W.contents writer.old) (writer_contents W.contents writer.new) text.now) }
    ensures sent { OnOk result (writer_buffer writer.new ≡ []) }
    ensures status { IfErr result (λ fault. fault_status fault ≡ 3) }
{
    writer.write_all(text.as_bytes()).map_err(Fault::Write)?;
    writer.flush().map_err(Fault::Write)
}
