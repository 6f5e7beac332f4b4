//! What the words of the command line ask for.

ghost use Rattle.std.specs.Prelude.{◌≡◌, [], IfErr, IfOk, OnOk, map, string_bytes};
ghost use Rattle.std.specs.Io.KnownBytes.{Appends};
ghost use Rattle.std.specs.Io.Buffered.{writer_buffer, writer_contents};
ghost use Rattle.r10_command.specs.Command.{AsksInput, AsksScript, DoesCommand, selected};
ghost use Rattle.r10_command.specs.Status.{fault_status, EndsWithStatus, IsFailure};
ghost use Rattle.r10_command.specs.Written.{WritesFormatted};

use crate::fault::Fault;
use crate::image::sim_image;
use crate::play::sim;
use r10_arguments::{Asked, FormatWords, PlayWords, WordsFault, read_words};
use r10_images::{Outcome, check_format, list_files, write_formatted};
use r10_playback::{Selection, check_input, play_input};
use std::alloc::Global;
use std::io::{BufWriter, Read, Write};

/// Runs the command that the words name, the program's own name first, and answers the exit status: 0, 1 where an image
/// refused it or a recording is faulty, 2 for wrong words or a wrong script, 3 for want of memory and for what can't be read or
/// written. A fault goes to `faults`, as one line; with 0 and 1 nothing goes there, and nothing is left in the writer's buffer: a
/// flush that fails is a write that failed. With 2 nothing goes to the writer. The reader is called only where the words ask for a
/// command that reads its input, and wrong words are refused before that.
pub fn run<R: Read, W: Write + Drop, E: Write>(
    alloc: Global,
    words: &[String],
    reader: &mut R,
    writer: &mut BufWriter<W>,
    faults: &mut E,
) -> u8
    ensures does { EndsWithStatus result (DoesCommand (map string_bytes words.now) (R.remaining reader.old)
        (writer_contents W.contents writer.old) (writer_contents W.contents writer.new)) }
    ensures sent { EndsWithStatus result (λ _. writer_buffer writer.new ≡ []) }
    ensures silent { EndsWithStatus result (λ _. faults.new ≡ faults.old) }
    ensures quiet { result ≡ 2 → writer.new ≡ writer.old }
    ensures unread { (AsksInput (map string_bytes words.now) → ⊥) → reader.new ≡ reader.old }
    ensures wrong { (AsksScript (map string_bytes words.now) → ⊥) → result ≡ 2 → reader.new ≡ reader.old }
{
    match perform(alloc, words, reader, writer) {
        Ok(Outcome::Done) => 0,
        Ok(Outcome::Refused) => 1,
        Err(fault) => report(faults, &fault),
    }
}

/// Says the fault in one line, and answers its status. Where even this can't be written the status says it.
pub fn report<E: Write>(faults: &mut E, fault: &Fault) -> u8
    ensures value { result ≡ fault_status fault.now }
    ensures range { IsFailure result }
{
    let _ = writeln!(faults, "r10: {fault}");
    fault.status()
}

fn perform<R: Read, W: Write + Drop>(
    alloc: Global,
    words: &[String],
    reader: &mut R,
    writer: &mut BufWriter<W>,
) -> Result<Outcome, Fault>
    ensures does { IfOk result (DoesCommand (map string_bytes words.now) (R.remaining reader.old)
        (writer_contents W.contents writer.old) (writer_contents W.contents writer.new)) }
    ensures sent { OnOk result (writer_buffer writer.new ≡ []) }
    ensures quiet { IfErr result (λ fault. fault_status fault ≡ 2 → writer.new ≡ writer.old) }
    ensures unread { (AsksInput (map string_bytes words.now) → ⊥) → reader.new ≡ reader.old }
    ensures wrong { (AsksScript (map string_bytes words.now) → ⊥)
        → IfErr result (λ fault. fault_status fault ≡ 2 → reader.new ≡ reader.old) }
{
    match read_words(alloc, words) {
        Ok(Asked::Sim) => {
            sim(alloc, reader, writer)?;
            Ok(Outcome::Done)
        }
        Ok(Asked::Image) => {
            sim_image(alloc, reader, writer)?;
            Ok(Outcome::Done)
        }
        Ok(Asked::Files) => Ok(list_files(alloc, reader, writer)?),
        Ok(Asked::Check) => Ok(check_input(alloc, reader, writer)?),
        Ok(Asked::Play(play)) => Ok(play_input(alloc, &selection(&play), reader, writer)?),
        Ok(Asked::Format(format)) => {
            write_medium(&format, writer)?;
            Ok(Outcome::Done)
        }
        Ok(Asked::Text(text)) => {
            print_text(writer, text.as_str())?;
            Ok(Outcome::Done)
        }
        Err(WordsFault::Memory(error)) => Err(Fault::Memory(error)),
        Err(WordsFault::Wrong(line)) => Err(Fault::Usage(line)),
    }
}

/// The entries that the words ask for.
fn selection(play: &PlayWords) -> Selection
    ensures { result ≡ selected play.now }
{
    Selection {
        file: play.file,
        channel: play.channel,
        from: play.from,
        to: play.to,
    }
}

/// Writes the image of a medium that is formatted so, if it may be.
fn write_medium<W: Write + Drop>(
    format: &FormatWords,
    writer: &mut BufWriter<W>,
) -> Result<(), Fault>
    ensures image { OnOk result
        (WritesFormatted format.now (writer_contents W.contents writer.old) (writer_contents W.contents writer.new)) }
    ensures sent { OnOk result (writer_buffer writer.new ≡ []) }
    ensures quiet { IfErr result (λ fault. fault_status fault ≡ 2 → writer.new ≡ writer.old) }
{
    let (blocks, directory) = (format.blocks, format.directory);
    let volume = format.volume.as_bytes();
    if let Err(limit) = check_format(blocks, directory, volume) {
        return Err(Fault::Limit(limit));
    }
    write_formatted(blocks, directory, volume, writer)?;
    Ok(())
}

fn print_text<W: Write + Drop>(writer: &mut BufWriter<W>, text: &str) -> Result<(), Fault>
    ensures text { OnOk result (Appends (writer_contents W.contents writer.old) (writer_contents W.contents writer.new) text.now) }
    ensures sent { OnOk result (writer_buffer writer.new ≡ []) }
    ensures status { IfErr result (λ fault. fault_status fault ≡ 3) }
{
    writer.write_all(text.as_bytes()).map_err(Fault::Write)?;
    writer.flush().map_err(Fault::Write)
}
