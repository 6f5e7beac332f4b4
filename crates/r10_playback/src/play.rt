//! The entries of an image's file.

ghost use Rattle.std.specs.Prelude.{◌≡◌, [], IfErr, IfOk, IfSome, OnOk};
ghost use Rattle.std.specs.Io.Buffered.{writer_buffer, writer_contents};
ghost use Rattle.r10_medium.specs.Disk.{Rose};
ghost use Rattle.r10_images.specs.Faults.{IsListFault};
ghost use Rattle.r10_images.specs.Image.{image_blocks};
ghost use Rattle.r10_playback.specs.Lines.{IsStopFault, Plays};
ghost use Rattle.r10_playback.specs.declared.play.PlayStop.TheVariants as play_stops;

use crate::lines::{write_entries, write_reason};
use crate::replay::replay;
use crate::selection::{PlayFault, Selection};
use r10_images::{Image, Outcome, StreamFault, read_whole};
use r10_medium::BlockMedium;
use std::alloc::{AllocError, Global};
use std::io;
use std::io::{BufWriter, ErrorKind, Read, Write};

/// Why a replay is not printed.
#[derive(Drop)]
enum PlayStop {
    /// The medium failed in a read.
    Medium,
    /// A growth was refused, or the writer failed.
    Output(StreamFault),
}

/// Reads an image, and writes the line of each entry that is asked for, in the order of a replay: by count, then by
/// channel, and else as they stand. Where they are refused, the reason is written in their place: a count beyond 48 bits, a
/// directory that can't be taken, a number that no file has, a file that doesn't lie inside the image, or one that isn't strict.
/// The image is held once, and of its file no more than a window, the entries that are asked for, and what is kept of a packet.
/// The writer's buffer is flushed.
pub fn play_input<R: Read, W: Write + Drop>(
    alloc: Global,
    selection: &Selection,
    reader: &mut R,
    writer: &mut BufWriter<W>,
) -> Result<Outcome, StreamFault>
    ensures plays { IfOk result (λ outcome. IfSome (R.remaining reader.old) (λ input. Plays selection.now
        (image_blocks input) outcome (writer_contents W.contents writer.old) (writer_contents W.contents writer.new))) }
    ensures sent { OnOk result (writer_buffer writer.new ≡ []) }
    ensures fault { IfErr result IsListFault }
{
    let mut image = Image::of(read_whole(alloc, reader)?);
    let outcome = match play_medium(alloc, selection, &mut image, writer) {
        Ok(outcome) => outcome,
        Err(PlayStop::Medium) => return Err(StreamFault::Read(io::Error::from(ErrorKind::Other))),
        Err(PlayStop::Output(fault)) => return Err(fault),
    };
    writer.flush().map_err(StreamFault::Write)?;
    Ok(outcome)
}

fn play_medium<M: BlockMedium, W: Write>(
    alloc: Global,
    selection: &Selection,
    medium: &mut M,
    writer: &mut W,
) -> Result<Outcome, PlayStop>
    ensures plays { IfOk result
        (λ outcome. Plays selection.now (M.disk medium.old).blocks outcome (W.contents writer.old) (W.contents writer.new)) }
    ensures cause { IfErr result
        (λ stop. stop ≡ play_stops.Medium → Rose (M.disk medium.old).failures (M.disk medium.new).failures) }
    ensures fault { IfErr result IsStopFault }
{
    match replay(alloc, medium, selection) {
        Ok(mut cursor) => match write_entries(alloc, &mut cursor, writer) {
            Ok(()) => Ok(Outcome::Done),
            Err(fault) => Err(PlayStop::Output(fault)),
        },
        Err(PlayFault::Refused(refusal)) => match write_reason(alloc, refusal, writer) {
            Ok(()) => Ok(Outcome::Refused),
            Err(fault) => Err(PlayStop::Output(fault)),
        },
        Err(PlayFault::OutOfMemory) => Err(PlayStop::Output(StreamFault::Memory(AllocError))),
        Err(PlayFault::Medium) => Err(PlayStop::Medium),
    }
}
