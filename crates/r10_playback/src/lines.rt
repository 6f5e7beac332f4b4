//! Entries and refusals in lines.

ghost use Rattle.std.specs.Prelude.{◌≡◌, IfErr, OnOk};
ghost use Rattle.std.specs.Io.KnownBytes.{Appends};
ghost use Rattle.r10_images.specs.Faults.{IsLineFault};
ghost use Rattle.r10_text.specs.Line.{entry_line};
ghost use Rattle.r10_playback.specs.Lines.{entry_lines, play_refusal_text};

use crate::selection::PlayRefusal;
use r10_body::Entry;
use r10_cursor::FileReplay;
use r10_images::{StreamFault, write_refusal};
use r10_text::entry_line;
use std::alloc::{AllocError, Global};
use std::io::Write;

/// Writes the line of each entry that a cursor has yet to give, one after the other.
pub(crate) fn write_entries<W: Write>(
    alloc: Global,
    cursor: &mut FileReplay,
    writer: &mut W,
) -> Result<(), StreamFault>
    ensures lines { OnOk result (Appends (W.contents writer.old) (W.contents writer.new) (entry_lines cursor.old.queue)) }
    ensures fault { IfErr result IsLineFault }
{
    while let Some(entry) = cursor.next() {
        write_entry(alloc, entry, writer)?;
    }
    Ok(())
}

/// Writes the line of an entry, which is done with then.
fn write_entry<W: Write>(alloc: Global, entry: Entry, writer: &mut W) -> Result<(), StreamFault>
    ensures line { OnOk result (Appends (W.contents writer.old) (W.contents writer.new) (entry_line entry)) }
    ensures fault { IfErr result IsLineFault }
{
    let Ok(line) = entry_line(alloc, &entry) else {
        return Err(StreamFault::Memory(AllocError));
    };
    write(line.as_bytes(), writer)
}

/// Writes why entries are refused.
pub(crate) fn write_reason<W: Write>(
    alloc: Global,
    refusal: PlayRefusal,
    writer: &mut W,
) -> Result<(), StreamFault>
    ensures line { OnOk result (Appends (W.contents writer.old) (W.contents writer.new) (play_refusal_text refusal)) }
    ensures fault { IfErr result IsLineFault }
{
    match refusal {
        PlayRefusal::CountRange => write(b"refused 10 CountRange\n", writer),
        PlayRefusal::NoSuchFile => write(b"refused 19 NoSuchFile\n", writer),
        PlayRefusal::BadDirectory(block) => write_refusal(alloc, block, writer),
        PlayRefusal::NotStrict => write(b"not strict\n", writer),
    }
}

fn write<W: Write>(bytes: &[u8], writer: &mut W) -> Result<(), StreamFault>
    ensures bytes { OnOk result (Appends (W.contents writer.old) (W.contents writer.new) bytes.now) }
    ensures fault { IfErr result IsLineFault }
{
    writer.write_all(bytes).map_err(StreamFault::Write)
}
