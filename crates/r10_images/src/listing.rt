//! The files of an image.

ghost use Rattle.std.specs.Prelude.{◌≡◌, ◌++◌, [], IfErr, IfOk, IfSome, OnOk, map, string_bytes};
ghost use Rattle.std.specs.Io.KnownBytes.{Appends};
ghost use Rattle.std.specs.Io.Buffered.{writer_buffer, writer_contents};
ghost use Rattle.r10_images.specs.Faults.{IsFailedRead, IsLineFault, IsListFault, IsMediumFault};
ghost use Rattle.r10_images.specs.Image.{image_blocks};
ghost use Rattle.r10_count.specs.Printed.{shown_byte};
ghost use Rattle.r10_images.specs.Listing.{shown_name, listed_file_line, listed_file_lines, refusal_line, ListsFiles};

use crate::fault::StreamFault;
use crate::held::Image;
use crate::input::read_whole;
use crate::writing::flush;
use r10_dirblock::Entry;
use r10_dirchain::{ChainError, read_chain};
use r10_medium::BlockMedium;
use std::alloc::{AllocError, Global};
use std::io;
use std::io::{BufWriter, ErrorKind, Read, Write};

/// How a command over an image ended.
#[derive(Clone, Copy, Drop)]
pub enum Outcome {
    /// It did its work.
    Done,
    /// The image refused it, and the refusal is printed.
    Refused,
}

/// Reads an image, and writes a line for each file of its directory, in order, or the refusal where
/// it has none. The image is held once, and the writer's buffer is flushed.
pub fn list_files<R: Read, W: Write + Drop>(
    alloc: Global,
    reader: &mut R,
    writer: &mut BufWriter<W>,
) -> Result<Outcome, StreamFault>
    ensures lists { IfOk result (λ outcome. IfSome (R.remaining reader.old) (λ input. ListsFiles (image_blocks input) outcome
        (writer_contents W.contents writer.old) (writer_contents W.contents writer.new))) }
    ensures sent { OnOk result (writer_buffer writer.new ≡ []) }
    ensures fault { IfErr result IsListFault }
{
    let bytes = match read_whole(alloc, reader) {
        Ok(bytes) => bytes,
        Err(fault) => return Err(fault),
    };
    let mut image = Image::of(bytes);
    let outcome = match list_medium(alloc, &mut image, writer) {
        Ok(outcome) => outcome,
        Err(fault) => return Err(fault),
    };
    match flush(writer) {
        Ok(()) => Ok(outcome),
        Err(fault) => Err(fault),
    }
}

fn list_medium<M: BlockMedium, W: Write>(
    alloc: Global,
    medium: &mut M,
    writer: &mut W,
) -> Result<Outcome, StreamFault>
    ensures lists { IfOk result
        (λ outcome. ListsFiles (M.disk medium.old).blocks outcome (W.contents writer.old) (W.contents writer.new)) }
    ensures fault { IfErr result (IsMediumFault (M.disk medium.old).failures (M.disk medium.new).failures) }
    ensures reported { IfErr result IsListFault }
{
    match read_chain(alloc, medium) {
        Ok(directory) => {
            let Ok(files) = directory.files(alloc) else {
                return Err(StreamFault::Memory(AllocError));
            };
            match write_files(alloc, files.as_slice(), writer) {
                Ok(()) => Ok(Outcome::Done),
                Err(fault) => Err(fault),
            }
        }
        Err(ChainError::BadDirectory(block)) => match write_refusal(alloc, block, writer) {
            Ok(()) => Ok(Outcome::Refused),
            Err(fault) => Err(fault),
        },
        Err(ChainError::OutOfMemory) => Err(StreamFault::Memory(AllocError)),
        Err(ChainError::Medium) => Err(failed_read()),
    }
}

/// What is stated of a medium that failed.
fn failed_read() -> StreamFault
    ensures { IsFailedRead result }
{
    StreamFault::Read(io::Error::from(ErrorKind::Other))
}

/// Writes the line of each file.
fn write_files<W: Write>(alloc: Global, files: &[Entry], writer: &mut W) -> Result<(), StreamFault>
    ensures lines { OnOk result (Appends (W.contents writer.old) (W.contents writer.new) (listed_file_lines 0 files.now)) }
    ensures fault { IfErr result IsLineFault }
{
    for (number, entry) in files.iter().enumerate() {
        match write_file(alloc, number, entry, writer) {
            Ok(()) => (),
            Err(fault) => return Err(fault),
        }
    }
    Ok(())
}

/// Writes the line of one file.
fn write_file<W: Write>(
    alloc: Global,
    number: usize,
    entry: &Entry,
    writer: &mut W,
) -> Result<(), StreamFault>
    ensures line { OnOk result (Appends (W.contents writer.old) (W.contents writer.new) (listed_file_line number entry.now)) }
    ensures fault { IfErr result IsLineFault }
{
    let Ok(name) = shown_name(alloc, entry) else {
        return Err(StreamFault::Memory(AllocError));
    };
    let (size, blocks) = (entry.size, entry.block_count);
    let closed = if entry.is_closed() { "1" } else { "0" };
    let Ok(front) = format!(in alloc; "file {number} ") else {
        return Err(StreamFault::Memory(AllocError));
    };
    let Ok(back) = format!(in alloc; " {size} {blocks} {closed}\n") else {
        return Err(StreamFault::Memory(AllocError));
    };
    match write(front.as_bytes(), writer) {
        Ok(()) => (),
        Err(fault) => return Err(fault),
    }
    match write(name.as_slice(), writer) {
        Ok(()) => (),
        Err(fault) => return Err(fault),
    }
    write(back.as_bytes(), writer)
}

/// The file's name without its padding, with `?` in place of a byte that no name has.
fn shown_name(alloc: Global, entry: &Entry) -> Result<Vec<u8>, AllocError>
    ensures { IfOk result (λ name. name.items ≡ shown_name entry.now) }
{
    let name = entry.stripped_name();
    name.iter()
        .copied()
        .map(|byte| shown_byte(byte))
        .collect(alloc)
}

fn shown_byte(byte: u8) -> u8
    ensures { result ≡ shown_byte byte }
{
    match byte {
        b'0'..=b'9' | b'A'..=b'Z' | b'a'..=b'z' | b'.' | b'_' | b'-' => byte,
        _ => b'?',
    }
}

/// Writes the refusal of an image whose directory can't be taken, first for this block.
pub fn write_refusal<W: Write>(alloc: Global, block: u64, writer: &mut W) -> Result<(), StreamFault>
    ensures line { OnOk result (Appends (W.contents writer.old) (W.contents writer.new) (refusal_line block)) }
    ensures fault { IfErr result IsLineFault }
{
    let Ok(line) = format!(in alloc; "refused 26 BadDirectory {block}\n") else {
        return Err(StreamFault::Memory(AllocError));
    };
    write(line.as_bytes(), writer)
}

fn write<W: Write>(bytes: &[u8], writer: &mut W) -> Result<(), StreamFault>
    ensures bytes { OnOk result (Appends (W.contents writer.old) (W.contents writer.new) bytes.now) }
    ensures fault { IfErr result IsLineFault }
{
    match writer.write_all(bytes) {
        Ok(()) => Ok(()),
        Err(error) => Err(StreamFault::Write(error)),
    }
}
