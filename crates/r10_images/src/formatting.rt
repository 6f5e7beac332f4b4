//! Writing the image of a formatted medium.

ghost use Rattle.std.specs.Prelude.{◌≡◌, None, IfErr, OnOk, [], replicate, length, ◌≤◌};
ghost use Rattle.std.specs.List.{concat};
ghost use Rattle.std.specs.Io.KnownBytes.{Appends};
ghost use Rattle.std.specs.Io.Buffered.{writer_buffer, writer_contents};
ghost use Rattle.r10_count.specs.Checks.{first_broken};
ghost use Rattle.r10_medium.specs.Memory.{zeros};
ghost use Rattle.r10_images.specs.Faults.{IsWriteFault};
ghost use Rattle.r10_images.specs.Formatted.{format_rules, formatted_block, formatted_image};

use crate::fault::StreamFault;
use crate::writing::flush;
use r10_dirblock::{DirBlock, Entries, encode, pad};
use std::io::{BufWriter, Write};

/// Writes the image of a medium of so many blocks that is formatted for so many reserved directory
/// blocks and this volume: block 1 is the directory's (IRIG 106-17, chapter 10), every other one is
/// zeros. No more than a block of it is held, and the writer's buffer is flushed.
pub fn write_formatted<W: Write + Drop>(
    blocks: usize,
    directory: usize,
    volume: &[u8],
    writer: &mut BufWriter<W>,
) -> Result<(), StreamFault>
    requires { first_broken (format_rules blocks directory volume.now) ≡ None }
    ensures image { OnOk result (Appends (writer_contents W.contents writer.old) (writer_contents W.contents writer.new)
        (concat (formatted_image blocks volume.now))) }
    ensures sent { OnOk result (writer_buffer writer.new ≡ []) }
    ensures fault { IfErr result IsWriteFault }
{
    let _ = directory;
    match write_blocks(blocks, volume, writer) {
        Ok(()) => flush(writer),
        Err(fault) => Err(fault),
    }
}

/// Writes the blocks of the image.
fn write_blocks<W: Write>(blocks: usize, volume: &[u8], writer: &mut W) -> Result<(), StreamFault>
    requires blocks { 2 ≤ blocks }
    requires volume { length volume.now ≤ 32 }
    ensures image { OnOk result
        (Appends (W.contents writer.old) (W.contents writer.new) (concat (formatted_image blocks volume.now))) }
    ensures fault { IfErr result IsWriteFault }
{
    match write_zeros(1, writer) {
        Ok(()) => (),
        Err(fault) => return Err(fault),
    }
    match write_block(&formatted_block(volume), writer) {
        Ok(()) => (),
        Err(fault) => return Err(fault),
    }
    match write_zeros(blocks - 2, writer) {
        Ok(()) => Ok(()),
        Err(fault) => Err(fault),
    }
}

fn write_zeros<W: Write>(count: usize, writer: &mut W) -> Result<(), StreamFault>
    ensures zeros { OnOk result (Appends (W.contents writer.old) (W.contents writer.new) (concat (replicate count zeros))) }
    ensures fault { IfErr result IsWriteFault }
{
    for done in 0..count {
        match write_block(&[0; 512], writer) {
            Ok(()) => (),
            Err(fault) => return Err(fault),
        }
    }
    Ok(())
}

pub(crate) fn write_block<W: Write>(block: &[u8; 512], writer: &mut W) -> Result<(), StreamFault>
    ensures bytes { OnOk result (Appends (W.contents writer.old) (W.contents writer.new) block.now) }
    ensures fault { IfErr result IsWriteFault }
{
    match writer.write_all(block) {
        Ok(()) => Ok(()),
        Err(error) => Err(StreamFault::Write(error)),
    }
}

fn formatted_block(volume: &[u8]) -> [u8; 512]
    requires { length volume.now ≤ 32 }
    ensures { result ≡ formatted_block volume.now }
{
    encode(&DirBlock {
        shutdown: 0xFF,
        volume: pad(volume),
        forward: 1,
        reverse: 1,
        entries: Entries::new(),
    })
}
