//! Writing the image of a medium.

ghost use Rattle.std.specs.Prelude.{◌≡◌, ◌≤◌, [], IfErr, OnOk};
ghost use Rattle.std.specs.List.{concat};
ghost use Rattle.std.specs.Io.KnownBytes.{Appends, Keeps};
ghost use Rattle.std.specs.Io.Buffered.{writer_buffer, writer_contents};
ghost use Rattle.r10_medium.specs.Disk.{Unchanged};
ghost use Rattle.r10_images.specs.Faults.{IsImageFault, IsWriteFault};

use crate::fault::StreamFault;
use crate::formatting::write_block;
use r10_medium::BlockMedium;
use std::io;
use std::io::{BufWriter, ErrorKind, Write};

/// Writes the blocks of a medium one after the other. The medium is only read. No more than a block of it is held beside it, and
/// the writer's buffer is flushed.
pub fn write_image<M: BlockMedium, W: Write + Drop>(
    medium: &mut M,
    writer: &mut BufWriter<W>,
) -> Result<(), StreamFault>
    ensures image { OnOk result (Appends (writer_contents W.contents writer.old) (writer_contents W.contents writer.new)
        (concat (M.disk medium.old).blocks)) }
    ensures sent { OnOk result (writer_buffer writer.new ≡ []) }
    ensures fault { IfErr result (IsImageFault (M.disk medium.old).failures (M.disk medium.new).failures) }
    ensures same { Unchanged (M.disk medium.old) (M.disk medium.new) }
    ensures no_fewer { (M.disk medium.old).failures ≤ (M.disk medium.new).failures }
{
    match write_blocks(medium, writer) {
        Ok(()) => flush(writer),
        Err(fault) => Err(fault),
    }
}

pub(crate) fn flush<W: Write + Drop>(writer: &mut BufWriter<W>) -> Result<(), StreamFault>
    ensures bytes { Keeps (writer_contents W.contents writer.old) (writer_contents W.contents writer.new) }
    ensures sent { OnOk result (writer_buffer writer.new ≡ []) }
    ensures fault { IfErr result IsWriteFault }
{
    match writer.flush() {
        Ok(()) => Ok(()),
        Err(error) => Err(StreamFault::Write(error)),
    }
}

fn write_blocks<M: BlockMedium, W: Write>(medium: &mut M, writer: &mut W) -> Result<(), StreamFault>
    ensures image { OnOk result (Appends (W.contents writer.old) (W.contents writer.new) (concat (M.disk medium.old).blocks)) }
    ensures fault { IfErr result (IsImageFault (M.disk medium.old).failures (M.disk medium.new).failures) }
    ensures same { Unchanged (M.disk medium.old) (M.disk medium.new) }
    ensures no_fewer { (M.disk medium.old).failures ≤ (M.disk medium.new).failures }
{
    let mut block = [0; 512];
    for n in 0..medium.blocks() {
        let Ok(()) = medium.read(n, &mut block) else {
            return Err(StreamFault::Read(io::Error::from(ErrorKind::Other)));
        };
        match write_block(&block, writer) {
            Ok(()) => (),
            Err(fault) => return Err(fault),
        }
    }
    Ok(())
}
