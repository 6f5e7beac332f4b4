//! What is written is queued for the disk, where there is room to queue it.

ghost use Rattle.std.specs.Prelude.{◌≡◌, ◌<◌, length};
ghost use Rattle.r10_region.specs.Device.{told_if, put_if};
ghost use Rattle.r10_region.specs.Line.{told_by, KeepsLine};
ghost use Rattle.r10_region.specs.declared.operation.Operation.TheVariants.{Write};

use crate::line::Line;
use crate::operation::{Operation, has_its_bytes};

/// Writes a block and tells the disk to, or neither.
pub(crate) fn tell_write(
    blocks: &mut [[u8; 512]],
    line: &mut Line,
    n: usize,
    block: &[u8; 512],
) -> bool
    requires { n < length blocks.old }
    ensures reported { told_by line.new ≡ told_if result (Write n block.now) (told_by line.old) }
    ensures put { blocks.new ≡ put_if result n block.now blocks.old }
    ensures whole { length block.now ≡ 512 }
    ensures queue { KeepsLine result line.old line.new }
{
    has_its_bytes(block);
    let operation = Operation::Write {
        block: n,
        bytes: *block,
    };
    if line.ask(operation) {
        blocks[n] = *block;
        return true;
    }
    false
}
