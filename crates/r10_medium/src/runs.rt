// A block that is published, and what a power loss at any moment of that leaves.
ghost use Rattle.std.specs.Prelude.{◌≡◌, ◌⊎◌, ◌<◌, length, slice_set, OnOk};
ghost use Rattle.r10_medium.specs.Disk.{Counts, IsSynced, MayLeave, MayPut};
ghost use Rattle.r10_medium.specs.PowerLoss.{Leaves};

use crate::{BlockMedium, MediumFault};

/// Syncs what was written, and then writes block `n`, which is synced at `Ok`. A power loss leaves what it could leave before, or
/// what is read with this block in its place.
pub fn publish<M: BlockMedium>(
    medium: &mut M,
    n: usize,
    block: &[u8; 512],
) -> Result<(), MediumFault>
    requires { n < length (M.disk medium.old).blocks }
    ensures moments { Leaves
        (λ image. MayLeave (M.disk medium.old) image ⊎ (image ≡ slice_set (M.disk medium.old).blocks n block.now))
        (M.disk medium.old) (M.disk medium.new) }
    ensures reads { MayPut n block.now (M.disk medium.old).blocks (M.disk medium.new).blocks }
    ensures written { OnOk result ((M.disk medium.new).blocks ≡ slice_set (M.disk medium.old).blocks n block.now) }
    ensures durable { OnOk result (IsSynced (M.disk medium.new)) }
    ensures counts { Counts (M.disk medium.old) (M.disk medium.new) result }
{
    medium.sync()?;
    medium.write(n, block)?;
    medium.sync()
}
