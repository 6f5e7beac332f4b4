// One directory block, written so that a power loss leaves the medium before it or after it.
ghost use Rattle.std.specs.Prelude.{◌≡◌, ◌≢◌, ◌⊎◌, ◌<◌, length, OnOk};
ghost use Rattle.r10_medium.specs.Disk.{Counts, IsSynced, MayLeave};
ghost use Rattle.r10_medium.specs.PowerLoss.{Settled, Leaves, ComesBy, Moves, SameBut};
ghost use Rattle.r10_dirblock.specs.Block.{HasRooms};
ghost use Rattle.r10_dirchain.specs.OnMedium.{Put, PutTwo};

use crate::ChainBlock;
use r10_dirblock::encode;
use r10_medium::{BlockMedium, MediumFault, publish};

/// Syncs what stands, and then writes one directory block, which is synced at `Ok`.
pub(crate) fn put_block<M: BlockMedium>(
    medium: &mut M,
    link: &ChainBlock,
) -> Result<(), MediumFault>
    requires within { link.now.number < length (M.disk medium.old).blocks }
    requires rooms { HasRooms link.now.block }
    ensures moments { Leaves (λ image. MayLeave (M.disk medium.old) image ⊎ Put (M.disk medium.old).blocks link.now image)
        (M.disk medium.old) (M.disk medium.new) }
    ensures reads { ((M.disk medium.new).blocks ≡ (M.disk medium.old).blocks)
        ⊎ Put (M.disk medium.old).blocks link.now (M.disk medium.new).blocks }
    ensures settled { OnOk result (Settled (Put (M.disk medium.old).blocks link.now) (M.disk medium.new)) }
    ensures durable { OnOk result (IsSynced (M.disk medium.new)) }
    ensures counts { Counts (M.disk medium.old) (M.disk medium.new) result }
{
    publish(medium, link.number as usize, &encode(&link.block))
}

/// Writes one directory block that nothing links to. It is not synced.
pub(crate) fn put_unlinked<M: BlockMedium>(
    medium: &mut M,
    link: &ChainBlock,
) -> Result<(), MediumFault>
    requires within { link.now.number < length (M.disk medium.old).blocks }
    requires rooms { HasRooms link.now.block }
    ensures moments { Moves (SameBut link.now.number) (M.disk medium.old) (M.disk medium.new) }
    ensures reads { SameBut link.now.number (M.disk medium.old).blocks (M.disk medium.new).blocks }
    ensures put { OnOk result (Put (M.disk medium.old).blocks link.now (M.disk medium.new).blocks) }
    ensures counts { Counts (M.disk medium.old) (M.disk medium.new) result }
{
    medium.write(link.number as usize, &encode(&link.block))
}

/// Writes a block that nothing links to, syncs it, and then writes the block that links to it,
/// which is synced at `Ok`.
pub(crate) fn put_linked<M: BlockMedium>(
    medium: &mut M,
    next: &ChainBlock,
    linking: &ChainBlock,
) -> Result<(), MediumFault>
    requires within { linking.now.number < length (M.disk medium.old).blocks }
    requires next_within { next.now.number < length (M.disk medium.old).blocks }
    requires apart { next.now.number ≢ linking.now.number }
    requires rooms { HasRooms linking.now.block }
    requires next_rooms { HasRooms next.now.block }
    ensures moments { Leaves (λ image. ComesBy (SameBut next.now.number) (M.disk medium.old) image
        ⊎ PutTwo (M.disk medium.old).blocks next.now linking.now image) (M.disk medium.old) (M.disk medium.new) }
    ensures reads { SameBut next.now.number (M.disk medium.old).blocks (M.disk medium.new).blocks
        ⊎ PutTwo (M.disk medium.old).blocks next.now linking.now (M.disk medium.new).blocks }
    ensures settled { OnOk result (Settled (PutTwo (M.disk medium.old).blocks next.now linking.now) (M.disk medium.new)) }
    ensures durable { OnOk result (IsSynced (M.disk medium.new)) }
    ensures counts { Counts (M.disk medium.old) (M.disk medium.new) result }
{
    if let Err(fault) = put_unlinked(medium, next) {
        return Err(fault);
    }
    put_block(medium, linking)
}
