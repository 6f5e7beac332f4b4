//! Listing a file that has begun.

ghost use Rattle.r10_dirchain.specs.Rooms.{block_room};
ghost use Rattle.r10_openfile.specs.FileRequirements.{MayBeListed};
ghost use Rattle.r10_openfile.specs.Calls.{ListsWritten};

use r10_dirblock::Entry;
use r10_dirchain::{Directory, Room};
use r10_medium::{BlockMedium, MediumFault};
use r10_mux::Mux;

/// Lists a file that was written after all others: writes its last block, syncs its packets, and adds its entry to the directory.
/// Then it is the one that is written, and the medium shows all its packets.
///
/// At `Ok` a power loss leaves the files with this one. Where the medium fails, it says the files that there were, or those with
/// this one.
pub fn list_file<M: BlockMedium>(
    mux: &Mux,
    medium: &mut M,
    directory: &mut Directory,
    entry: Entry,
    room: Room,
    reserved: usize,
) -> Result<(), MediumFault>
    requires { MayBeListed mux.now (M.disk medium.old).blocks directory.old entry (block_room room) reserved }
    ensures { ListsWritten entry mux.now directory.old (M.disk medium.old) directory.new (M.disk medium.new) result }
{
    if let Err(fault) = mux.commit_blocks(medium) {
        return Err(fault);
    }
    // A sync of its own: `add` syncs all once more, but an image that a power loss could leave here might have another chain of
    // blocks for the same files.
    if let Err(fault) = medium.sync() {
        return Err(fault);
    }
    directory.add(medium, entry, room, reserved)
}
