// Formatting a medium.
ghost use Rattle.std.specs.Prelude.{◌≡◌, ◌⊎◌, ◌≤◌, ◌+◌, ◌↔◌, [], ◌∷◌, None, false, length, OnOk, IsErrOf};
ghost use Rattle.r10_count.specs.Checks.{first_broken};
ghost use Rattle.r10_count.specs.Names.{is_volume};
ghost use Rattle.r10_medium.specs.Disk.{IsSynced, MayLeave, block_at};
ghost use Rattle.r10_medium.specs.PowerLoss.{Settled, Leaves};
ghost use Rattle.r10_dirblock.specs.Block.{block_bytes};
ghost use Rattle.r10_dirchain.specs.Chain.{at};
ghost use Rattle.r10_dirchain.specs.Mount.{mount_rules};
ghost use Rattle.r10_dirchain.specs.OnMedium.{FormatHasCause, Turned};
ghost use Rattle.r10_dirchain.specs.Steps.{formatted};

use crate::ChainBlock;
use crate::put::put_block;
use r10_count::is_volume;
use r10_dirblock::{DirBlock, Entries, pad};
use r10_medium::BlockMedium;
use thiserror::Error;

/// Why a medium was not formatted.
#[derive(Clone, Copy, Debug, Drop, Error)]
pub enum FormatError {
    /// The volume's name is not 1 to 32 letters, digits, `.`, `_` or `-`.
    #[error("the volume's name is not 1 to 32 letters, digits, '.', '_' or '-'")]
    BadName,
    /// A call of the medium failed.
    #[error("a call of the medium failed")]
    Medium,
}

/// Writes the directory of a medium without files, for so many reserved directory blocks from block
/// 1 on: block 1 alone, properly dismounted (IRIG 106-17, chapter 10). It is synced at `Ok`.
pub fn format<M: BlockMedium>(
    medium: &mut M,
    directory: usize,
    volume: &[u8],
) -> Result<(), FormatError>
    requires some { 1 ≤ directory }
    requires reserved { directory ≤ 64 }
    requires room { directory + 2 ≤ length (M.disk medium.old).blocks }
    requires blocks { length (M.disk medium.old).blocks ≤ 16_777_216 }

    ensures durable { OnOk result (IsSynced (M.disk medium.new)) }
    ensures settled { OnOk result
        (Settled (Turned (formatted volume.now) (1 ∷ []) (M.disk medium.old).blocks) (M.disk medium.new)) }
    // Block 1 is byte for byte the one that this recorder writes.
    ensures bytes { OnOk result (block_at (M.disk medium.new).blocks 1 ≡ block_bytes (at (formatted volume.now) 0).block) }
    // A recorder with these reserved blocks can take it into use.
    ensures usable { first_broken (mount_rules directory (length (M.disk medium.old).blocks) (formatted volume.now)) ≡ None }
    ensures moments { Leaves
        (λ image. MayLeave (M.disk medium.old) image ⊎ Turned (formatted volume.now) (1 ∷ []) (M.disk medium.old).blocks image)
        (M.disk medium.old) (M.disk medium.new) }

    ensures named { IsErrOf result FormatError.BadName ↔ (is_volume volume.now ≡ false) }
    ensures untouched { IsErrOf result FormatError.BadName → medium.new ≡ medium.old }
    ensures counts { FormatHasCause (M.disk medium.old) (M.disk medium.new) result }
{
    if !is_volume(volume) {
        return Err(FormatError::BadName);
    }
    match put_block(medium, &empty_directory(volume)) {
        Ok(()) => Ok(()),
        Err(_) => Err(FormatError::Medium),
    }
}

fn empty_directory(volume: &[u8]) -> ChainBlock
    requires { length volume.now ≤ 32 }
    ensures { result ∷ [] ≡ formatted volume.now }
{
    ChainBlock {
        number: 1,
        block: DirBlock {
            shutdown: 0xFF,
            volume: pad(volume),
            forward: 1,
            reverse: 1,
            entries: Entries::new(),
        },
    }
}
