//! A new directory.

ghost use Rattle.std.specs.Prelude.{◌≡◌, ◌⊎◌, [], length, IfErr, OnOk};
ghost use Rattle.r10_body.specs.declared.refusal.Refusal.TheVariants as refusals;
ghost use Rattle.r10_dirblock.specs.Block.{block_bytes};
ghost use Rattle.r10_dirchain.specs.Chain.{at};
ghost use Rattle.r10_dirchain.specs.Steps.{formatted};
ghost use Rattle.r10_volume.specs.Formatted.{IsFormatted};
ghost use Rattle.r10_medium.specs.Disk.{block_at, Counts, IsSynced, MayLeave};
ghost use Rattle.r10_medium.specs.PowerLoss.{Leaves, Settled};
ghost use Rattle.r10_machine.specs.Says.{MediumHas};

use r10_body::Refusal;
use r10_dirchain::FormatError;
use r10_machine::Settings;
use r10_medium::BlockMedium;

/// Formats a medium for a recorder of these settings: block 1 becomes a directory without files, properly dismounted, under
/// the settings' volume name (IRIG 106-17, chapter 10). It is synced at `Ok`. No other block is touched.
///
/// # Errors
///
/// `Refusal::Medium` where a call of the medium failed, and no other refusal: settings within the limits have a volume name that a
/// directory takes, and no memory is asked for. The medium then is as a power loss could have left it before, or formatted.
pub fn format<M: BlockMedium>(medium: &mut M, settings: &Settings) -> Result<(), Refusal>
    requires { length (M.disk medium.old).blocks ≡ settings.now.blocks }
    // A new recorder of these settings finds no files.
    ensures has { OnOk result (MediumHas settings.now (M.disk medium.new).blocks []) }
    ensures durable { OnOk result (IsSynced (M.disk medium.new)) }
    ensures settled { OnOk result (Settled (IsFormatted settings.now (M.disk medium.old).blocks) (M.disk medium.new)) }
    // Block 1 is byte for byte the one that this recorder writes.
    ensures bytes { OnOk result (block_at (M.disk medium.new).blocks 1 ≡ block_bytes (at (formatted settings.now.volume) 0).block) }
    ensures moments { Leaves
        (λ image. MayLeave (M.disk medium.old) image ⊎ IsFormatted settings.now (M.disk medium.old).blocks image)
        (M.disk medium.old) (M.disk medium.new) }
    ensures blocks { length (M.disk medium.new).blocks ≡ length (M.disk medium.old).blocks }
    ensures refused { IfErr result (λ r. r ≡ refusals.Medium) }
    ensures counts { Counts (M.disk medium.old) (M.disk medium.new) result }
{
    // For the proof: the blocks and channels are within limits.
    let _blocks = settings.blocks();
    let _channels = settings.channels();
    let directory = settings.directory();
    let volume = settings.volume();
    match r10_dirchain::format(medium, directory, volume) {
        Ok(()) => Ok(()),
        Err(FormatError::Medium) => Err(Refusal::Medium),
        Err(FormatError::BadName) => Err(Refusal::BadName),
    }
}
