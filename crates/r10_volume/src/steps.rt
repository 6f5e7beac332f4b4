//! Steps on the directory of a medium in use.

ghost use Rattle.std.specs.Prelude.{◌≡◌, ◌⊎◌, ℕ, List, [], ◌∷◌, None, OnOk, OnErr};
ghost use Rattle.r10_medium.specs.PowerLoss.{Leaves, Settled};
ghost use Rattle.r10_dirchain.specs.Chain.{IsDirectory, at};
ghost use Rattle.r10_dirchain.specs.OnMedium.{IsPublished, Turns};
ghost use Rattle.r10_dirchain.specs.Steps.{emptied, with_shutdown};
ghost use Rattle.r10_packetout.specs.Writes.{WritesCounted};
ghost use Rattle.r10_machine.specs.Config.{Config};
ghost use Rattle.r10_machine.specs.Machine.{File};
ghost use Rattle.r10_machine.specs.Bytes.{KeepBytes};
ghost use Rattle.r10_machine.specs.Says.{MediumSays};
ghost use Rattle.r10_volume.specs.Holding.{HoldsFiles};
ghost use Rattle.r10_volume.specs.Mounting.{IsUsable};
ghost use Rattle.r10_volume.specs.Settling.{IsSettled};

use r10_dirchain::Directory;
use r10_medium::{BlockMedium, MediumFault};

/// Notes in block 1 that the medium is properly dismounted. What it says of its files stays, and is synced at `Ok`.
pub fn dismount<M: BlockMedium>(
    medium: &mut M,
    directory: &mut Directory,
) -> Result<(), MediumFault>
    requires { IsDirectory (M.disk medium.old).blocks directory.old }
    ensures done { OnOk result (directory.new ≡ with_shutdown 0xFF directory.old) }
    ensures kept { OnErr result (directory.new ≡ directory.old) }
    ensures directory { OnOk result (IsPublished directory.new (M.disk medium.new)) }
    ensures usable { (reserved : ℕ) → IsUsable reserved (M.disk medium.old).blocks directory.old
        → OnOk result (IsUsable reserved (M.disk medium.new).blocks directory.new) }
    ensures turns { Turns directory.old (with_shutdown 0xFF directory.old) [] (1 ∷ [])
        (M.disk medium.old) (M.disk medium.new) result }
    ensures holds { (s : Config) (files : List File) → HoldsFiles s (M.disk medium.old).blocks directory.old None files
        → OnOk result (HoldsFiles s (M.disk medium.new).blocks directory.new None files) }
    ensures says { (s : Config) (files : List File) → HoldsFiles s (M.disk medium.old).blocks directory.old None files
        → MediumSays s (M.disk medium.new).blocks files }
    ensures bytes { (s : Config) (files : List File) → HoldsFiles s (M.disk medium.old).blocks directory.old None files
        → KeepBytes (M.disk medium.old).blocks (M.disk medium.new).blocks files }
    ensures moments { (s : Config) (files : List File) → HoldsFiles s (M.disk medium.old).blocks directory.old None files
        → Settled (λ image. MediumSays s image files) (M.disk medium.old)
        → Leaves (λ image. MediumSays s image files) (M.disk medium.old) (M.disk medium.new) }
    ensures settled { (s : Config) (files : List File) → HoldsFiles s (M.disk medium.old).blocks directory.old None files
        → OnOk result (IsSettled s files (M.disk medium.new)) }
    ensures writes { WritesCounted (M.disk medium.old) (M.disk medium.new) result }
{
    directory.set_shutdown(medium, 0xFF)
}

/// Takes all files from the directory: writes block 1 once, without entries and with a forward link to itself.
pub fn erase<M: BlockMedium>(medium: &mut M, directory: &mut Directory) -> Result<(), MediumFault>
    requires { IsDirectory (M.disk medium.old).blocks directory.old }
    ensures done { OnOk result (directory.new ≡ emptied directory.old) }
    ensures kept { OnErr result (directory.new ≡ directory.old) }
    ensures directory { OnOk result (IsPublished directory.new (M.disk medium.new)) }
    ensures usable { (reserved : ℕ) → IsUsable reserved (M.disk medium.old).blocks directory.old
        → OnOk result (IsUsable reserved (M.disk medium.new).blocks directory.new) }
    ensures turns { Turns directory.old (emptied directory.old) [] (1 ∷ []) (M.disk medium.old) (M.disk medium.new) result }
    ensures holds { (s : Config) (files : List File) → HoldsFiles s (M.disk medium.old).blocks directory.old None files
        → OnOk result (HoldsFiles s (M.disk medium.new).blocks directory.new None []) }
    ensures failed { (s : Config) (files : List File) → HoldsFiles s (M.disk medium.old).blocks directory.old None files
        → OnErr result (MediumSays s (M.disk medium.new).blocks files ⊎ MediumSays s (M.disk medium.new).blocks []) }
    ensures bytes { (s : Config) (files : List File) → HoldsFiles s (M.disk medium.old).blocks directory.old None files
        → KeepBytes (M.disk medium.old).blocks (M.disk medium.new).blocks files }
    ensures moments { (s : Config) (files : List File) → HoldsFiles s (M.disk medium.old).blocks directory.old None files
        → Settled (λ image. MediumSays s image files) (M.disk medium.old)
        → Leaves (λ image. MediumSays s image files ⊎ MediumSays s image []) (M.disk medium.old) (M.disk medium.new) }
    ensures settled { (s : Config) (files : List File) → HoldsFiles s (M.disk medium.old).blocks directory.old None files
        → OnOk result (IsSettled s [] (M.disk medium.new)) }
    ensures writes { WritesCounted (M.disk medium.old) (M.disk medium.new) result }
{
    directory.erase(medium)
}
