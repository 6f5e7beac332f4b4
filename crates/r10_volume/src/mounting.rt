//! Taking a medium into use.

ghost use Rattle.std.specs.Prelude.{◌≡◌, ◌≤◌, ℕ, List, [], ◌∷◌, length, IfOk, IfErr, IsErrOf, MatchResult};
ghost use Rattle.r10_medium.specs.Disk.{Rose, Unchanged};
ghost use Rattle.r10_dirchain.specs.Bad.{IsNoFault};
ghost use Rattle.r10_dirchain.specs.OnMedium.{IsPublished, Turns};
ghost use Rattle.r10_dirchain.specs.Steps.{with_shutdown};
ghost use Rattle.r10_dirchain.specs.declared.chain.ChainBlock.{ChainBlock};
ghost use Rattle.r10_volume.specs.Mounting.{IsLeftAsWas, IsMountError, IsMounted, IsSpared, IsUnusable, IsUsable};
ghost use Rattle.r10_volume.specs.Mounted.{MountsFiles};

use r10_dirchain::{ChainError, Directory, read_chain};
use r10_medium::BlockMedium;
use std::alloc::Global;

/// Reads the medium's directory, and notes in block 1 that it is in use, not properly dismounted. It must be one
/// that a recorder can take into use with so many reserved directory blocks: `BadDirectory` names the first
/// block at fault. Where it isn't, or memory is refused, nothing is written.
///
/// What the medium says of its files stays, and is synced at `Ok`.
pub fn mount<M: BlockMedium>(
    alloc: Global,
    medium: &mut M,
    reserved: usize,
) -> Result<Directory, ChainError>
    ensures mounted { IfOk result (IsMounted reserved (M.disk medium.old).blocks) }
    ensures fault { IfErr result (IsMountError reserved (M.disk medium.old).blocks) }
    ensures usable { (chain : List ChainBlock) → IsUsable reserved (M.disk medium.old).blocks chain
        → MatchResult result (λ directory. directory ≡ with_shutdown 0x00 chain) IsNoFault }
    // What can't be used is as it was, also where the medium fails.
    ensures unusable { (n : ℕ) → IsUnusable reserved (M.disk medium.old).blocks n
        → IsSpared n (M.disk medium.old) (M.disk medium.new) result }
    // What is kept is the medium's directory, and a power loss then leaves what is read.
    ensures directory { IfOk result (λ directory. IsPublished directory (M.disk medium.new)) }
    ensures ready { IfOk result (IsUsable reserved (M.disk medium.new).blocks) }
    ensures left { IfErr result (IsLeftAsWas (M.disk medium.old) (M.disk medium.new)) }
    ensures turns { (chain : List ChainBlock) → IsUsable reserved (M.disk medium.old).blocks chain
        → Turns chain (with_shutdown 0x00 chain) [] (1 ∷ []) (M.disk medium.old) (M.disk medium.new) result }
    // Where the medium says files, a recorder of its settings holds them.
    ensures files { MountsFiles reserved (M.disk medium.old) (M.disk medium.new) result }
    ensures blocks { length (M.disk medium.new).blocks ≡ length (M.disk medium.old).blocks }
    ensures no_fewer { (M.disk medium.old).failures ≤ (M.disk medium.new).failures }
    ensures cause { IsErrOf result ChainError.Medium → Rose (M.disk medium.old).failures (M.disk medium.new).failures }
{
    let mut directory = match usable_directory(alloc, medium, reserved) {
        Ok(directory) => directory,
        Err(error) => return Err(error),
    };
    match directory.set_shutdown(medium, 0x00) {
        Ok(()) => Ok(directory),
        Err(_) => Err(ChainError::Medium),
    }
}

/// The medium's directory, where a recorder can take it into use.
fn usable_directory<M: BlockMedium>(
    alloc: Global,
    medium: &mut M,
    reserved: usize,
) -> Result<Directory, ChainError>
    ensures usable { IfOk result (IsUsable reserved (M.disk medium.old).blocks) }
    ensures fault { IfErr result (IsMountError reserved (M.disk medium.old).blocks) }
    ensures same { Unchanged (M.disk medium.old) (M.disk medium.new) }
    ensures no_fewer { (M.disk medium.old).failures ≤ (M.disk medium.new).failures }
    ensures cause { IsErrOf result ChainError.Medium → Rose (M.disk medium.old).failures (M.disk medium.new).failures }
{
    let directory = match read_chain(alloc, medium) {
        Ok(directory) => directory,
        Err(error) => return Err(error),
    };
    match directory.check(alloc, reserved, medium.blocks()) {
        Ok(()) => Ok(directory),
        Err(error) => Err(error),
    }
}
