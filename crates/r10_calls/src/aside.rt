//! A last file that was left open is set aside, by the settings of a script.

ghost use Rattle.std.specs.Prelude.{◌≡◌, ◌≢◌, ◌⊎◌, IfErr, IfOk, Some, length};
ghost use Rattle.r10_body.specs.Statuses.{blocks_status, directory_status, medium_status, memory_status, script_status};
ghost use Rattle.r10_medium.specs.Disk.{Rose, Unchanged};
ghost use Rattle.r10_calls.specs.Aside.{HasUnusable, SetsAsideByScript};
ghost use Rattle.r10_calls.specs.Opening.{HasOtherBlocks};

use crate::opening::settings_of;
use r10_body::status::{DIRECTORY, MEDIUM, OUT_OF_MEMORY};
use r10_dirchain::ChainError;
use r10_medium::BlockMedium;
use r10_region::{Bound, NamesMedium, SteadyMedium};
use std::alloc::Global;
use std::marker::Brand;

/// Sets the last file aside where it was left open.
fn set_aside_one<M: BlockMedium>(alloc: Global, medium: &mut M, script: &[u8]) -> Result<bool, u32>
    ensures aside { IfOk result (λ was_open. SetsAsideByScript script.now was_open (M.disk medium.old) (M.disk medium.new)) }
    ensures untouched { IfErr result (λ n. n ≢ medium_status → Unchanged (M.disk medium.old) (M.disk medium.new)) }
    ensures failed { IfErr result (λ n. n ≡ medium_status → Rose (M.disk medium.old).failures (M.disk medium.new).failures) }
    ensures unusable { IfErr result (λ n. n ≡ directory_status → HasUnusable script.now (M.disk medium.old).blocks) }
    ensures other { IfErr result (λ n. n ≡ blocks_status → HasOtherBlocks script.now (length (M.disk medium.old).blocks)) }
    ensures size { length (M.disk medium.new).blocks ≡ length (M.disk medium.old).blocks }
    ensures numbers { IfErr result (λ n. (n ≡ directory_status) ⊎ (n ≡ medium_status) ⊎ (n ≡ memory_status)
        ⊎ (n ≡ script_status) ⊎ (n ≡ blocks_status)) }
{
    let settings = match settings_of(alloc, script, medium.blocks()) {
        Ok(settings) => settings,
        Err(number) => return Err(number),
    };
    match r10_aside::set_aside(alloc, medium, settings.directory()) {
        Ok(was_open) => Ok(was_open),
        Err(ChainError::BadDirectory(_)) => Err(DIRECTORY),
        Err(ChainError::OutOfMemory) => Err(OUT_OF_MEMORY),
        Err(ChainError::Medium) => Err(MEDIUM),
    }
}

/// The same of the medium that is named.
fn set_aside_bound<M: SteadyMedium, N: NamesMedium>(
    alloc: Global,
    medium: M,
    script: &[u8],
) -> (Result<bool, u32>, M)
    requires { Some (M.identity medium) ≡ N.medium }
    ensures aside { IfOk result.0 (λ was_open. SetsAsideByScript script.now was_open (M.disk medium) (M.disk result.1)) }
    ensures untouched { IfErr result.0 (λ n. n ≢ medium_status → Unchanged (M.disk medium) (M.disk result.1)) }
    ensures failed { IfErr result.0 (λ n. n ≡ medium_status → Rose (M.disk medium).failures (M.disk result.1).failures) }
    ensures unusable { IfErr result.0 (λ n. n ≡ directory_status → HasUnusable script.now (M.disk medium).blocks) }
    ensures other { IfErr result.0 (λ n. n ≡ blocks_status → HasOtherBlocks script.now (length (M.disk medium).blocks)) }
    ensures size { length (M.disk result.1).blocks ≡ length (M.disk medium).blocks }
    ensures numbers { IfErr result.0 (λ n. (n ≡ directory_status) ⊎ (n ≡ medium_status) ⊎ (n ≡ memory_status)
        ⊎ (n ≡ script_status) ⊎ (n ≡ blocks_status)) }
    ensures named { Some (M.identity result.1) ≡ N.medium }
{
    let mut bound = Bound::<M, N>::new(medium);
    let done = set_aside_one(alloc, &mut bound, script);
    (done, bound.into_medium())
}

/// Sets the last file aside where it was left open, by the settings of this script: its directory entry is closed as it is, and no
/// byte of the file is read or changed. The answer is whether one was left open, or 26 where a recorder of the settings can't use
/// the directory, 28 where the medium failed, 30, 40 where the script can't be taken, or 41 where the medium has another number of
/// blocks. The medium comes back, and is the one that it was.
pub fn set_aside<M: SteadyMedium>(alloc: Global, medium: M, script: &[u8]) -> (Result<bool, u32>, M)
    ensures aside { IfOk result.0 (λ was_open. SetsAsideByScript script.now was_open (M.disk medium) (M.disk result.1)) }
    ensures untouched { IfErr result.0 (λ n. n ≢ medium_status → Unchanged (M.disk medium) (M.disk result.1)) }
    ensures failed { IfErr result.0 (λ n. n ≡ medium_status → Rose (M.disk medium).failures (M.disk result.1).failures) }
    ensures unusable { IfErr result.0 (λ n. n ≡ directory_status → HasUnusable script.now (M.disk medium).blocks) }
    ensures other { IfErr result.0 (λ n. n ≡ blocks_status → HasOtherBlocks script.now (length (M.disk medium).blocks)) }
    ensures size { length (M.disk result.1).blocks ≡ length (M.disk medium).blocks }
    ensures numbers { IfErr result.0 (λ n. (n ≡ directory_status) ⊎ (n ≡ medium_status) ⊎ (n ≡ memory_status)
        ⊎ (n ≡ script_status) ⊎ (n ≡ blocks_status)) }
    ensures stays { M.identity result.1 ≡ M.identity medium }
{
    set_aside_bound::<M, Brand>(alloc, medium, script)
}
