//! Setting a file aside.

ghost use Rattle.std.specs.Prelude.{◌≡◌, ◌≤◌, ℕ, List, IfErr, IfOk, IsErrOf, OnErr, length};
ghost use Rattle.r10_medium.specs.Disk.{Counts, Rose};
ghost use Rattle.r10_aside.specs.Aside.{IsLastFileClosed, SetsAsideLast, closed_as_is};
ghost use Rattle.r10_dirchain.specs.Bad.{IsNoFault};
ghost use Rattle.r10_dirchain.specs.Chain.{IsDirectory};
ghost use Rattle.r10_dirchain.specs.declared.chain.ChainBlock.{ChainBlock};
ghost use Rattle.r10_volume.specs.Mounting.{IsLeftAsWas, IsMountError, IsSpared, IsUnusable, IsUsable};

use r10_dirblock::Entry;
use r10_dirchain::{ChainError, Directory, last_file, read_chain};
use r10_medium::{BlockMedium, MediumFault};
use std::alloc::Global;

/// The close time of a file that was set aside.
const NINES: [u8; 8] = *b"99999999";

/// The entry with this close time (IRIG 106-17, chapter 10, has HHMMSSss there).
fn closed_as_is(entry: Entry) -> Entry
    ensures { result ≡ closed_as_is entry }
{
    Entry {
        close_time: NINES,
        ..entry
    }
}

/// Sets the last file aside where it was left open: its entry is closed as it is, with the bytes that it shows, and the close
/// time `99999999`, which no clock gives. No byte of the file is read or changed, however long it is: one block of the directory
/// is written, and synced at `Ok`. A power loss leaves the old list of files or the new one. Where no file was left open, the
/// answer is false, and nothing is written.
pub fn close_as_it_is<M: BlockMedium>(
    medium: &mut M,
    directory: &mut Directory,
) -> Result<bool, MediumFault>
    requires { IsDirectory (M.disk medium.old).blocks directory.old }
    ensures does { SetsAsideLast directory.old (M.disk medium.old) (M.disk medium.new) result }
    ensures kept { OnErr result (directory.new ≡ directory.old) }
    ensures usable { (reserved : ℕ) → IsUsable reserved (M.disk medium.old).blocks directory.old
        → IfOk result (λ _. IsLastFileClosed reserved (M.disk medium.new).blocks) }
    ensures size { length (M.disk medium.new).blocks ≡ length (M.disk medium.old).blocks }
    ensures counts { Counts (M.disk medium.old) (M.disk medium.new) result }
{
    let Some(entry) = last_file(directory) else {
        return Ok(false);
    };
    if entry.is_closed() {
        return Ok(false);
    }
    match directory.update(medium, closed_as_is(entry)) {
        Ok(()) => Ok(true),
        Err(fault) => Err(fault),
    }
}

/// Sets the last file aside where it was left open, on a medium whose directory a recorder with so many reserved directory
/// blocks can take into use. After an `Ok` a recorder that mounts it can begin a file. The answer is whether a file was left open.
///
/// # Errors
///
/// `BadDirectory` names the first block of the directory that a recorder can't use: nothing is written then, nor where memory
/// is refused. `Medium` where a call of the medium failed.
pub fn set_aside<M: BlockMedium>(
    alloc: Global,
    medium: &mut M,
    reserved: usize,
) -> Result<bool, ChainError>
    ensures does { (chain : List ChainBlock) → IsUsable reserved (M.disk medium.old).blocks chain
        → SetsAsideLast chain (M.disk medium.old) (M.disk medium.new) result }
    ensures fault { IfErr result (IsMountError reserved (M.disk medium.old).blocks) }
    ensures no_fault { (chain : List ChainBlock) → IsUsable reserved (M.disk medium.old).blocks chain → IfErr result IsNoFault }
    ensures closed { IfOk result (λ _. IsLastFileClosed reserved (M.disk medium.new).blocks) }
    ensures unusable { (n : ℕ) → IsUnusable reserved (M.disk medium.old).blocks n
        → IsSpared n (M.disk medium.old) (M.disk medium.new) result }
    ensures left { IfErr result (IsLeftAsWas (M.disk medium.old) (M.disk medium.new)) }
    ensures size { length (M.disk medium.new).blocks ≡ length (M.disk medium.old).blocks }
    ensures no_fewer { (M.disk medium.old).failures ≤ (M.disk medium.new).failures }
    ensures cause { IsErrOf result ChainError.Medium → Rose (M.disk medium.old).failures (M.disk medium.new).failures }
{
    let mut directory = match read_chain(alloc, medium) {
        Ok(directory) => directory,
        Err(error) => return Err(error),
    };
    if let Err(error) = directory.check(alloc, reserved, medium.blocks()) {
        return Err(error);
    }
    match close_as_it_is(medium, &mut directory) {
        Ok(was_open) => Ok(was_open),
        Err(_) => Err(ChainError::Medium),
    }
}
