//! Media, file by file.

ghost use Rattle.std.specs.Prelude.{◌≡◌, ◌*◌, ◌+◌, ◌≤◌, length, IfOk, IfErr, IsErrOf};
ghost use Rattle.std.specs.List.{All, AllZip};
ghost use Rattle.r10_medium.specs.Disk.{Unchanged, Rose};
ghost use Rattle.r10_blockout.specs.Bytes.{ReadHasCause};
ghost use Rattle.r10_checker.specs.Checked.{AreVerdicts, IsFileVerdict, IsRefused};
ghost use Rattle.r10_checker.specs.Place.{IsPlaced};

use crate::Verdict;
use crate::place::{extent_of, first_outside};
use crate::verdict::walked_verdict;
use r10_blockout::ReadFault;
use r10_body::Refusal;
use r10_dirchain::{ChainError, ListedFile, read_chain};
use r10_judge::walk_file;
use r10_medium::BlockMedium;
use std::alloc::Global;

/// What is stated of a file of a medium.
#[derive(Drop)]
pub struct FileVerdict {
    /// The file's name, without the zero bytes and spaces after it.
    pub name: Vec<u8>,
    pub verdict: Verdict,
}

/// The name of each file of a medium and the verdict on its bytes, in the directory's order. A file is read window by
/// window, and none is held whole.
///
/// `BadDirectory` names the first block that the chain of directory blocks reaches and can't take, else the one that lists
/// the first file whose blocks don't all lie inside the medium; this is found before any file is read. `Medium` comes where a read
/// failed, and `OutOfMemory` where memory was refused or a file has more than 2^62 bytes. There is no other refusal.
pub fn check_medium<M: BlockMedium>(
    alloc: Global,
    medium: &mut M,
) -> Result<Vec<FileVerdict>, Refusal>
    ensures verdicts { IfOk result (λ said. AreVerdicts (M.disk medium.old).blocks said.items) }
    ensures refused { IfErr result (IsRefused (M.disk medium.old).blocks) }
    ensures same { Unchanged (M.disk medium.old) (M.disk medium.new) }
    ensures no_fewer { (M.disk medium.old).failures ≤ (M.disk medium.new).failures }
    ensures cause { IsErrOf result Refusal.Medium → Rose (M.disk medium.old).failures (M.disk medium.new).failures }
{
    let directory = match read_chain(alloc, medium) {
        Ok(directory) => directory,
        Err(ChainError::BadDirectory(block)) => return Err(Refusal::BadDirectory(block)),
        Err(ChainError::Medium) => return Err(Refusal::Medium),
        Err(ChainError::OutOfMemory) => return Err(Refusal::OutOfMemory),
    };
    let Ok(files) = directory.listing(alloc) else {
        return Err(Refusal::OutOfMemory);
    };
    if let Some(number) = first_outside(&files, medium.blocks()) {
        return Err(Refusal::BadDirectory(number));
    }
    match check_files(alloc, medium, &files) {
        Ok(said) => Ok(said),
        Err(ReadFault::Medium) => Err(Refusal::Medium),
        Err(ReadFault::OutOfMemory) => Err(Refusal::OutOfMemory),
    }
}

/// The name and the verdict of each of these files.
fn check_files<M: BlockMedium>(
    alloc: Global,
    medium: &mut M,
    files: &[ListedFile],
) -> Result<Vec<FileVerdict>, ReadFault>
    requires { All (IsPlaced (M.disk medium.old).blocks) files.now }
    ensures verdicts { IfOk result (λ said. AllZip (IsFileVerdict (M.disk medium.old).blocks) files.now said.items) }
    ensures same { Unchanged (M.disk medium.old) (M.disk medium.new) }
    ensures counts { ReadHasCause (M.disk medium.old) (M.disk medium.new) result }
{
    let mut buffer = Vec::new(alloc);
    let mut said = Vec::new(alloc);
    for file in files {
        let verdict = match check_listed(alloc, medium, file, &mut buffer) {
            Ok(verdict) => verdict,
            Err(error) => return Err(error),
        };
        if said.push(verdict).is_err() {
            return Err(ReadFault::OutOfMemory);
        }
    }
    Ok(said)
}

/// The name and the verdict of one file, which lies inside the medium.
fn check_listed<M: BlockMedium>(
    alloc: Global,
    medium: &mut M,
    file: &ListedFile,
    buffer: &mut Vec<u8>,
) -> Result<FileVerdict, ReadFault>
    requires { IsPlaced (M.disk medium.old).blocks file.now }
    ensures verdict { IfOk result (IsFileVerdict (M.disk medium.old).blocks file.now) }
    ensures same { Unchanged (M.disk medium.old) (M.disk medium.new) }
    ensures counts { ReadHasCause (M.disk medium.old) (M.disk medium.new) result }
{
    let Some(extent) = extent_of(&file.entry) else {
        return Err(ReadFault::OutOfMemory);
    };
    let Ok(name) = Vec::from_slice(alloc, file.entry.stripped_name()) else {
        return Err(ReadFault::OutOfMemory);
    };
    match walk_file(alloc, medium, extent, true, buffer) {
        Ok(walked) => Ok(FileVerdict {
            name,
            verdict: walked_verdict(&walked),
        }),
        Err(fault) => Err(fault),
    }
}
