//! The file that is asked for.

ghost use Rattle.std.specs.Prelude.{◌≡◌, ◌≤◌, ℕ, length, slice_get, IfOk, IfErr, IfNone};
ghost use Rattle.r10_medium.specs.Disk.{Image, Unchanged};
ghost use Rattle.r10_dirchain.specs.Bad.{IsChainError};
ghost use Rattle.r10_judge.specs.Judged.{TracksStrictFile};
ghost use Rattle.r10_dirblock.specs.Block.{is_closed};
ghost use Rattle.r10_checker.specs.Place.{bytes_on, IsPlaced};
ghost use Rattle.r10_dirchain.specs.declared.read.ChainError.TheVariants as chain_errors;
ghost use Rattle.r10_playback.specs.Played.{IsListedInside, IsFileFault, IsJudgeFault, PlayHasCause};
ghost use Rattle.r10_playback.specs.declared.selection.PlayFault.TheVariants as play_faults;

use crate::selection::{PlayFault, PlayRefusal};
use r10_blockout::ReadFault;
use r10_checker::{extent_of, is_inside};
use r10_dirchain::{ChainError, ListedFile, read_chain};
use r10_file_rules::Tracks;
use r10_judge::{Judgement, judge_file};
use r10_medium::BlockMedium;
use std::alloc::Global;

/// The file of this number, which lies inside the medium.
pub(crate) fn find_file<M: BlockMedium>(
    alloc: Global,
    medium: &mut M,
    number: usize,
) -> Result<ListedFile, PlayFault>
    ensures found { IfOk result
        (λ file. IsListedInside (M.disk medium.old).blocks number file × IsPlaced (M.disk medium.old).blocks file) }
    ensures refused { IfErr result (IsFileFault (M.disk medium.old).blocks number) }
    ensures same { Unchanged (M.disk medium.old) (M.disk medium.new) }
    ensures counts { PlayHasCause (M.disk medium.old) (M.disk medium.new) result }
{
    let directory = match read_chain(alloc, medium) {
        Ok(directory) => directory,
        Err(error) => return Err(chain_fault(error)),
    };
    let Ok(files) = directory.listing(alloc) else {
        return Err(PlayFault::OutOfMemory);
    };
    let Some(file) = file_at(&files, number) else {
        return Err(PlayFault::Refused(PlayRefusal::NoSuchFile));
    };
    if !is_inside(&file.entry, medium.blocks()) {
        let block = file.number;
        return Err(PlayFault::Refused(PlayRefusal::BadDirectory(block)));
    }
    Ok(file)
}

fn file_at(files: &[ListedFile], number: usize) -> Option<ListedFile>
    ensures value { result ≡ slice_get files.now number }
    ensures none { IfNone result (length files.now ≤ number) }
{
    files.get(number).copied()
}

/// Why there is no file where there is no directory.
fn chain_fault(error: ChainError) -> PlayFault
    ensures refused { (image : Image) (number : ℕ) → IsChainError image error → IsFileFault image number result }
    ensures cause { result ≡ play_faults.Medium → error ≡ chain_errors.Medium }
{
    match error {
        ChainError::BadDirectory(block) => PlayFault::Refused(PlayRefusal::BadDirectory(block)),
        ChainError::Medium => PlayFault::Medium,
        ChainError::OutOfMemory => PlayFault::OutOfMemory,
    }
}

/// What is kept of the packets of a file that is strict and closed as its directory entry says.
pub(crate) fn strict_tracks<M: BlockMedium>(
    alloc: Global,
    medium: &mut M,
    file: &ListedFile,
    buffer: &mut Vec<u8>,
) -> Result<Tracks, PlayFault>
    requires { IsPlaced (M.disk medium.old).blocks file.now }
    ensures kept { IfOk result
        (λ tracks. TracksStrictFile (is_closed file.now.entry) tracks (bytes_on (M.disk medium.old).blocks file.now.entry)) }
    ensures refused { IfErr result (IsJudgeFault (M.disk medium.old).blocks file.now) }
    ensures same { Unchanged (M.disk medium.old) (M.disk medium.new) }
    ensures counts { PlayHasCause (M.disk medium.old) (M.disk medium.new) result }
{
    let Some(extent) = extent_of(&file.entry) else {
        return Err(PlayFault::OutOfMemory);
    };
    match judge_file(alloc, medium, extent, file.entry.is_closed(), buffer) {
        Ok(Judgement::Strict(tracks)) => Ok(tracks),
        Ok(Judgement::Faulty(_)) => Err(PlayFault::Refused(PlayRefusal::NotStrict)),
        Err(ReadFault::Medium) => Err(PlayFault::Medium),
        Err(ReadFault::OutOfMemory) => Err(PlayFault::OutOfMemory),
    }
}
