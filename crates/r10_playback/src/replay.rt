//! The replay of a file.

ghost use Rattle.std.specs.Prelude.{◌≡◌, IfOk, IfErr};
ghost use Rattle.r10_medium.specs.Disk.{Unchanged};
ghost use Rattle.r10_playback.specs.Played.{channels_asked, IsInstalment, IsPlayFault, PlayHasCause};

use crate::file::{find_file, strict_tracks};
use crate::selection::{PlayFault, PlayRefusal, Selection};
use r10_count::{Count, Items};
use r10_cursor::{FileReplay, ReplayFault};
use r10_medium::BlockMedium;
use std::alloc::{AllocError, Global};

/// A cursor that has the entries that are asked for as what it has yet to give.
pub(crate) fn replay<M: BlockMedium>(
    alloc: Global,
    medium: &mut M,
    selection: &Selection,
) -> Result<FileReplay, PlayFault>
    ensures entries { IfOk result (λ cursor. IsInstalment (M.disk medium.old).blocks selection.now cursor.queue) }
    ensures refused { IfErr result (IsPlayFault (M.disk medium.old).blocks selection.now) }
    ensures counts { PlayHasCause (M.disk medium.old) (M.disk medium.new) result }
{
    let (Some(from), Some(to)) = (Count::of(selection.from), Count::of(selection.to)) else {
        return Err(PlayFault::Refused(PlayRefusal::CountRange));
    };
    let file = find_file(alloc, medium, selection.file)?;
    let mut buffer = Vec::new(alloc);
    let tracks = strict_tracks(alloc, medium, &file, &mut buffer)?;
    let Ok(channels) = channels_asked(alloc, selection.channel) else {
        return Err(PlayFault::OutOfMemory);
    };
    let mut cursor = FileReplay::new(alloc, channels, from, to);
    let first = file.entry.first_block as usize;
    match cursor.advance(alloc, medium, first, tracks.book().entries(), &mut buffer) {
        Ok(_) => Ok(cursor),
        Err(ReplayFault::Medium) => Err(PlayFault::Medium),
        Err(ReplayFault::OutOfMemory) => Err(PlayFault::OutOfMemory),
        Err(ReplayFault::NoPacket) => Err(PlayFault::Refused(PlayRefusal::NotStrict)),
    }
}

/// The channels that are asked for: this one, or all where it is 0.
fn channels_asked(alloc: Global, channel: u16) -> Result<Items<u16>, AllocError>
    ensures { IfOk result (λ channels. channels ≡ channels_asked channel) }
{
    let mut channels = Vec::new(alloc);
    if channel != 0 {
        channels.push(channel)?;
    }
    Ok(Items::of(channels))
}
