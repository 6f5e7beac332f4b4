//! Files that should be strict, under their directory entries.

ghost use Rattle.std.specs.Prelude.{◌≡◌, ◌+◌, ◌*◌, ◌≤◌, ◌^◌, ℕ, List, length, IfOk};
ghost use Rattle.r10_medium.specs.Disk.{Unchanged};
ghost use Rattle.r10_blockout.specs.Bytes.{ReadHasCause};
ghost use Rattle.r10_judge.specs.Files.{file_at};
ghost use Rattle.r10_judge.specs.Judgements.{IsJudged};
ghost use Rattle.r10_judge.specs.Walks.{IsWalked};

use crate::extent::Extent;
use crate::window::{Walked, walk_file};
use r10_blockout::ReadFault;
use r10_file_rules::Tracks;
use r10_medium::BlockMedium;
use r10_packet_rules::FirstFault;
use std::alloc::Global;

/// What a file is under its directory entry.
#[derive(Drop)]
pub enum Judgement {
    /// A strict file with that closing, and what is kept of its packets: the last time, numbers, cost, and
    /// the book of its index.
    Strict(Tracks),
    /// The packet at this offset is at fault, the first one that is.
    Faulty(FirstFault),
}

/// Judges a file whose directory entry is closed or not, which lies inside the medium: each of its bytes is
/// read, in order, and no more than a window of them is held in the buffer.
pub fn judge_file<M: BlockMedium>(
    alloc: Global,
    medium: &mut M,
    extent: Extent,
    closed: bool,
    buffer: &mut Vec<u8>,
) -> Result<Judgement, ReadFault>
    requires within { 512 * extent.first + extent.size ≤ 512 * length (M.disk medium.old).blocks }
    requires size { extent.size ≤ 2 ^ 62 }
    ensures judged { IfOk result (IsJudged (file_at (M.disk medium.old).blocks extent) closed) }
    ensures same { Unchanged (M.disk medium.old) (M.disk medium.new) }
    ensures counts { ReadHasCause (M.disk medium.old) (M.disk medium.new) result }
{
    match walk_file(alloc, medium, extent, closed, buffer) {
        Ok(walked) => Ok(judgement_of(walked)),
        Err(fault) => Err(fault),
    }
}

/// What a file is that was walked.
fn judgement_of(walked: Walked) -> Judgement
    ensures { (bytes : List ℕ) → IsWalked bytes walked → IsJudged bytes walked.walk.judge.closed result }
{
    let Walked {
        walk,
        fault,
        answered,
    } = walked;
    match fault {
        Some(fault) => Judgement::Faulty(walk.judge.fault_behind(fault, answered)),
        None => match walk.judge.finish() {
            Ok(tracks) => Judgement::Strict(tracks),
            Err(at) => Judgement::Faulty(at),
        },
    }
}
