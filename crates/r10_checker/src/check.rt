//! Files on their own, without a directory.

ghost use Rattle.std.specs.Prelude.{◌≡◌, ℕ, List, true, IfOk};
ghost use Rattle.r10_packet_rules.specs.Tracks.{TracksForeign};
ghost use Rattle.r10_judge.specs.Judged.{TracksJudged};
ghost use Rattle.r10_checker.specs.Verdict.{IsVerdict};
ghost use Rattle.r10_checker.specs.declared.check.Verdict.TheVariants as verdicts;

use crate::verdict::walked_verdict;
use r10_body::FileFault;
use r10_judge::{Judge, walk_bytes};
use r10_packet_rules::{FirstFault, ForeignTrack};
use std::alloc::{AllocError, Global};

/// What is stated of a file.
#[derive(Clone, Copy, Debug, PartialEq, Eq)]
pub enum Verdict {
    /// It keeps every rule of this recorder's files, with an index or without.
    Strict,
    /// Any recorder may have written it (IRIG 106-17, chapter 11). So many of its packets are opaque:
    /// they are separated, and passed over unread.
    Lenient { opaque: u64 },
    /// The packet at this offset, in bytes from the start, is at fault: the first one that is.
    Faulty { offset: u64, fault: FileFault },
}

/// The verdict on a file's bytes. A fault is never one of the rules of this recorder's files: a file
/// that breaks them is lenient.
pub fn check_file(alloc: Global, bytes: &[u8]) -> Result<Verdict, AllocError>
    ensures { IfOk result (IsVerdict bytes.now) }
{
    let walked = walk_bytes(alloc, bytes, true)?;
    Ok(walked_verdict(&walked))
}

/// The verdict on a file whose bytes were all given to both, whoever wrote them: by its packets, and by the rules that they
/// keep. It means nothing where the judge does not take the file for a closed one.
pub fn end_verdict(track: &ForeignTrack, judge: &Judge) -> Verdict
    ensures { (bytes : List ℕ) → TracksForeign track.now bytes → TracksJudged judge.now bytes
        → judge.now.closed ≡ true → IsVerdict bytes result }
{
    match track.end() {
        Err(at) => faulty(&at),
        Ok(opaque) => {
            if judge.is_strict() {
                Verdict::Strict
            } else {
                Verdict::Lenient { opaque }
            }
        }
    }
}

fn faulty(at: &FirstFault) -> Verdict
    ensures { result ≡ verdicts.Faulty at.now.offset at.now.fault }
{
    Verdict::Faulty {
        offset: at.offset,
        fault: at.fault,
    }
}
