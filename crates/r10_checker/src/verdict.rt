//! The verdict on a file that was walked.

ghost use Rattle.std.specs.Prelude.{◌≡◌, ℕ, List, true};
ghost use Rattle.r10_checker.specs.Verdict.{IsVerdict};
ghost use Rattle.r10_judge.specs.Walks.{IsWalked};

use crate::{Verdict, end_verdict};
use r10_judge::Walked;

/// The verdict on a file that was walked up to its end, or up to a packet that no recorder wrote.
pub(crate) fn walked_verdict(walked: &Walked) -> Verdict
    ensures { (bytes : List ℕ) → IsWalked bytes walked.now → walked.now.walk.judge.closed ≡ true → IsVerdict bytes result }
{
    match walked.fault {
        Some(fault) => Verdict::Faulty {
            offset: walked.walk.track.offset,
            fault,
        },
        None => end_verdict(&walked.walk.track, &walked.walk.judge),
    }
}
