//! The end of a session whose recorder failed.

ghost use Rattle.std.specs.Prelude.{◌≡◌, IfErr, IfOk};
ghost use Rattle.r10_held.specs.Recorder.{failed};
ghost use Rattle.r10_shared.specs.Failing.{FailedSettles, IsNotEnded, why_not_ended};
ghost use Rattle.r10_shared.specs.Settling.{AreWrittenDown};

use crate::ending::settle;
use crate::report::SessionReport;
use crate::session::Session;
use r10_held::{Cabinet, Held, Rings};
use r10_medium::BlockMedium;
use std::alloc::Global;

/// Why a session is not ended as one whose recorder failed.
#[derive(Clone, Copy)]
pub enum NotEnded {
    /// The recorder did not fail: `end_session` ends such a session.
    Works,
    /// Memory was refused.
    OutOfMemory,
}

/// The end of a session whose recorder failed, by what the lock kept. The recorder comes as it is, with its medium. Where it did
/// not fail, and where memory is refused, all comes back as it was.
pub fn end_failed_held<M: BlockMedium, N: Rings>(
    alloc: Global,
    held: Held<M, N>,
    session: Session<N>,
) -> Result<SessionReport<M>, (Held<M, N>, Session<N>, NotEnded)>
    ensures settled { IfOk result (λ report. FailedSettles (λ feed. feed.line)
        (λ feed. feed.tally) held.recorder.kept held.recorder.lanes session.feeds.items report.feeds.items) }
    ensures fails { IfOk result (λ report. report.recorder.kept.work ≡ failed) }
    ensures recorder { IfOk result
        (λ report. (report.recorder.kept ≡ held.recorder.kept) × (report.recorder.medium ≡ held.recorder.medium)) }
    ensures lanes { IfOk result (λ report. report.lanes.value.items ≡ held.recorder.lanes) }
    ensures transcripts { IfOk result (λ report. AreWrittenDown session.readings.items report.transcripts.items) }
    ensures refused { IfErr result (λ back. (back.0 ≡ held) × (back.1 ≡ session) × IsNotEnded held.recorder.kept.work back.2) }
{
    held.look();
    if !held.has_failed() {
        return Err((held, session, NotEnded::Works));
    }
    match settle(alloc, held, session) {
        Ok(report) => Ok(report),
        Err((held, session)) => Err((held, session, NotEnded::OutOfMemory)),
    }
}

/// The end of a session whose recorder failed, once no thread shares the cabinet any more. Where it did not fail, and where memory
/// is refused, all comes back as it was, and the cabinet that comes back was made of that recorder.
pub fn end_failed_session<M: BlockMedium, N: Rings>(
    alloc: Global,
    cabinet: Cabinet<M, N>,
    session: Session<N>,
) -> Result<SessionReport<M>, (Cabinet<M, N>, Session<N>, NotEnded)>
    ensures settled { IfOk result (λ report. FailedSettles (λ feed. feed.line)
        (λ feed. feed.tally) report.recorder.kept report.lanes.value.items session.feeds.items report.feeds.items) }
    ensures fails { IfOk result (λ report. report.recorder.kept.work ≡ failed) }
    ensures transcripts { IfOk result (λ report. AreWrittenDown session.readings.items report.transcripts.items) }
    ensures refused { IfErr result (λ back. (back.0.gauge ≡ cabinet.gauge) × (back.1 ≡ session)
        × (back.2 ≡ why_not_ended back.0.had_failed)) }
{
    let (held, watch) = cabinet.into_parts();
    match end_failed_held(alloc, held, session) {
        Ok(report) => Ok(report),
        Err((held, session, why)) => Err((Cabinet::of_parts(held, watch), session, why)),
    }
}
