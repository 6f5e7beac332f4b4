//! The end of a session.

ghost use Rattle.std.specs.Prelude.{◌≡◌, IfErr, IfOk};
ghost use Rattle.r10_held.specs.Recorder.{failed};
ghost use Rattle.r10_shared.specs.Failing.{AreMovedToReports};
ghost use Rattle.r10_shared.specs.Settling.{AreWrittenDown, IsEndRefusal, Settles, end_refusal};

use crate::report::SessionReport;
use crate::room::{drain_all, hand_over, rooms_for, transcripts_for};
use crate::session::Session;
use r10_body::Refusal;
use r10_held::{Cabinet, Held, Rings};
use r10_medium::BlockMedium;
use std::alloc::Global;
use std::snapshot::Snapshot;

/// The recorder out of the lock, and of each feed what was left of its lane, whether the recorder failed or not. Where memory is
/// refused, all comes back as it was.
pub(crate) fn settle<M: BlockMedium, N: Rings>(
    alloc: Global,
    held: Held<M, N>,
    session: Session<N>,
) -> Result<SessionReport<M>, (Held<M, N>, Session<N>)>
    ensures moved { IfOk result
        (λ report. AreMovedToReports (λ feed. feed.line) (λ feed. feed.tally) N.rings held.recorder session.feeds.items
        report.feeds.items) }
    ensures recorder { IfOk result
        (λ report. (report.recorder.kept ≡ held.recorder.kept) × (report.recorder.medium ≡ held.recorder.medium)) }
    ensures lanes { IfOk result (λ report. report.lanes.value.items ≡ held.recorder.lanes) }
    ensures transcripts { IfOk result (λ report. AreWrittenDown session.readings.items report.transcripts.items) }
    ensures refused { IfErr result (λ back. (back.0 ≡ held) × (back.1 ≡ session)) }
{
    held.look();
    let Some(reports) = rooms_for(alloc, &held, session.feeds.as_slice()) else {
        return Err((held, session));
    };
    let Some(transcripts) = transcripts_for(alloc, session.readings.as_slice()) else {
        return Err((held, session));
    };
    match held.apart() {
        Ok((recorder, outlets)) => {
            let Session { feeds, readings } = session;
            let mut outlets = outlets;
            let mut feeds = feeds;
            let mut readings = readings;
            let mut reports = reports;
            let mut transcripts = transcripts;
            let lanes = Snapshot::of(&outlets);
            drain_all(&mut outlets, &mut feeds, &mut reports);
            hand_over(&mut transcripts, &mut readings);
            Ok(SessionReport {
                recorder,
                feeds: reports,
                transcripts,
                lanes,
            })
        }
        Err(back) => Err((back, session)),
    }
}

/// The end of a session, by what the lock kept. Refused: Failed where the recorder failed, OutOfMemory; then all comes back as it
/// was.
pub fn end_held<M: BlockMedium, N: Rings>(
    alloc: Global,
    held: Held<M, N>,
    session: Session<N>,
) -> Result<SessionReport<M>, (Held<M, N>, Session<N>, Refusal)>
    ensures settled { IfOk result (λ report. Settles (λ feed. feed.line) (λ feed. feed.tally) report.recorder.kept
        (M.disk report.recorder.medium).blocks session.feeds.items report.feeds.items) }
    ensures recorder { IfOk result
        (λ report. (report.recorder.kept ≡ held.recorder.kept) × (report.recorder.medium ≡ held.recorder.medium)) }
    ensures works { IfOk result (λ report. report.recorder.kept.work ≡ failed → ⊥) }
    ensures transcripts { IfOk result (λ report. AreWrittenDown session.readings.items report.transcripts.items) }
    ensures refused { IfErr result (λ back. (back.0 ≡ held) × (back.1 ≡ session) × IsEndRefusal held.recorder.kept.work back.2) }
{
    held.look();
    if held.has_failed() {
        return Err((held, session, Refusal::Failed));
    }
    match settle(alloc, held, session) {
        Ok(report) => Ok(report),
        Err((held, session)) => Err((held, session, Refusal::OutOfMemory)),
    }
}

/// The end of a session, once no thread shares the cabinet any more. Refused: Failed where the recorder failed, else OutOfMemory;
/// then all comes back as it was, and the cabinet that comes back was made of that recorder.
pub fn end_session<M: BlockMedium, N: Rings>(
    alloc: Global,
    cabinet: Cabinet<M, N>,
    session: Session<N>,
) -> Result<SessionReport<M>, (Cabinet<M, N>, Session<N>, Refusal)>
    ensures settled { IfOk result (λ report. Settles (λ feed. feed.line) (λ feed. feed.tally) report.recorder.kept
        (M.disk report.recorder.medium).blocks session.feeds.items report.feeds.items) }
    ensures works { IfOk result (λ report. report.recorder.kept.work ≡ failed → ⊥) }
    ensures transcripts { IfOk result (λ report. AreWrittenDown session.readings.items report.transcripts.items) }
    ensures refused { IfErr result (λ back. (back.0.gauge ≡ cabinet.gauge) × (back.1 ≡ session)
        × (back.2 ≡ end_refusal back.0.had_failed)) }
{
    let (held, watch) = cabinet.into_parts();
    match end_held(alloc, held, session) {
        Ok(report) => Ok(report),
        Err((held, session, refusal)) => Err((Cabinet::of_parts(held, watch), session, refusal)),
    }
}
