//! A session, to its report.

ghost use Rattle.std.specs.Prelude.{◌≡◌, All, IfOk, IsSomeAnd, List};
ghost use Rattle.std.specs.List.{AllZip};
ghost use Rattle.r10_body.specs.declared.entry.Entry.{Entry as EntryValue};
ghost use Rattle.r10_source.specs.declared.source.SourceItem.{SourceItem as TurnValue};
ghost use Rattle.r10_medium.specs.MemoryDisk.{memory_disk};
ghost use Rattle.r10_session.specs.Feeds.{Comes, Zipped};
ghost use Rattle.r10_session.specs.Readers.{IsReadOf};
ghost use Rattle.r10_shared.specs.Recorder.{AreOwn};
ghost use Rattle.r10_shared.specs.Settling.{AreWrittenDown, Settles};

use crate::fault::SessionFault;
use r10_medium::Memory;
use r10_shared::{
    Cabinet, Feed, Open, Order, Player, Rings, Session, SessionReport, end_session, run_session,
};
use std::alloc::{AllocError, Global};
use std::sync::Wait;
use std::thread::Threads;

/// The report of a session that has ended.
fn finish<N: Rings>(
    alloc: Global,
    cabinet: Cabinet<Memory, N>,
    session: Session<N>,
) -> Result<SessionReport<Memory>, SessionFault>
    ensures settled { IfOk result (λ report. Settles (λ feed. feed.line) (λ feed. feed.tally) report.recorder.kept
        (memory_disk report.recorder.medium).blocks session.feeds.items report.feeds.items) }
    ensures transcripts { IfOk result (λ report. AreWrittenDown session.readings.items report.transcripts.items) }
{
    match end_session(alloc, cabinet, session) {
        Ok(report) => Ok(report),
        Err((_, _, refusal)) => Err(SessionFault::of(refusal)),
    }
}

/// Runs feeds, orders and players at the same time, to their report.
pub(crate) fn run_to_end<N: Rings + Send + Sync, T: Threads + Wait + Sync>(
    rt: &T,
    alloc: Global,
    cabinet: Cabinet<Memory, N>,
    feeds: Vec<Feed<N>>,
    orders: Vec<Order>,
    players: Vec<Player>,
) -> Result<SessionReport<Memory>, SessionFault>
    requires { All (λ player. player.pass.cell ≡ cabinet.gauge) players.items }
    ensures feeds { IfOk result
        (λ report. (own : List EntryValue) × AreOwn report.recorder.kept (memory_disk report.recorder.medium).blocks own
        × Zipped feeds.items report.feeds.items (λ feed reported. (items : List TurnValue)
        → IsSomeAnd feed.source (λ s. rest (s.vtable, s.value) ≡ items) → Comes own items feed.line reported)) }
    ensures readers { IfOk result
        (λ report. AllZip (λ player transcript. IsReadOf player.cursor transcript) players.items report.transcripts.items) }
{
    let Ok(session) = run_session(rt, alloc, &cabinet, &Open, feeds, orders, players) else {
        return Err(SessionFault::Memory(AllocError));
    };
    finish(alloc, cabinet, session)
}
