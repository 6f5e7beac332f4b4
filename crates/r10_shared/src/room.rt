//! Room for what is left of a session, and what is moved there.

ghost use Rattle.std.specs.Prelude.{◌≡◌, ◌==◌, ℕ, IfSome, IsSomeAnd};
ghost use Rattle.std.specs.List.{list_any, position};
ghost use Rattle.r10_shared.specs.Settling.{AreBegun, AreReady, AreWrittenDown, Drains};
ghost use Rattle.r10_shared.specs.Settling.{HasDrained, IsReportReady, MayDrain, receiving_of};

use crate::feed::Feed;
use crate::line::ChannelPort;
use crate::reading::Transcribing;
use crate::report::FeedReport;
use r10_held::{Held, Rings, Transcript};
use r10_lane::LaneOut;
use r10_medium::BlockMedium;
use r10_port::Outlet;
use std::alloc::Global;
use std::mem;

/// The report of a feed, with room for the rest. None where memory is refused, where the recorder has no such channel, and where
/// the number of messages that were sent is not known.
fn room_for<M: BlockMedium, N: Rings>(
    alloc: Global,
    held: &Held<M, N>,
    feed: &Feed<N>,
) -> Option<FeedReport>
    ensures { IfSome result (IsReportReady N.rings held.now.recorder.kept feed.now.line feed.now.tally) }
{
    feed.line.is_named();
    let channel = feed.line.channel();
    let accepted = feed.line.sent();
    if accepted == u64::MAX {
        return None;
    }
    let taken = held.taken(channel)?;
    let erased = held.erased(channel)?;
    let Ok(rest) = Vec::with_capacity(alloc, accepted.saturating_sub(taken) as usize) else {
        return None;
    };
    Some(FeedReport {
        channel,
        accepted,
        refused: feed.tally.refused,
        lost: feed.line.lost(),
        erased,
        filed: taken.saturating_sub(erased),
        rest,
    })
}

/// Whether one of the reports is of this channel.
fn has_channel(reports: &[FeedReport], channel: u16) -> bool
    ensures { result ≡ list_any (λ report. report.channel == channel) reports.now }
{
    reports.iter().any(|report| report.channel == channel)
}

/// The reports of all feeds, with room for the rests. None where that of one is, and where two feeds are of one channel.
pub(crate) fn rooms_for<M: BlockMedium, N: Rings>(
    alloc: Global,
    held: &Held<M, N>,
    feeds: &[Feed<N>],
) -> Option<Vec<FeedReport>>
    ensures { IfSome result
        (λ reports. AreReady (λ feed. feed.line) (λ feed. feed.tally) N.rings held.now.recorder.kept feeds.now reports.items) }
{
    let Ok(room) = Vec::with_capacity(alloc, feeds.len()) else {
        return None;
    };
    let mut reports: Vec<FeedReport> = room;
    for place in 0..feeds.len() {
        let report = room_for(alloc, held, &feeds[place])?;
        if has_channel(&reports, report.channel) {
            return None;
        }
        reports.push_reserved(report);
    }
    Some(reports)
}

/// The place of a channel's lane.
fn place_of(outlets: &[Outlet], channel: u16) -> Option<usize>
    ensures { result ≡ position (λ outlet. outlet.spec.id == channel) outlets.now }
{
    outlets
        .iter()
        .position(|outlet| outlet.spec().id == channel)
}

/// Moves what is left of a channel's lane into the room of its report.
fn drain_one<N: Rings>(
    outlets: &mut Vec<Outlet>,
    line: &mut ChannelPort<N>,
    report: &mut FeedReport,
)
    requires { IsSomeAnd (receiving_of line.old.channel outlets.old.items) (λ outlet. outlet.ring ≡ line.old.port.ring) }
    ensures drained { IsSomeAnd (receiving_of line.old.channel outlets.old.items)
        (λ outlet. Drains outlet line.old.port report.old report.new) }
    ensures others { (channel : ℕ) → (channel ≡ line.old.channel → ⊥)
        → receiving_of channel outlets.new.items ≡ receiving_of channel outlets.old.items }
{
    let Some(at) = place_of(outlets, line.channel()) else {
        return;
    };
    line.drain(&mut outlets[at], &mut report.rest);
}

/// Moves what is left of all lanes into the room of their reports.
pub(crate) fn drain_all<N: Rings>(
    outlets: &mut Vec<Outlet>,
    feeds: &mut Vec<Feed<N>>,
    reports: &mut Vec<FeedReport>,
)
    requires { MayDrain (λ feed. feed.line) outlets.old.items feeds.old.items reports.old.items }
    ensures { HasDrained (λ feed. feed.line) outlets.old.items feeds.old.items reports.old.items reports.new.items }
{
    for place in 0..reports.len() {
        drain_one(outlets, &mut feeds[place].line, &mut reports[place]);
    }
}

/// What the players are to read, with nothing of what they wrote down. None where memory is refused.
pub(crate) fn transcripts_for(alloc: Global, readings: &[Transcribing]) -> Option<Vec<Transcript>>
    ensures { IfSome result (λ transcripts. AreBegun readings.now transcripts.items) }
{
    let Ok(room) = Vec::with_capacity(alloc, readings.len()) else {
        return None;
    };
    let mut transcripts: Vec<Transcript> = room;
    for place in 0..readings.len() {
        let Ok(transcript) = Transcript::of(alloc, readings[place].player.cursor()) else {
            return None;
        };
        transcripts.push_reserved(transcript);
    }
    Some(transcripts)
}

/// Hands over what the players wrote down.
pub(crate) fn hand_over(transcripts: &mut Vec<Transcript>, readings: &mut Vec<Transcribing>)
    requires { AreBegun readings.old.items transcripts.old.items }
    ensures { AreWrittenDown readings.old.items transcripts.new.items }
{
    for place in 0..transcripts.len() {
        mem::swap(
            &mut transcripts[place].instalments,
            &mut readings[place].instalments,
        );
    }
}
