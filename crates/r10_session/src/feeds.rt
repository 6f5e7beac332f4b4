//! Feeds, each with its table's items and the sending end of its channel's lane.

ghost use Rattle.std.specs.Prelude.{◌≡◌, ◌==◌, ℕ, false, All, IfOk, IsSomeAnd, List, map};
ghost use Rattle.std.specs.List.{AllByRecursion, AllZip};
ghost use Rattle.r10_body.specs.declared.entry.Entry.{Entry as EntryValue};
ghost use Rattle.r10_body.specs.declared.spec.ChannelSpec.{ChannelSpec as SpecValue};
ghost use Rattle.r10_shared.specs.Recorder.{AreOwn};
ghost use Rattle.r10_medium.specs.MemoryDisk.{memory_disk};
ghost use Rattle.r10_session.specs.Feeds.{FeedCame, feed_end};
ghost use Rattle.r10_session.specs.Lanes.{HasSender, IsFresh, IsRingNamed, IsUnused};
ghost use Rattle.r10_session.specs.Readers.{IsReadOf};
ghost use Rattle.r10_script.specs.Session.{AreApart};

use crate::ends::{Sender, take_port};
use crate::fault::SessionFault;
use crate::list_source::ListSource;
use crate::session::run_to_end;
use r10_medium::Memory;
use r10_script::FeedTable;
use r10_shared::{Cabinet, Feed, Order, Player, Rings, SessionReport};
use r10_source::ChannelSource;
use std::alloc::Global;
use std::sync::Wait;
use std::thread::Threads;

/// A feed of this channel and source, with the sending end of the channel's lane, which is taken from among these.
fn feed_of<N: Rings>(
    senders: &mut Vec<Sender>,
    channel: u16,
    source: Box<dyn ChannelSource + Send>,
) -> Feed<N>
    requires named { All (IsRingNamed N.rings) senders.old.items }
    requires there { HasSender senders.old.items channel }
    ensures named { All (IsRingNamed N.rings) senders.new.items }
    ensures others { (other : ℕ) → (channel == other) ≡ false → HasSender senders.old.items other
        → HasSender senders.new.items other }
    ensures fresh { (specs : List SpecValue) → All (IsFresh specs) senders.old.items → All (IsFresh specs) senders.new.items }
    ensures unused { (specs : List SpecValue) → All (IsFresh specs) senders.old.items → IsUnused specs channel result.line.port }
    ensures channel { result.line.channel ≡ channel }
    ensures source { IsSomeAnd result.source (λ s. rest s ≡ rest source) }
{
    match take_port(senders, channel) {
        Some(port) => Feed::new(channel, source, port),
        None => unreachable!(),
    }
}

/// Runs a feed for each of these tables, orders and players at the same time, to their report: each source, of a table's items, is
/// made here, and the run uses it up.
pub(crate) fn run_tables<N: Rings + Send + Sync, T: Threads + Wait + Sync>(
    rt: &T,
    alloc: Global,
    cabinet: Cabinet<Memory, N>,
    senders: Vec<Sender>,
    tables: Vec<FeedTable>,
    orders: Vec<Order>,
    players: Vec<Player>,
) -> Result<SessionReport<Memory>, SessionFault>
    requires named { All (IsRingNamed N.rings) senders.items }
    requires there { AllByRecursion (λ table. HasSender senders.items table.channel) tables.items }
    requires apart { AreApart tables.items }
    requires players { All (λ player. player.pass.cell ≡ cabinet.gauge) players.items }
    ensures feeds { (specs : List SpecValue) → All (IsFresh specs) senders.items → IfOk result
        (λ report. (own : List EntryValue) × AreOwn report.recorder.kept (memory_disk report.recorder.medium).blocks own
        × AllZip (FeedCame specs own) tables.items (map feed_end report.feeds.items)) }
    ensures readers { IfOk result
        (λ report. AllZip (λ player transcript. IsReadOf player.cursor transcript) players.items report.transcripts.items) }
{
    let mut left = senders;
    let mut feeds = Vec::new(alloc);
    for table in tables {
        let FeedTable { channel, items } = table;
        let source: Box<dyn ChannelSource + Send> = Box::new(alloc, ListSource::of(items))?;
        feeds.push(feed_of::<N>(&mut left, channel, source))?;
    }
    run_to_end(rt, alloc, cabinet, feeds, orders, players)
}
