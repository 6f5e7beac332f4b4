//! A session script, to what came of it.

ghost use Rattle.std.specs.Prelude.{◌≡◌, [], All, IfOk, IsSome, List, Some, map};
ghost use Rattle.std.specs.List.{AllByRecursion};
ghost use Rattle.r10_medium.specs.MemoryDisk.{memory_disk};
ghost use Rattle.r10_session.specs.Came.{CameOf};
ghost use Rattle.r10_session.specs.Lanes.{HasSender, HaveChannels, IsFresh, IsRingNamed};
ghost use Rattle.r10_script.specs.Session.{AreApart};
ghost use Rattle.r10_shared.specs.Orders.{order_of};
ghost use Rattle.r10_shared.specs.Recorder.{AreNamed, IsNew, outlet_received, outlet_spec};
ghost use Rattle.r10_shared.specs.declared.order.Order.{Order as OrderValue};

use crate::beginning::orders_of;
use crate::ended::Left;
use crate::ends::{Sender, lanes_of};
use crate::fault::SessionFault;
use crate::feeds::run_tables;
use crate::readers::{Begun, begin, players_of};
use crate::reports::settle;
use r10_machine::Settings;
use r10_medium::Memory;
use r10_port::Outlet;
use r10_script::{FeedTable, ReaderTable, SessionScript};
use r10_shared::{Cabinet, Gauged, Order, Recorder, Rings, new_recorders_account_for_their_lanes};
use std::alloc::{AllocError, Global};
use std::marker::Brand;
use std::sync::Wait;
use std::thread::Threads;

/// What a session script asks for of a recorder.
#[derive(Drop)]
struct SessionRequest {
    steps: Vec<Order>,
    feeds: Vec<FeedTable>,
    orders: Vec<Order>,
    readers: Vec<ReaderTable>,
}

/// Asks for the steps, and then runs feeds, orders and readers at the same time, each feed with a source of its messages. The
/// senders are the sending ends of the recorder's lanes, whose rings `N` names, as it names the recorder's gauge.
fn run_between<N: Rings + Send + Sync, T: Threads + Wait + Sync>(
    rt: &T,
    alloc: Global,
    gauged: Gauged<Memory>,
    senders: Vec<Sender>,
    asked: SessionRequest,
) -> Result<Left, SessionFault>
    requires new { IsNew memory_disk outlet_spec outlet_received gauged.recorder }
    requires lanes { AreNamed N.rings gauged.recorder.lanes }
    requires gauge { gauged.cell ≡ N.gauge }
    requires named { All (IsRingNamed N.rings) senders.items }
    requires fresh { All (IsFresh gauged.recorder.kept.config.channels) senders.items }
    requires there { AllByRecursion (λ table. HasSender senders.items table.channel) asked.feeds.items }
    requires apart { AreApart asked.feeds.items }
    ensures { IfOk result (λ left. CameOf gauged.recorder.kept.config.channels asked.steps.items asked.feeds.items
        asked.readers.items (memory_disk left.medium).blocks left.ended) }
{
    new_recorders_account_for_their_lanes::<Memory, N>();
    let SessionRequest {
        steps,
        feeds: tables,
        orders,
        readers,
    } = asked;
    let (cabinet, first) = Cabinet::<Memory, N>::new(gauged);
    let mut pass = first;
    let Begun {
        replies,
        refused,
        cursors,
    } = begin(rt, alloc, &cabinet, steps.as_slice(), readers.as_slice())?;
    let players = players_of(alloc, &cabinet, &mut pass, cursors)?;
    let report = run_tables(rt, alloc, cabinet, senders, tables, orders, players)?;
    settle(alloc, report, replies, refused.as_slice())
}

/// A recorder over a fresh medium in memory, which it formats, and these lanes.
fn recorder_of(
    alloc: Global,
    settings: Settings,
    lanes: Vec<Outlet>,
) -> Result<Recorder<Memory, Outlet>, SessionFault>
    requires specs { map outlet_spec lanes.items ≡ settings.channels }
    requires received { AllByRecursion (λ lane. outlet_received lane ≡ []) lanes.items }
    ensures new { IfOk result (λ recorder. IsNew memory_disk outlet_spec outlet_received recorder) }
    ensures lanes { IfOk result (λ recorder. recorder.lanes ≡ lanes.items) }
    ensures config { IfOk result (λ recorder. recorder.kept.config ≡ settings) }
{
    let mut medium = Memory::new(alloc, settings.blocks())?;
    if let Err(refusal) = r10_volume::format(&mut medium, &settings) {
        return Err(SessionFault::of(refusal));
    }
    match Recorder::new(alloc, settings, medium, lanes) {
        Ok(recorder) => Ok(recorder),
        Err(_) => Err(SessionFault::Memory(AllocError)),
    }
}

/// The recorder with a gauge of its own.
fn gauged_of(
    alloc: Global,
    recorder: Recorder<Memory, Outlet>,
) -> Result<Gauged<Memory>, SessionFault>
    ensures { IfOk result (λ gauged. gauged.recorder ≡ recorder) }
{
    match Gauged::new(alloc, recorder) {
        Ok(gauged) => Ok(gauged),
        Err(_) => Err(SessionFault::Memory(AllocError)),
    }
}

/// Runs a session script on a fresh medium in memory, which it formats, and hands out this medium with what came of it.
pub fn run_script<T: Threads + Wait + Sync>(
    rt: &T,
    alloc: Global,
    script: SessionScript,
) -> Result<Left, SessionFault>
    requires steps { All (λ event. IsSome (order_of event)) script.steps.items }
    requires orders { All (λ event. IsSome (order_of event)) script.orders.items }
    requires feeds { HaveChannels script.settings.channels script.feeds.items }
    requires apart { AreApart script.feeds.items }
    ensures { IfOk result
        (λ left. (steps : List OrderValue) × (map order_of script.steps.items ≡ map (λ order. Some order) steps) × CameOf
        script.settings.channels steps script.feeds.items script.readers.items (memory_disk left.medium).blocks left.ended) }
{
    let SessionScript {
        settings,
        steps,
        feeds,
        orders,
        readers,
    } = script;
    let steps = orders_of(alloc, steps)?;
    let orders = orders_of(alloc, orders)?;
    let (senders, lanes) = lanes_of(alloc, settings.channels())?;
    let recorder = recorder_of(alloc, settings, lanes)?;
    let asked = SessionRequest {
        steps,
        feeds,
        orders,
        readers,
    };
    let gauged = gauged_of(alloc, recorder)?;
    run_between::<Brand, T>(rt, alloc, gauged, senders, asked)
}
