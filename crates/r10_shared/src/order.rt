//! What control asks of the recorder.

ghost use Rattle.std.specs.Prelude.{◌≡◌, IfErr, MatchResult, None, OnOk, Some};
ghost use Rattle.r10_held.specs.Recorder.{MachinesKeepShown, recorder_refusal};
ghost use Rattle.r10_shared.specs.Orders.{HasDone, LanesStayBut, LeavesAs, OwnsAs, Performs};
ghost use Rattle.r10_shared.specs.Orders.{PublishesAs, RefusesAs, event_of, order_of};

use r10_body::Refusal;
use r10_count::{Items, Parts};
use r10_held::{Held, Rings};
use r10_machine::{Event, Reply};
use r10_medium::BlockMedium;
use std::sync::Wait;

/// An order to the recorder, as one of its calls with what the call is given.
#[derive(Drop)]
pub enum Order {
    Mount,
    Dismount,
    Tick { count: u64, parts: Parts },
    Start { name: Items<u8>, setup: Items<u8> },
    Stop,
    Event { number: u16, count: u64 },
    Commit,
    Seal,
    Erase,
}

impl Order {
    /// The order that an event is; another event comes back.
    pub fn of(event: Event) -> Result<Order, Event>
        ensures { MatchResult result (λ order. order_of event ≡ Some order) (λ other. (order_of event ≡ None) × (other ≡ event)) }
    {
        match event {
            Event::Mount => Ok(Order::Mount),
            Event::Dismount => Ok(Order::Dismount),
            Event::Tick { count, parts } => Ok(Order::Tick { count, parts }),
            Event::Start { name, setup } => Ok(Order::Start { name, setup }),
            Event::Stop => Ok(Order::Stop),
            Event::Event { number, count } => Ok(Order::Event { number, count }),
            Event::Commit => Ok(Order::Commit),
            Event::Seal => Ok(Order::Seal),
            Event::Erase => Ok(Order::Erase),
            other => Err(other),
        }
    }

    /// Asks it of the recorder under the lock: Done, or of a stop how many samples it took and how many are left. Refused as that
    /// call.
    pub fn perform<M: BlockMedium, N: Rings, R: Wait>(
        &self,
        rt: &R,
        held: &mut Held<M, N>,
    ) -> Result<Reply, Refusal>
        ensures passed { OnOk result (recorder_refusal held.old.recorder.kept (event_of self.now) ≡ None) }
        ensures refused { IfErr result (RefusesAs M.disk self.now held.old held.new) }
        ensures performs { Performs M.disk self.now held.old held.new result }
        ensures effect { OnOk result (HasDone M.disk self.now held.old held.new) }
        ensures lanes { LanesStayBut self.now held.old held.new }
        ensures owned { OwnsAs M.disk self.now held.old held.new result }
        ensures shown { MachinesKeepShown held.old.recorder.kept (M.disk held.old.recorder.medium).blocks
            (M.disk held.old.recorder.medium).failures (M.disk held.new.recorder.medium).blocks }
        ensures power_loss { LeavesAs M.disk self.now held.old held.new result }
        ensures publishes { PublishesAs self.now held.old held.new result }
        ensures config { held.new.recorder.kept.config ≡ held.old.recorder.kept.config }
    {
        match self {
            Order::Mount => match held.mount() {
                Ok(()) => Ok(Reply::Done),
                Err(refusal) => Err(refusal),
            },
            Order::Dismount => match held.dismount() {
                Ok(()) => Ok(Reply::Done),
                Err(refusal) => Err(refusal),
            },
            Order::Tick { count, parts } => match held.tick(*count, *parts) {
                Ok(()) => Ok(Reply::Done),
                Err(refusal) => Err(refusal),
            },
            Order::Start { name, setup } => match held.start_file(
                rt,
                name.as_slice(),
                setup.as_slice(),
            ) {
                Ok(()) => Ok(Reply::Done),
                Err(refusal) => Err(refusal),
            },
            Order::Stop => match held.stop_file(rt) {
                Ok(stopped) => Ok(Reply::Stopped(stopped)),
                Err(refusal) => Err(refusal),
            },
            Order::Event { number, count } => match held.event(*number, *count) {
                Ok(()) => Ok(Reply::Done),
                Err(refusal) => Err(refusal),
            },
            Order::Commit => match held.commit(rt) {
                Ok(()) => Ok(Reply::Done),
                Err(refusal) => Err(refusal),
            },
            Order::Seal => match held.seal() {
                Ok(()) => Ok(Reply::Done),
                Err(refusal) => Err(refusal),
            },
            Order::Erase => match held.erase(rt) {
                Ok(()) => Ok(Reply::Done),
                Err(refusal) => Err(refusal),
            },
        }
    }
}
