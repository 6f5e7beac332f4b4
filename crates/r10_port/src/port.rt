//! The sending end.

ghost use Rattle.std.specs.Prelude.{◌≡◌, ◌<◌, ◌≤◌, ◌+◌, ◌-◌, ◌++◌, [], ◌∷◌, OnOk, OnErr, length, min};
ghost use Rattle.rtrb.specs.Ring.{SameProducer, known_free, sent as pushed};
ghost use Rattle.r10_machine.specs.Machine.{saturated};
ghost use Rattle.r10_port.specs.Items.{ItemMayFollow};
ghost use Rattle.r10_port.specs.Ends.{Offered, sent, with_losses};

use crate::item::Item;
use crate::rule::InOrder;
use r10_body::{ChannelSpec, Gap, Message, Refusal, Sample};
use r10_count::Count;
use r10_machine::check_offer;
use rtrb::{Producer, PushError};
use std::alloc::Global;
use std::marker::Model;

/// The sending end of a lane between two threads.
#[derive(Drop)]
pub struct Port {
    pub(crate) producer: Producer<Item, Global, InOrder>,
    pub(crate) spec: ChannelSpec,
    pub(crate) last: Option<Count>,
    pub(crate) missed: u64,
    pub(crate) sent: u64,
    pub(crate) lost: u64,
}

impl Model for Port {
    ghost use Rattle.std.specs.Prelude.{◌≡◌, ◌+◌, [], Some, None, length, max, min, slice_get};
    ghost use Rattle.rtrb.specs.Ring.{sent as pushed, known_free, producer_capacity};
    ghost use Rattle.r10_machine.specs.Machine.{saturated};
    ghost use Rattle.r10_port.specs.declared.item.Item.TheVariants.{Announce};
    ghost use Rattle.r10_port.specs.Items.{samples, last_count_or};
    ghost use Rattle.r10_port.specs.Ends.{Sending, ring_of};

    ghost Value = { Sending };

    ghost view = { λ p. record {
      ring = ring_of p.producer.end;
      lane = record {
        spec = p.spec;
        waiting = samples (pushed p.producer);
        last = p.last;
        missed = p.missed;
        lost = p.lost;
        erased = 0;
      };
      free = min p.spec.capacity (known_free p.producer);
    } };

    ghost invariant = { λ p. record {
      announced : slice_get (pushed p.producer) 0 ≡ Some (Announce p.spec);
      last : last_count_or None (samples (pushed p.producer)) ≡ p.last;
      counted : p.sent ≡ saturated (length (samples (pushed p.producer)));
      entries : length (pushed p.producer) ≡ length (samples (pushed p.producer)) + 1;
      places : producer_capacity p.producer ≡ max p.spec.capacity 1;
      room : p.spec.capacity ≡ 0 → samples (pushed p.producer) ≡ [];
    } };
}

impl Port {
    /// Sends a message, with how many were lost since the last one that was sent. Else says why not, by the first
    /// of these that applies: WrongKind, BadMessage, TooLong, CountBack, or Overflow where as many wait as the capacity. An
    /// overflow counts the message as lost; every other refusal leaves the port as it was. A lane of capacity 0 accepts no
    /// message. This takes no memory and waits for nobody.
    pub fn offer(&mut self, count: Count, message: Message) -> Result<(), Refusal>
        ensures offered { Offered self.old count message result self.new }
        ensures room { OnOk result (0 < self.old.lane.spec.capacity) }
    {
        if let Err(refusal) = check_offer(&self.spec, self.last, count.get(), &message) {
            return Err(refusal);
        }
        let gap = Gap::after(self.missed);
        let sample = Sample {
            count,
            message,
            gap,
        };
        let capacity = self.spec.capacity;
        match push_within(&mut self.producer, capacity, Item::Entry(sample)) {
            Ok(()) => {
                self.last = Some(count);
                self.missed = 0;
                self.sent = self.sent.saturating_add(1);
                Ok(())
            }
            Err(_) => {
                self.missed = self.missed.saturating_add(1);
                self.lost = self.lost.saturating_add(1);
                Err(Refusal::Overflow)
            }
        }
    }

    /// The channel lost so many messages that were never offered: the next one that is sent has them in its gap. This takes no
    /// memory and waits for nobody.
    pub fn lose(&mut self, lost: u64)
        ensures { self.new ≡ with_losses lost self.old }
    {
        self.missed = self.missed.saturating_add(lost);
        self.lost = self.lost.saturating_add(lost);
    }

    /// How many messages were sent, up to `u64::MAX`, where it stays.
    pub fn sent(&self) -> u64
        ensures { result ≡ saturated (length (sent self.now)) }
    {
        self.sent
    }

    /// How many messages were lost: refused for want of room, or never offered, up to `u64::MAX`, where it stays.
    pub fn lost(&self) -> u64
        ensures { result ≡ self.now.lane.lost }
    {
        self.lost
    }

    /// Looks how much of what was sent the other end has taken. It may take more at any time. This takes no memory and waits for
    /// nobody.
    pub fn look(&mut self)
        ensures same { self.new ≡ record self.old { free = self.new.free } }
        ensures no_fewer { self.old.free ≤ self.new.free }
    {
        let _room = self.producer.slots();
    }

    /// How many places of the lane are not known to be free: those of what was not taken yet at the last look, and of what was sent
    /// since.
    pub fn waiting(&self) -> usize
        ensures { result ≡ self.now.lane.spec.capacity - self.now.free }
    {
        let capacity = self.spec.capacity;
        capacity.saturating_sub(self.producer.cached_slots())
    }
}

/// Pushes an item, if a lane of this capacity has room for it. One of capacity 0 never has: what room its ring has was for what
/// the channel is set to.
fn push_within(
    producer: &mut Producer<Item, Global, InOrder>,
    capacity: usize,
    item: Item,
) -> Result<(), PushError<Item>>
    requires { 0 < capacity → ItemMayFollow (pushed producer.old) item }
    ensures ring { SameProducer producer.old producer.new }
    ensures ok { OnOk result ((0 < capacity) × (pushed producer.new ≡ pushed producer.old ++ item ∷ [])
        × (min capacity (known_free producer.old) ≤ min capacity (known_free producer.new) + 1)) }
    ensures full { OnErr result ((pushed producer.new ≡ pushed producer.old) × (min capacity (known_free producer.old) ≡ 0)
        × (min capacity (known_free producer.new) ≡ 0)) }
{
    if capacity == 0 {
        return Err(PushError::Full(item));
    }
    producer.push(item)
}
