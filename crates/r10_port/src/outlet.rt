//! The receiving end.

ghost use Rattle.std.specs.Prelude.{◌≡◌, option_copied};
ghost use Rattle.r10_port.specs.Ends.{sample_in};

use crate::item::Item;
use crate::rule::InOrder;
use r10_body::{ChannelSpec, Sample};
use r10_lane::LaneOut;
use rtrb::Consumer;
use std::alloc::Global;
use std::marker::Model;

/// The receiving end of a lane between two threads.
#[derive(Drop)]
pub struct Outlet {
    pub(crate) consumer: Consumer<Item, Global, InOrder>,
    pub(crate) spec: ChannelSpec,
}

impl Model for Outlet {
    ghost use Rattle.std.specs.Prelude.{◌≡◌, ◌+◌, None, Some, length, slice_get};
    ghost use Rattle.r10_count.specs.Count.{IsCount};
    ghost use Rattle.r10_machine.specs.SoundParts.{count_or_0};
    ghost use Rattle.rtrb.specs.Ring.{received, known_items};
    ghost use Rattle.r10_port.specs.declared.item.Item.TheVariants.{Announce};
    ghost use Rattle.r10_port.specs.Items.{last_count_or, samples};
    ghost use Rattle.r10_port.specs.Ends.{Receiving, ring_of};

    ghost Value = { Receiving };

    ghost view = { λ o. record {
      ring = ring_of o.consumer.end;
      spec = o.spec;
      received = samples (received o.consumer);
      ahead = known_items o.consumer;
    } };

    ghost invariant = { λ o. record {
      announced : slice_get (received o.consumer) 0 ≡ Some (Announce o.spec);
      entries : length (received o.consumer) ≡ length (samples (received o.consumer)) + 1;
      bound : IsCount (count_or_0 (last_count_or None (samples (received o.consumer))));
    } };
}

impl LaneOut for Outlet {
    ghost use Rattle.std.specs.Prelude.{◌≡◌, None, Some};
    ghost use Rattle.r10_port.specs.Ends.{TookReceived, next_known, reached_by_outlet};
    ghost use Rattle.r10_port.specs.Laws.{port_took_joins, port_took_nothing, port_took_stays, port_took_keeps_spec};
    ghost use Rattle.r10_port.specs.Laws.{port_took_rises, port_took_gives, never_quiet};

    ghost spec_of = { λ outlet. outlet.spec };

    ghost took = { TookReceived };

    ghost shows = { λ outlet first. next_known outlet.ahead ≡ Some first };

    ghost reached = { reached_by_outlet };

    ghost quiet = { λ outlet. None };

    fn spec(&self) -> ChannelSpec {
        self.spec
    }

    fn in_range(&self) {
        let _ = &self.consumer;
    }

    fn front(&mut self) -> Option<&Sample> {
        if self.consumer.is_empty() {
            return None;
        }
        sample_of(self.consumer.peek_known())
    }

    fn take(&mut self) -> Option<Sample> {
        match self.consumer.pop() {
            Ok(Item::Entry(sample)) => Some(sample),
            Ok(Item::Announce(_)) => unreachable!(),
            Err(_) => None,
        }
    }

    fn held(&mut self) -> usize {
        self.consumer.slots().min(self.spec.capacity)
    }

    ghost joins = { port_took_joins };

    ghost took_none = { port_took_nothing };

    ghost stays = { port_took_stays };

    ghost keeps_spec = { port_took_keeps_spec };

    ghost rises = { port_took_rises };

    ghost gives = { port_took_gives };

    ghost stays_quiet = { never_quiet };
}

/// The sample of an item.
fn sample_of(item: &Item) -> Option<&Sample>
    ensures { option_copied result ≡ sample_in item.now }
{
    match item {
        Item::Entry(sample) => Some(sample),
        Item::Announce(_) => None,
    }
}
