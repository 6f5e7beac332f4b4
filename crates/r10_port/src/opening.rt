//! A new lane.

ghost use Rattle.std.specs.Prelude.{◌≡◌, [], IfOk, max};
ghost use Rattle.r10_machine.specs.Machine.{fresh_lane};
ghost use Rattle.r10_port.specs.Ends.{places};

use crate::item::Item;
use crate::outlet::Outlet;
use crate::port::Port;
use crate::rule::InOrder;
use r10_body::ChannelSpec;
use rtrb::RingBuffer;
use std::alloc::{AllocError, Global};

/// The two ends of a lane between two threads, with room for as many samples as the channel's capacity and no more, through which
/// nothing has gone yet. A lane of capacity 0 accepts nothing: its ring has one place, for what the channel is set to. This takes
/// all the memory that the lane ever takes.
pub fn lane(alloc: Global, spec: ChannelSpec) -> Result<(Port, Outlet), AllocError>
    ensures port { IfOk result (λ ends. (ends.0.lane ≡ fresh_lane spec) × (ends.0.free ≡ spec.capacity)) }
    ensures outlet { IfOk result (λ ends. (ends.1.spec ≡ spec) × (ends.1.received ≡ [])) }
    ensures ring { IfOk result (λ ends. ends.1.ring ≡ ends.0.ring) }
    ensures places { IfOk result (λ ends. places ends.0.ring ≡ max spec.capacity 1) }
{
    // room for what the channel is set to, which goes through first
    let room = spec.capacity.max(1);
    let (mut producer, mut consumer) = RingBuffer::with_protocol::<Global, InOrder>(alloc, room)?;
    producer.push_reserved(Item::Announce(spec));
    consumer.slots_beside(&mut producer);
    let _announced = consumer.pop_known();
    producer.slots_beside(&mut consumer);
    let port = Port {
        producer,
        spec,
        last: None,
        missed: 0,
        sent: 0,
        lost: 0,
    };
    Ok((port, Outlet { consumer, spec }))
}
