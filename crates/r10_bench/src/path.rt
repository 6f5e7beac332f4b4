//! The path of a message: through the lane into a packet.

ghost use Rattle.std.specs.Prelude.{◌≡◌, ◌≤◌, ◌+◌, List, length, None, OnOk};
ghost use Rattle.r10_body.specs.Gaps.{IsSoundGap};
ghost use Rattle.r10_body.specs.Messages.{channel_refusal};
ghost use Rattle.r10_body.specs.declared.entry.Sample.{Sample as SampleValue};
ghost use Rattle.r10_lane.specs.Lanes.{reached};
ghost use Rattle.r10_bench.specs.BuilderAfterLane.{IsBehind};

use crate::figures::Packets;
use r10_body::{Refusal, Sample, Timed};
use r10_builder::Builder;
use r10_lane::{LaneOut, RingLane};

/// Offers the messages to the lane, until one is refused.
pub fn offer_all(messages: Vec<Timed>, lane: &mut RingLane) -> Result<(), Refusal>
    ensures spec { OnOk result (lane.new.spec ≡ lane.old.spec) }
    ensures climbs { OnOk result (reached lane.old ≤ reached lane.new) }
    ensures all { OnOk result (length lane.new.waiting ≡ length lane.old.waiting + length messages.items) }
{
    for Timed { count, message } in messages {
        lane.offer(count, message)?;
    }
    Ok(())
}

/// Packs a message, and gives back the room of the packet that had to be closed before it.
fn pack(sample: Sample, builder: &mut Builder, packets: &mut Packets)
    requires taken { channel_refusal builder.old.spec sample.message ≡ None }
    requires sound { IsSoundGap sample.gap }
    requires behind { IsBehind builder.old.spec sample.count builder.old }
    ensures { IsBehind builder.old.spec sample.count builder.new }
{
    match builder.push_lent(&sample) {
        Ok(None) => (),
        Ok(Some(closed)) => {
            packets.add(&closed);
            builder.recycle(closed);
        }
        Err(_) => unreachable!(),
    }
}

/// Packs what waits in the lane, and answers how many messages that was.
pub fn pack_all<L: LaneOut>(lane: &mut L, builder: &mut Builder, packets: &mut Packets) -> u64
    requires { IsBehind (L.spec_of lane.old) (L.reached lane.old) builder.old }
    ensures behind { IsBehind (L.spec_of lane.new) (L.reached lane.new) builder.new }
    ensures taken { (samples : List SampleValue) × (L.took lane.old samples lane.new × (result ≡ length samples)) }
{
    let mut number = 0;
    for _ in 0..lane.held() {
        let Some(sample) = lane.take() else {
            return number;
        };
        pack(sample, builder, packets);
        number += 1;
    }
    number
}
