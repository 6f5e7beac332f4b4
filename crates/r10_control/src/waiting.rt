//! What waits in the lanes of one thread, and what was lost before it.

ghost use Rattle.std.specs.Prelude.{◌≡◌, None, Some, IfErr, IfOk, MatchResult, option_map};
ghost use Rattle.r10_body.specs.declared.refusal.Refusal.TheVariants as refusals;
ghost use Rattle.r10_lane.specs.Losing.{losses_of};
ghost use Rattle.r10_machine.specs.Checks.{offer_refusal};
ghost use Rattle.r10_machine.specs.Machine.{lane_in};
ghost use Rattle.r10_control.specs.Lanes.{HaveRisen, StandsWithout, TakesWaiting};

use crate::pumping::place_of;
use crate::recorder::Recorder;
use r10_body::{Message, Refusal, Sample};
use r10_lane::{LaneOut, Losses, RingLane};
use r10_medium::BlockMedium;

impl<M: BlockMedium> Recorder<M, RingLane> {
    /// What an offer of this message to a channel would be refused by, as `offer` has it, in any mode. Nothing is offered, and no
    /// loss is counted.
    pub fn would_take(&self, channel: u16, count: u64, message: &Message) -> Result<(), Refusal>
        ensures { MatchResult result (λ _. offer_refusal (lane_in channel self.now.lanes) count message.now ≡ None)
            (λ r. offer_refusal (lane_in channel self.now.lanes) count message.now ≡ Some r) }
    {
        asked(self.lanes.as_slice(), channel, count, message)
    }

    /// Takes the first message that waits on a channel out of its lane, in any mode, with the loss before it. No file of this
    /// recorder has it then, and the next one that waits is the first. `None` where none waits. Refused: NoSuchChannel.
    pub fn take_waiting(&mut self, channel: u16) -> Result<Option<Sample>, Refusal>
        ensures takes { TakesWaiting channel self.old.lanes result self.new.lanes }
        ensures stands { IfOk result (λ _. StandsWithout channel self.old.kept (M.disk self.old.medium).blocks
            (M.disk self.old.medium).failures self.old.lanes self.new.lanes) }
        ensures kept { self.new.kept ≡ self.old.kept }
        ensures medium { self.new.medium ≡ self.old.medium }
    {
        take_in(&mut self.lanes, channel)
    }

    /// How many messages of a channel were lost in all, since the last one that was accepted, and before those that wait, up to
    /// `u64::MAX` each. Refused: NoSuchChannel.
    pub fn losses(&self, channel: u16) -> Result<Losses, Refusal>
        ensures losses { IfOk result (λ losses. option_map losses_of (lane_in channel self.now.lanes) ≡ Some losses) }
        ensures refused { IfErr result (λ r. (r ≡ refusals.NoSuchChannel) × (lane_in channel self.now.lanes ≡ None)) }
    {
        match losses_in(self.lanes.as_slice(), channel) {
            Some(losses) => Ok(losses),
            None => Err(Refusal::NoSuchChannel),
        }
    }
}

/// What an offer to a channel would be refused by.
fn asked(lanes: &[RingLane], channel: u16, count: u64, message: &Message) -> Result<(), Refusal>
    ensures { MatchResult result (λ _. offer_refusal (lane_in channel lanes.now) count message.now ≡ None)
        (λ r. offer_refusal (lane_in channel lanes.now) count message.now ≡ Some r) }
{
    match place_of(lanes, channel) {
        Some(at) => lanes[at].would_take(count, message),
        None => Err(Refusal::NoSuchChannel),
    }
}

/// The first message that waits on a channel is taken out of its lane.
fn take_in(lanes: &mut Vec<RingLane>, channel: u16) -> Result<Option<Sample>, Refusal>
    ensures takes { TakesWaiting channel lanes.old.items result lanes.new.items }
    ensures risen { HaveRisen lanes.old.items lanes.new.items }
{
    let Some(at) = place_of(lanes.as_slice(), channel) else {
        return Err(Refusal::NoSuchChannel);
    };
    let lane = &mut lanes[at];
    let first = lane.take();
    Ok(first)
}

/// What a channel's lane has lost.
fn losses_in(lanes: &[RingLane], channel: u16) -> Option<Losses>
    ensures { result ≡ option_map losses_of (lane_in channel lanes.now) }
{
    match place_of(lanes, channel) {
        Some(at) => Some(lanes[at].losses()),
        None => None,
    }
}
