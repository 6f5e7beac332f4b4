//! Offers to the lanes of one thread, and losses that are reported of them.

ghost use Rattle.std.specs.Prelude.{◌≡◌, ◌≤◌, ◌^◌, None, Some, IfErr, IfOk, option_map};
ghost use Rattle.r10_body.specs.declared.refusal.Refusal.TheVariants as refusals;
ghost use Rattle.r10_count.specs.Checks.{first_broken};
ghost use Rattle.r10_machine.specs.Checks.{taking_checks};
ghost use Rattle.r10_machine.specs.Machine.{lane_in};
ghost use Rattle.r10_control.specs.Lanes.{AnswersWith, HaveRisen, LosesOn, OffersTo};
ghost use Rattle.r10_machine.specs.declared.event.Event.TheVariants as events;
ghost use Rattle.r10_machine.specs.declared.reply.Reply.TheVariants as replies;

use crate::pumping::place_of;
use crate::recorder::Recorder;
use r10_body::{ChannelSpec, Message, Refusal};
use r10_count::Count;
use r10_lane::{LaneOut, RingLane};
use r10_machine::check_offer;
use r10_medium::BlockMedium;
use r10_refinement::{losses_are_steps, offers_are_steps};

impl<M: BlockMedium> Recorder<M, RingLane> {
    /// Offers a message to a channel, in any mode. Refused: NoSuchChannel, WrongKind, BadMessage, TooLong, CountRange, CountBack,
    /// Overflow. An overflow counts the message as lost, and the next one that is accepted has a gap.
    pub fn offer(&mut self, channel: u16, count: u64, message: Message) -> Result<(), Refusal>
        ensures offers { OffersTo channel self.old.lanes count message result self.new.lanes }
        ensures steps { AnswersWith self.old.lanes self.old.kept (M.disk self.old.medium).blocks (M.disk self.old.medium).failures
            (events.Offer channel count message) (λ _. replies.Done) result self.new.lanes }
        ensures kept { self.new.kept ≡ self.old.kept }
        ensures medium { self.new.medium ≡ self.old.medium }
    {
        // For the proof: an offer is a step of the machine; the channels are within limits.
        offers_are_steps();
        let _channels = self.keeping.settings.channels();
        let Some(at) = place_of(self.lanes.as_slice(), channel) else {
            return Err(Refusal::NoSuchChannel);
        };
        let Some(now) = Count::of(count) else {
            return Err(refuse_late(&self.lanes[at].spec(), count, &message));
        };
        let lane = &mut self.lanes[at];
        lane.offer(now, message)
    }

    /// A channel lost so many messages that were never offered, in any mode: the next one that is accepted has them in its gap,
    /// with those that overflowed. None changes nothing. Refused: NoSuchChannel.
    pub fn lose(&mut self, channel: u16, lost: u64) -> Result<(), Refusal>
        ensures loses { LosesOn channel self.old.lanes lost result self.new.lanes }
        ensures steps { AnswersWith self.old.lanes self.old.kept (M.disk self.old.medium).blocks (M.disk self.old.medium).failures
            (events.Lose channel lost) (λ _. replies.Done) result self.new.lanes }
        ensures kept { self.new.kept ≡ self.old.kept }
        ensures medium { self.new.medium ≡ self.old.medium }
    {
        // For the proof: a loss is a step of the machine; the channels are within limits.
        losses_are_steps();
        let _channels = self.keeping.settings.channels();
        lose_in(&mut self.lanes, channel, lost)
    }

    /// How many messages of a channel were lost, because its lane was full or before they were offered, up to `u64::MAX`. Refused:
    /// NoSuchChannel.
    pub fn lost(&self, channel: u16) -> Result<u64, Refusal>
        ensures lost { IfOk result (λ n. option_map (λ lane. lane.lost) (lane_in channel self.now.lanes) ≡ Some n) }
        ensures refused { IfErr result
            (λ r. (r ≡ refusals.NoSuchChannel) × (option_map (λ lane. lane.lost) (lane_in channel self.now.lanes) ≡ None)) }
    {
        match lost_in(self.lanes.as_slice(), channel) {
            Some(lost) => Ok(lost),
            None => Err(Refusal::NoSuchChannel),
        }
    }
}

/// So many messages of a channel were lost: its lane counts them.
fn lose_in(lanes: &mut Vec<RingLane>, channel: u16, lost: u64) -> Result<(), Refusal>
    ensures loses { LosesOn channel lanes.old.items lost result lanes.new.items }
    ensures risen { HaveRisen lanes.old.items lanes.new.items }
{
    let Some(at) = place_of(lanes.as_slice(), channel) else {
        return Err(Refusal::NoSuchChannel);
    };
    let lane = &mut lanes[at];
    lane.lose(lost);
    Ok(())
}

/// Why a message is refused whose count has more than 48 bits: what its channel refuses of it, or else its count.
fn refuse_late(spec: &ChannelSpec, count: u64, message: &Message) -> Refusal
    requires { 2 ^ 48 ≤ count }
    ensures { first_broken (taking_checks spec.now None count message.now) ≡ Some result }
{
    match check_offer(spec, None, count, message) {
        Ok(now) => {
            // For the proof: the count is in range.
            let _ = now.get();
            Refusal::CountRange
        }
        Err(refusal) => refusal,
    }
}

/// What a channel's lane has lost.
fn lost_in(lanes: &[RingLane], channel: u16) -> Option<u64>
    ensures { result ≡ option_map (λ lane. lane.lost) (lane_in channel lanes.now) }
{
    match place_of(lanes, channel) {
        Some(at) => Some(lanes[at].lost()),
        None => None,
    }
}
