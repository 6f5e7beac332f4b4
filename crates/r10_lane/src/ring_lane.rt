//! A lane of one thread.

ghost use Rattle.std.specs.Prelude.{◌≡◌, ◌≤◌, IfOk, MatchResult, None, Some, length, option_copied, slice_get};
ghost use Rattle.r10_count.specs.Count.{IsCount};
ghost use Rattle.r10_machine.specs.Calls.{losing};
ghost use Rattle.r10_machine.specs.Checks.{offer_refusal};
ghost use Rattle.r10_machine.specs.Machine.{fresh_lane};
ghost use Rattle.r10_machine.specs.SoundParts.{count_or_0};
ghost use Rattle.r10_lane.specs.Lanes.{Offers, reached, Waits};
ghost use Rattle.r10_lane.specs.Losing.{losses_of};

use crate::lane_out::LaneOut;
use crate::losses::{Losses, add_losses};
use circular_buffer::HeapCircularBuffer;
use r10_body::{ChannelSpec, Gap, Message, Refusal, Sample};
use r10_count::Count;
use r10_machine::check_offer;
use std::alloc::{AllocError, Global};
use std::marker::Model;

/// A lane of one thread, with room for as many samples as its channel's capacity.
#[derive(Drop)]
pub struct RingLane {
    spec: ChannelSpec,
    waiting: HeapCircularBuffer<Sample, Global>,
    last: Option<Count>,
    missed: u64,
    lost: u64,
}

impl Model for RingLane {
    ghost use Rattle.std.specs.Prelude.{◌≡◌};
    ghost use Rattle.r10_machine.specs.Machine.{Lane};
    ghost use Rattle.r10_machine.specs.SoundParts.{count_or_0};
    ghost use Rattle.r10_lane.specs.Lanes.{Waits};

    ghost Value = { Lane };

    ghost view = { λ l. record {
      spec = l.spec;
      waiting = l.waiting.items;
      last = l.last;
      missed = l.missed;
      lost = l.lost;
      erased = 0;
    } };

    ghost invariant = { λ l. record {
      room : l.waiting.capacity ≡ l.spec.capacity;
      waits : Waits l.spec (count_or_0 l.last) l.waiting.items;
    } };
}

impl RingLane {
    /// A lane of which nothing has come yet. This takes all the memory that the lane ever takes.
    pub fn new(alloc: Global, spec: ChannelSpec) -> Result<RingLane, AllocError>
        ensures { IfOk result (λ lane. lane ≡ fresh_lane spec) }
    {
        Ok(RingLane {
            spec,
            waiting: HeapCircularBuffer::with_capacity(alloc, spec.capacity)?,
            last: None,
            missed: 0,
            lost: 0,
        })
    }

    /// Takes a message in at the end, with how many were lost since the last one. Else
    /// says why not, by the first of these that applies: WrongKind, BadMessage, TooLong, CountBack,
    /// or Overflow where as many wait as the capacity. An overflow counts the message as lost; every
    /// other refusal leaves the lane as it was.
    #[inline(always)]
    pub fn offer(&mut self, count: Count, message: Message) -> Result<(), Refusal>
        ensures offers { Offers self.old count message result self.new }
        ensures climbs { reached self.old ≤ reached self.new }
        ensures spec { self.new.spec ≡ self.old.spec }
    {
        let count = match check_offer(&self.spec, self.last, count.get(), &message) {
            Ok(count) => count,
            Err(refusal) => return Err(refusal),
        };
        let gap = Gap::after(self.missed);
        let sample = Sample {
            count,
            message,
            gap,
        };
        match self.waiting.try_push_back(sample) {
            Ok(()) => {
                self.last = Some(count);
                self.missed = 0;
                Ok(())
            }
            Err(_) => {
                self.missed = self.missed.saturating_add(1);
                self.lost = self.lost.saturating_add(1);
                Err(Refusal::Overflow)
            }
        }
    }

    /// What an offer of this message would be refused by, as `offer` has it. Nothing is offered, and no loss is counted.
    pub fn would_take(&self, count: u64, message: &Message) -> Result<(), Refusal>
        ensures { MatchResult result (λ _. offer_refusal (Some self.now) count message.now ≡ None)
            (λ r. offer_refusal (Some self.now) count message.now ≡ Some r) }
    {
        match check_offer(&self.spec, self.last, count, message) {
            Ok(_) if self.waiting.len() < self.spec.capacity => Ok(()),
            Ok(_) => Err(Refusal::Overflow),
            Err(refusal) => Err(refusal),
        }
    }

    /// The channel lost so many messages that were never offered: the next one that is accepted has them in its gap.
    pub fn lose(&mut self, lost: u64)
        ensures { self.new ≡ losing lost self.old }
    {
        self.missed = self.missed.saturating_add(lost);
        self.lost = self.lost.saturating_add(lost);
    }

    /// How many samples wait: never more than the capacity.
    pub fn len(&self) -> usize
        ensures count { result ≡ length self.now.waiting }
        ensures room { result ≤ self.now.spec.capacity }
    {
        self.waiting.len()
    }

    /// The sample that waits at this place, the first at 0. It stays.
    pub fn get(&self, place: usize) -> Option<&Sample>
        ensures { option_copied result ≡ slice_get self.now.waiting place }
    {
        self.waiting.get(place)
    }

    /// A law: each sample that waits passes the channel's check, and counts don't fall up to the last that was accepted.
    fn waits(&self)
        ensures { Waits self.now.spec (count_or_0 self.now.last) self.now.waiting }
    {
        // For the proof: the lane is read, and its invariant is known.
        let _ = &self.waiting;
    }

    /// How many messages were lost: refused for want of room, or never offered, up to `u64::MAX`, where it stays.
    pub fn lost(&self) -> u64
        ensures { result ≡ self.now.lost }
    {
        self.lost
    }

    /// How many messages were lost in all, since the last one that was accepted, and before those that wait.
    pub fn losses(&self) -> Losses
        ensures { result ≡ losses_of self.now }
    {
        let (front, back) = self.waiting.as_slices();
        Losses {
            lost: self.lost,
            missed: self.missed,
            waiting: add_losses(add_losses(0, front), back),
        }
    }
}

/// The last count that was accepted, or 0.
fn last_in(last: Option<Count>) -> u64
    ensures value { result ≡ count_or_0 last }
    ensures range { IsCount result }
{
    match last {
        Some(count) => count.get(),
        None => 0,
    }
}

impl LaneOut for RingLane {
    ghost use Rattle.std.specs.Prelude.{◌≡◌, Some, slice_get};
    ghost use Rattle.r10_lane.specs.Lanes.{TookWaiting, reached};
    ghost use Rattle.r10_lane.specs.Laws.{lane_took_joins, lane_took_nothing, lane_took_stays, lane_took_keeps_spec};
    ghost use Rattle.r10_lane.specs.Laws.{lane_took_rises, lane_took_gives, lane_took_stays_quiet};

    ghost spec_of = { λ lane. lane.spec };

    ghost took = { TookWaiting };

    ghost shows = { λ lane first. slice_get lane.waiting 0 ≡ Some first };

    ghost reached = { reached };

    ghost quiet = { λ lane. Some lane.waiting };

    fn spec(&self) -> ChannelSpec {
        self.spec
    }

    fn in_range(&self) {
        // What waits is in order up to the last count, and that is a count.
        self.waits();
        let _last = last_in(self.last);
    }

    fn front(&mut self) -> Option<&Sample> {
        self.waiting.front()
    }

    fn take(&mut self) -> Option<Sample> {
        self.waiting.pop_front()
    }

    fn held(&mut self) -> usize {
        self.waiting.len()
    }

    ghost joins = { lane_took_joins };

    ghost took_none = { lane_took_nothing };

    ghost stays = { lane_took_stays };

    ghost keeps_spec = { lane_took_keeps_spec };

    ghost rises = { lane_took_rises };

    ghost gives = { lane_took_gives };

    ghost stays_quiet = { lane_took_stays_quiet };
}
