//! Where a desk has its recorder and readers, and how an event is given to them.

ghost use Rattle.std.specs.Prelude.{◌≡◌, None, Some, IfOk, IfErr, MatchResult, is_some, option_map, true};
ghost use Rattle.r10_body.specs.declared.refusal.Refusal.TheVariants as refusals;
ghost use Rattle.r10_control.specs.Lanes.{TakesWaiting};
ghost use Rattle.r10_lane.specs.Losing.{losses_of};
ghost use Rattle.r10_machine.specs.Checks.{offer_refusal};
ghost use Rattle.r10_machine.specs.Machine.{lane_in};
ghost use Rattle.r10_world.specs.State.{with_lanes};
ghost use Rattle.r10_world.specs.Waiting.{StandsOn};

use crate::running::{leaves_medium, run_bound, run_quiet};
use r10_body::{Message, Refusal, Sample};
use r10_lane::Losses;
use r10_machine::{Event, Reply};
use r10_region::{Onlooker, SteadyMedium};
use r10_world::World;
use std::marker::{Brand, Model};

/// A place for a world, which is taken out amid a call. Contracts see the world.
#[derive(Drop)]
pub(crate) struct WorldPlace<M: SteadyMedium> {
    world: Option<World<M>>,
    ghost there: { is_some world ≡ true },
}

impl<M: SteadyMedium> Model for WorldPlace<M> {
    ghost use Rattle.r10_calls.specs.Place.{inside};
    ghost use Rattle.r10_world.specs.State.{WorldState};

    ghost Value = { WorldState M };

    ghost view = { λ p. inside p.world p.there };
}

impl<M: SteadyMedium + Drop> WorldPlace<M> {
    ghost use Rattle.r10_calls.specs.EventCalls.{ShowsMedium, StepsToReply, leaves_medium};
    ghost use Rattle.r10_world.specs.State.{number_on};

    /// The place of this world.
    pub(crate) fn new(world: World<M>) -> WorldPlace<M>
        ensures { result ≡ world }
    {
        WorldPlace { world: Some(world) }
    }

    /// Does one event, and gives its reply. The medium stays the one that it is.
    pub(crate) fn run(&mut self, event: Event) -> Reply
        ensures steps { StepsToReply M.disk self.old event result self.new }
        ensures config { self.new.recorder.kept.config ≡ self.old.recorder.kept.config }
        ensures stays { M.identity self.new.recorder.medium ≡ M.identity self.old.recorder.medium }
    {
        if leaves_medium(&event) {
            self.run_here(event)
        } else {
            self.run_named(event)
        }
    }

    /// Does an event that leaves the medium itself.
    fn run_here(&mut self, event: Event) -> Reply
        requires { leaves_medium event ≡ true }
        ensures steps { StepsToReply M.disk self.old event result self.new }
        ensures config { self.new.recorder.kept.config ≡ self.old.recorder.kept.config }
        ensures stays { M.identity self.new.recorder.medium ≡ M.identity self.old.recorder.medium }
    {
        match &mut self.world {
            Some(world) => run_quiet(world, event),
            None => Reply::Refused(Refusal::OutOfMemory),
        }
    }

    /// Does an event over the medium by its name.
    fn run_named(&mut self, event: Event) -> Reply
        ensures steps { StepsToReply M.disk self.old event result self.new }
        ensures config { self.new.recorder.kept.config ≡ self.old.recorder.kept.config }
        ensures stays { M.identity self.new.recorder.medium ≡ M.identity self.old.recorder.medium }
    {
        let Some(world) = self.world.take() else {
            return Reply::Refused(Refusal::OutOfMemory);
        };
        let (world, reply) = run_bound::<M, Brand>(world, event);
        self.world = Some(world);
        reply
    }

    /// Shows the medium to an onlooker.
    pub(crate) fn show<O: Onlooker<M>>(&mut self, onlooker: &mut O)
        requires { O.may_look onlooker.old self.old.recorder.medium }
        ensures { ShowsMedium M.identity (λ before after. O.looks onlooker.old before onlooker.new after)
            self.old self.new }
    {
        let Some(world) = self.world.take() else {
            return;
        };
        let (lifted, mut medium) = world.lift();
        onlooker.look(&mut medium);
        self.world = Some(lifted.over(medium));
    }

    /// What an offer of this message to a channel would be refused by.
    pub(crate) fn would_take(
        &self,
        channel: u16,
        count: u64,
        message: &Message,
    ) -> Result<(), Refusal>
        ensures { MatchResult result (λ _. offer_refusal (lane_in channel self.now.recorder.lanes) count message.now ≡ None)
            (λ r. offer_refusal (lane_in channel self.now.recorder.lanes) count message.now ≡ Some r) }
    {
        match &self.world {
            Some(world) => world.would_take(channel, count, message),
            None => Err(Refusal::NoSuchChannel),
        }
    }

    /// Takes the first message that waits on a channel out of its lane. Refused: NoSuchChannel.
    pub(crate) fn take_waiting(&mut self, channel: u16) -> Result<Option<Sample>, Refusal>
        ensures takes { TakesWaiting channel self.old.recorder.lanes result self.new.recorder.lanes }
        ensures stands { IfOk result (λ _. StandsOn M.disk channel self.old self.new) }
        ensures others { self.new ≡ with_lanes self.new.recorder.lanes self.old }
    {
        match &mut self.world {
            Some(world) => world.take_waiting(channel),
            None => Err(Refusal::NoSuchChannel),
        }
    }

    /// How many messages of a channel were lost. Refused: NoSuchChannel.
    pub(crate) fn losses(&self, channel: u16) -> Result<Losses, Refusal>
        ensures losses { IfOk result (λ losses. option_map losses_of (lane_in channel self.now.recorder.lanes) ≡ Some losses) }
        ensures refused { IfErr result
            (λ r. (r ≡ refusals.NoSuchChannel) × (lane_in channel self.now.recorder.lanes ≡ None)) }
    {
        match &self.world {
            Some(world) => world.losses(channel),
            None => Err(Refusal::NoSuchChannel),
        }
    }

    /// How many entries of a channel erases took.
    pub(crate) fn erased(&self, channel: u16) -> Option<u64>
        ensures { result ≡ number_on channel self.now.recorder.kept.config.channels self.now.recorder.kept.erased }
    {
        match &self.world {
            Some(world) => world.erased(channel),
            None => None,
        }
    }
}
