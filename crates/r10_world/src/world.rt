//! A world: a recorder, and the cursors of its readers.

ghost use Rattle.std.specs.Prelude.{◌≡◌, List, None, Some, length, map, option_map, IfErr, IfOk, MatchResult};
ghost use Rattle.r10_body.specs.declared.refusal.Refusal.TheVariants as refusals;
ghost use Rattle.r10_lane.specs.Losing.{losses_of};
ghost use Rattle.r10_machine.specs.Checks.{offer_refusal};
ghost use Rattle.r10_machine.specs.Machine.{File, fresh, fresh_lane, lane_in};
ghost use Rattle.r10_world.specs.Copies.{IsCopy};
ghost use Rattle.r10_world.specs.Joined.{begun_world};
ghost use Rattle.r10_medium.specs.PowerLoss.{Settled};
ghost use Rattle.r10_refinement.specs.Safe.{IsSafe};
ghost use Rattle.r10_control.specs.Fronts.{Spares};
ghost use Rattle.r10_control.specs.Lanes.{TakesWaiting};
ghost use Rattle.r10_world.specs.Answering.{AnswersSo};
ghost use Rattle.r10_world.specs.PowerLoss.{Recovers, Survives};
ghost use Rattle.r10_world.specs.WorldSteps.{WorldStandsFor, RecorderStepsTo};
ghost use Rattle.r10_machine.specs.Says.{MediumHas, MediumSays};
ghost use Rattle.r10_world.specs.State.{number_on, with_lanes, with_medium};
ghost use Rattle.r10_world.specs.Waiting.{StandsOn};

use crate::a_new_recorder_stands;
use crate::control::{
    commit, count_at, dismount, erase, files, find, lose, mark, mount, offer, pump, seal, start,
    status, stop, tick,
};
use crate::readers::{advance, close, next, open};
use r10_body::{ChannelSpec, Message, Refusal, Sample};
use r10_control::{Lifted, Recorder};
use r10_cursor::Cursor;
use r10_lane::{Losses, RingLane};
use r10_machine::{Event, Reply, Settings};
use r10_medium::BlockMedium;
use slab::Slab;
use std::alloc::{AllocError, Global};
use std::marker::Model;

/// A recorder with lanes of one thread, the cursors of its readers, and where their memory comes from.
pub struct World<M: BlockMedium> {
    alloc: Global,
    recorder: Recorder<M, RingLane>,
    cursors: Slab<Cursor>,
}

impl<M: BlockMedium> Model for World<M> {
    ghost use Rattle.r10_world.specs.State.{WorldState};

    ghost Value = { WorldState M };

    ghost view = { λ w. record { recorder = w.recorder; slots = w.cursors.slots } };
}

/// Letting a world go is one call, so that a body that holds one has no exit for each of its modes.
impl<M: BlockMedium + Drop> Drop for World<M> {
    fn drop(self) {
        let World {
            alloc: _,
            recorder: _,
            cursors: _,
        } = self;
    }
}

/// A world without its medium. Contracts see the world as it was, with the medium as it was taken out.
pub struct LiftedWorld<M: BlockMedium> {
    alloc: Global,
    recorder: Lifted<M, RingLane>,
    cursors: Slab<Cursor>,
}

impl<M: BlockMedium> Model for LiftedWorld<M> {
    ghost use Rattle.r10_world.specs.State.{WorldState};

    ghost Value = { WorldState M };

    ghost view = { λ w. record { recorder = w.recorder; slots = w.cursors.slots } };
}

impl<M: BlockMedium> LiftedWorld<M> {
    /// The world over a medium that reads as the one that was taken out.
    pub fn over<N: BlockMedium>(self, medium: N) -> World<N>
        requires { (N.disk medium).blocks ≡ (M.disk self.recorder.medium).blocks }
        ensures { result ≡ with_medium medium self }
    {
        let LiftedWorld {
            alloc,
            recorder,
            cursors,
        } = self;
        let recorder = recorder.over(medium);
        World {
            alloc,
            recorder,
            cursors,
        }
    }
}

/// A lane for each channel, of which nothing has come yet.
fn lanes_of(alloc: Global, channels: &[ChannelSpec]) -> Result<Vec<RingLane>, AllocError>
    ensures { IfOk result (λ lanes. lanes.items ≡ map fresh_lane channels.now) }
{
    let mut lanes = Vec::new(alloc);
    for spec in channels {
        lanes.push(RingLane::new(alloc, *spec)?)?;
    }
    Ok(lanes)
}

impl<M: BlockMedium> World<M> {
    /// A world over a medium of these settings, which is not mounted yet. Where the medium has files, the world represents a
    /// machine that has them. Where memory is refused, settings and medium come back.
    pub fn new(alloc: Global, settings: Settings, medium: M) -> Result<World<M>, (Settings, M)>
        requires { length (M.disk medium).blocks ≡ settings.blocks }
        ensures stands { (files : List File) → MediumHas settings (M.disk medium).blocks files
            → IfOk result (λ w. WorldStandsFor M.disk w (fresh settings.channels files (M.disk medium).failures)) }
        // So it does over what a power loss left of a medium that stated files: it finds these again.
        ensures recovers { (files : List File) → MediumSays settings (M.disk medium).blocks files
            → IfOk result (Recovers M.disk settings (M.disk medium) files) }
        ensures safe { (files : List File) → Settled (λ image. MediumSays settings image files) (M.disk medium)
            → IfOk result (λ w. IsSafe w.recorder.kept.config w.recorder.kept.work files (M.disk w.recorder.medium)) }
        ensures begins { IfOk result (λ w. w ≡ begun_world settings medium) }
        ensures config { IfOk result (λ w. w.recorder.kept.config ≡ settings) }
        ensures medium { IfOk result (λ w. w.recorder.medium ≡ medium) }
        ensures refused { IfErr result (λ back. (back.0 ≡ settings) × (back.1 ≡ medium)) }
    {
        // For the proof: a new recorder represents an unmounted machine.
        a_new_recorder_stands();
        let Ok(lanes) = lanes_of(alloc, settings.channels()) else {
            return Err((settings, medium));
        };
        match Recorder::new(alloc, settings, medium, lanes) {
            Ok(recorder) => {
                let cursors = Slab::new(alloc);
                Ok(World {
                    alloc,
                    recorder,
                    cursors,
                })
            }
            Err((settings, medium, _)) => Err((settings, medium)),
        }
    }

    /// The world without its medium, and the medium.
    pub fn lift(self) -> (LiftedWorld<M>, M)
        ensures { (result.0 ≡ self) × (result.1 ≡ self.recorder.medium) }
    {
        let World {
            alloc,
            recorder,
            cursors,
        } = self;
        let (recorder, medium) = recorder.lift();
        let lifted = LiftedWorld {
            alloc,
            recorder,
            cursors,
        };
        (lifted, medium)
    }

    /// The medium as it stands.
    pub fn into_medium(self) -> M
        ensures { result ≡ self.recorder.medium }
    {
        let World {
            alloc: _,
            recorder,
            cursors: _,
        } = self;
        let (medium, _) = recorder.into_parts();
        medium
    }

    /// How many entries of a channel erases took, in every mode, up to `u64::MAX`. None where the settings have no such channel. It
    /// takes no memory.
    pub fn erased(&self, channel: u16) -> Option<u64>
        ensures { result ≡ number_on channel self.now.recorder.kept.config.channels self.now.recorder.kept.erased }
    {
        self.recorder.erased(channel)
    }

    /// What an offer of this message to a channel would be refused by. Nothing is offered, and no loss is counted.
    pub fn would_take(&self, channel: u16, count: u64, message: &Message) -> Result<(), Refusal>
        ensures { MatchResult result (λ _. offer_refusal (lane_in channel self.now.recorder.lanes) count message.now ≡ None)
            (λ r. offer_refusal (lane_in channel self.now.recorder.lanes) count message.now ≡ Some r) }
    {
        self.recorder.would_take(channel, count, message)
    }

    /// Takes the first message that waits on a channel out of its lane, in any mode, with the loss before it. No file of this
    /// recorder has it then. `None` where none waits. Refused: NoSuchChannel.
    pub fn take_waiting(&mut self, channel: u16) -> Result<Option<Sample>, Refusal>
        ensures takes { TakesWaiting channel self.old.recorder.lanes result self.new.recorder.lanes }
        ensures stands { IfOk result (λ _. StandsOn M.disk channel self.old self.new) }
        ensures others { self.new ≡ with_lanes self.new.recorder.lanes self.old }
    {
        self.recorder.take_waiting(channel)
    }

    /// How many messages of a channel were lost in all, since the last one that was accepted, and before those that wait, up to
    /// `u64::MAX` each. Refused: NoSuchChannel.
    pub fn losses(&self, channel: u16) -> Result<Losses, Refusal>
        ensures losses { IfOk result (λ losses. option_map losses_of (lane_in channel self.now.recorder.lanes) ≡ Some losses) }
        ensures refused { IfErr result
            (λ r. (r ≡ refusals.NoSuchChannel) × (lane_in channel self.now.recorder.lanes ≡ None)) }
    {
        self.recorder.losses(channel)
    }

    /// Where memory comes from.
    pub(crate) fn alloc(&self) -> Global {
        self.alloc
    }

    /// One event. An offer takes the copy of its message.
    pub(crate) fn step(&mut self, event: &Event, copy: &mut Option<Message>) -> Reply
        requires { IsCopy event.now copy.old }
        ensures tells { RecorderStepsTo M.disk self.old.recorder self.old.slots event.now result self.new.recorder self.new.slots }
        ensures answers { AnswersSo M.disk self.old.recorder self.old.slots event.now result self.new.recorder self.new.slots }
        ensures power_loss { Survives M.disk self.old.recorder event.now result self.new.recorder }
        ensures spares { Spares self.old.recorder.kept (M.disk self.old.recorder.medium) event.now
            (M.disk self.new.recorder.medium) }
        ensures config { self.new.recorder.kept.config ≡ self.old.recorder.kept.config }
    {
        answer(
            self.alloc,
            &mut self.recorder,
            &mut self.cursors,
            event,
            copy,
        )
    }
}

impl<M: BlockMedium> World<M> {
    /// One event that is given away: an offer takes its message.
    pub(crate) fn give(&mut self, event: Event) -> Reply
        ensures tells { RecorderStepsTo M.disk self.old.recorder self.old.slots event result self.new.recorder self.new.slots }
        ensures answers { AnswersSo M.disk self.old.recorder self.old.slots event result self.new.recorder self.new.slots }
        ensures power_loss { Survives M.disk self.old.recorder event result self.new.recorder }
        ensures spares { Spares self.old.recorder.kept (M.disk self.old.recorder.medium) event
            (M.disk self.new.recorder.medium) }
        ensures config { self.new.recorder.kept.config ≡ self.old.recorder.kept.config }
    {
        match event {
            Event::Offer {
                channel,
                count,
                message,
            } => offer(&mut self.recorder, channel, count, message),
            event => self.step(&event, &mut None),
        }
    }
}

/// One event that is given to a recorder and its readers' cursors. An offer takes the copy of its message.
fn answer<M: BlockMedium>(
    alloc: Global,
    recorder: &mut Recorder<M, RingLane>,
    cursors: &mut Slab<Cursor>,
    event: &Event,
    copy: &mut Option<Message>,
) -> Reply
    requires { IsCopy event.now copy.old }
    ensures tells { RecorderStepsTo M.disk recorder.old cursors.old.slots event.now result recorder.new cursors.new.slots }
    ensures answers { AnswersSo M.disk recorder.old cursors.old.slots event.now result recorder.new cursors.new.slots }
    ensures power_loss { Survives M.disk recorder.old event.now result recorder.new }
    ensures spares { Spares recorder.old.kept (M.disk recorder.old.medium) event.now (M.disk recorder.new.medium) }
    ensures config { recorder.new.kept.config ≡ recorder.old.kept.config }
{
    match event {
        Event::Mount => mount(recorder),
        Event::Dismount => dismount(recorder),
        Event::Tick { count, parts } => tick(recorder, *count, *parts),
        Event::Start { name, setup } => start(recorder, name.as_slice(), setup.as_slice()),
        Event::Offer { channel, count, .. } => match copy.take() {
            Some(message) => offer(recorder, *channel, *count, message),
            None => Reply::Refused(Refusal::OutOfMemory),
        },
        Event::Lose { channel, lost } => lose(recorder, *channel, *lost),
        Event::Pump { channel, most } => pump(recorder, *channel, *most),
        Event::Event { number, count } => mark(recorder, *number, *count),
        Event::Commit => commit(recorder),
        Event::Stop => stop(recorder),
        Event::Seal => seal(recorder),
        Event::Erase => erase(recorder),
        Event::Files => files(recorder),
        Event::Status => status(recorder),
        Event::Cursor {
            file,
            channels,
            from,
            to,
        } => open(alloc, recorder, cursors, *file, channels, *from, *to),
        Event::Advance { id } => advance(recorder, cursors, *id),
        Event::Next { id } => next(cursors, *id),
        Event::Close { id } => close(cursors, *id),
        Event::Find {
            file,
            channel,
            count,
        } => find(recorder, *file, *channel, *count),
        Event::CountAt { file, parts } => count_at(recorder, *file, *parts),
    }
}
