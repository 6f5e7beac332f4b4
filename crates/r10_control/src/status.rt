//! How a recorder is.

ghost use Rattle.std.specs.Prelude.{◌≡◌, ◌-◌, ◌^◌, ◌++◌, ◌∷◌, [], List, Some, length, min, IfErr, IfOk};
ghost use Rattle.r10_control.specs.Calls.{TellsStatus};
ghost use Rattle.r10_openfile.specs.Stopping.{TookAll};
ghost use Rattle.r10_body.specs.declared.refusal.Refusal.TheVariants as refusals;
ghost use Rattle.r10_volume.specs.Holding.{HoldsFiles};
ghost use Rattle.r10_machine.specs.Machine.{File, Machine};
ghost use Rattle.r10_machine.specs.Room.{area, area_from, cost_of};
ghost use Rattle.r10_refinement.specs.KeptState.{mode_of};
ghost use Rattle.r10_refinement.specs.Means.{HasFiles};
ghost use Rattle.r10_medium.specs.Disk.{Image};
ghost use Rattle.r10_control.specs.Checks.{files_of};
ghost use Rattle.r10_control.specs.Lanes.{AnswersWith};
ghost use Rattle.r10_control.specs.Owns.{tick_count};
ghost use Rattle.r10_control.specs.RecorderStatus.{TellsLane, TellsLanes, channels_in, free_in, left_in, status_in};
ghost use Rattle.r10_control.specs.Work.{work_of};
ghost use Rattle.r10_machine.specs.Finding.{channel_status, free_bytes};
ghost use Rattle.r10_machine.specs.declared.event.Event.TheVariants as events;
ghost use Rattle.r10_machine.specs.declared.reply.Reply.TheVariants as replies;

use crate::clock::ClockTick;
use crate::recorder::Recorder;
use crate::work::{Doing, mode_in};
use r10_body::Refusal;
use r10_count::{Count, Items};
use r10_dirchain::Directory;
use r10_lane::{LaneOut, RingLane};
use r10_machine::{ChannelStatus, Mode, Settings, Status, a_step_stays_sound};
use r10_medium::BlockMedium;
use r10_openfile::OpenFile;
use r10_refinement::reports_are_steps;
use r10_volume::{count, last_file, next_block};
use std::alloc::{AllocError, Global};

/// How a channel of a recorder is.
#[derive(Clone, Copy)]
pub struct LaneStatus {
    pub channel: u16,
    /// The messages that its lane holds.
    pub held: usize,
    /// The entries that erases took, up to `u64::MAX`; 0 where the recorder failed.
    pub erased: u64,
}

/// How a recorder is, whatever its lanes.
#[derive(Drop)]
pub struct RecorderStatus {
    pub mode: Mode,
    /// The count of the last tick.
    pub tick: Option<Count>,
    /// How many files the medium has; 0 where none is mounted.
    pub files: usize,
    /// The bytes that the file that is recorded has left, or that the next one may have.
    pub free: u64,
    /// In the order of the settings.
    pub channels: Items<LaneStatus>,
}

impl<M: BlockMedium, L: LaneOut> Recorder<M, L> {
    /// How the recorder is, in any mode: the last tick, how many files there are, the bytes that the file that is recorded has
    /// left, or that the next one may have, and of each channel how many messages its lane holds, and erases took. Of a lane that
    /// is quiet all that waits is held. Refused: OutOfMemory.
    pub fn status(&mut self) -> Result<RecorderStatus, Refusal>
        ensures does { TellsStatus L.took L.quiet L.spec_of M.disk self.old self.new result }
    {
        // For the proof: a step keeps a state sound; what is reported is the machine's; the channels and blocks are within limits.
        a_step_stays_sound();
        reports_are_steps();
        let _channels = self.keeping.settings.channels();
        let _blocks = self.keeping.settings.blocks();
        let mode = mode_in(&self.keeping.work);
        let Ok(channels) = lanes_in(
            self.alloc,
            mode,
            &mut self.lanes,
            self.keeping.erased.as_slice(),
        ) else {
            return Err(Refusal::OutOfMemory);
        };
        Ok(RecorderStatus {
            mode,
            tick: tick_in(self.keeping.tick),
            files: count_in(&self.keeping.work),
            free: free_in(&self.keeping.settings, &self.keeping.work),
            channels: Items::of(channels),
        })
    }
}

impl<M: BlockMedium> Recorder<M, RingLane> {
    /// The same, and of each channel how many messages were lost. Refused: OutOfMemory.
    pub fn status_with_lost(&self) -> Result<Status, Refusal>
        ensures reported { IfOk result (λ status. status ≡ status_in self.now.kept self.now.lanes) }
        ensures refused { IfErr result (λ r. r ≡ refusals.OutOfMemory) }
        ensures steps { AnswersWith self.now.lanes self.now.kept (M.disk self.now.medium).blocks
            (M.disk self.now.medium).failures events.Status (λ status. replies.Status status) result self.now.lanes }
    {
        // For the proof: a step keeps a state sound; what is reported is the machine's; the channels and blocks are within limits.
        a_step_stays_sound();
        reports_are_steps();
        let _channels = self.keeping.settings.channels();
        let _blocks = self.keeping.settings.blocks();
        let mode = mode_in(&self.keeping.work);
        let Ok(channels) = channels_in(
            self.alloc,
            mode,
            self.lanes.as_slice(),
            self.keeping.erased.as_slice(),
        ) else {
            return Err(Refusal::OutOfMemory);
        };
        Ok(Status {
            mode,
            tick: tick_in(self.keeping.tick),
            files: count_in(&self.keeping.work),
            free: free_in(&self.keeping.settings, &self.keeping.work),
            channels: Items::of(channels),
        })
    }
}

/// The count of the last tick.
fn tick_in(tick: Option<ClockTick>) -> Option<Count>
    ensures { result ≡ tick_count tick }
{
    match tick {
        Some(tick) => Some(tick.count),
        None => None,
    }
}

/// How many files the directory in use has.
fn count_in(work: &Doing) -> usize
    ensures { result ≡ min (length (files_of (work_of work.now))) (2 ^ 64 - 1) }
{
    match work {
        Doing::Unmounted => 0,
        Doing::Idle(directory) => count(directory),
        Doing::Recording(directory, _) => count(directory),
        Doing::Failed => 0,
    }
}

/// The bytes that the next file may have, or that the one that is recorded has left.
fn free_in(settings: &Settings, work: &Doing) -> u64
    ensures value { result ≡ free_in settings.now (work_of work.now) }
    ensures held { (image : Image) (m : Machine) → m.mode ≡ mode_of (work_of work.now)
        → HasFiles settings.now (work_of work.now) image m.files → result ≡ free_bytes settings.now m }
{
    // For the proof: the blocks are within limits.
    let _blocks = settings.blocks();
    match work {
        Doing::Unmounted => 0,
        Doing::Idle(directory) => area_from(settings, next_block(directory, settings.directory())),
        Doing::Recording(directory, file) => left_in(settings, directory, file),
        Doing::Failed => 0,
    }
}

/// The bytes that the file that is recorded has left: from its first block on, without what it costs.
fn left_in(settings: &Settings, directory: &Directory, file: &OpenFile) -> u64
    ensures value { result ≡ left_in settings.now directory.now file.now }
    ensures held { (image : Image) (files : List File) (f : File)
        → HoldsFiles settings.now image directory.now (Some file.now) (files ++ f ∷ []) → result ≡ area settings.now f - cost_of f }
{
    match last_file(directory) {
        Some(entry) => area_from(settings, entry.first_block as usize).saturating_sub(file.cost()),
        None => 0,
    }
}

/// The bytes from a block to the medium's end.
fn area_from(settings: &Settings, block: usize) -> u64
    ensures { result ≡ area_from settings.now block }
{
    512 * settings.blocks().saturating_sub(block) as u64
}

/// How the channels are, where erases took so many of their entries.
fn channels_in(
    alloc: Global,
    mode: Mode,
    lanes: &[RingLane],
    erased: &[u64],
) -> Result<Vec<ChannelStatus>, AllocError>
    requires { length erased.now ≡ length lanes.now }
    ensures { IfOk result (λ channels. channels.items ≡ channels_in mode lanes.now erased.now) }
{
    let mut channels = Vec::new(alloc);
    for (place, lane) in lanes.iter().enumerate() {
        channels.push(channel_in(mode, lane, erased[place]))?;
    }
    Ok(channels)
}

/// How a channel is, where erases took so many of its entries.
fn channel_in(mode: Mode, lane: &RingLane, erased: u64) -> ChannelStatus
    ensures { result ≡ channel_status mode (record lane.now { erased = erased }) }
{
    ChannelStatus {
        channel: lane.spec().id,
        waiting: lane.len(),
        lost: lane.lost(),
        erased: if mode == Mode::Failed { 0 } else { erased },
    }
}

/// How the channels are, by what their lanes hold, where erases took so many of their entries.
fn lanes_in<L: LaneOut>(
    alloc: Global,
    mode: Mode,
    lanes: &mut Vec<L>,
    erased: &[u64],
) -> Result<Vec<LaneStatus>, AllocError>
    requires { length erased.now ≡ length lanes.old.items }
    ensures reported { IfOk result (λ reported. TellsLanes L.quiet L.spec_of mode lanes.old.items erased.now reported.items) }
    ensures took { TookAll L.took L.spec_of [] lanes.old.items lanes.new.items }
{
    let mut reported = Vec::with_capacity(alloc, lanes.len())?;
    for at in 0..lanes.len() {
        let lane = &mut lanes[at];
        reported.push_reserved(lane_in(mode, lane, erased[at]));
    }
    Ok(reported)
}

/// How a channel is, by what its lane holds, where erases took so many of its entries.
fn lane_in<L: LaneOut>(mode: Mode, lane: &mut L, erased: u64) -> LaneStatus
    ensures reported { TellsLane L.quiet L.spec_of mode lane.old erased result }
    ensures took { L.took lane.old [] lane.new }
{
    let channel = lane.spec().id;
    LaneStatus {
        channel,
        held: lane.held(),
        erased: if mode == Mode::Failed { 0 } else { erased },
    }
}
