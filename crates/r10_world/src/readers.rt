//! Events that are calls on the readers' cursors.

ghost use Rattle.std.specs.Prelude.{◌≡◌, ℕ, List};
ghost use Rattle.r10_machine.specs.Machine.{Lane, Machine};
ghost use Rattle.r10_refinement.specs.KeptState.{Kept};
ghost use Rattle.r10_medium.specs.Disk.{Image};
ghost use Rattle.r10_control.specs.Fronts.{Spares};
ghost use Rattle.r10_world.specs.Answering.{AnswersClose, AnswersNext, AnswersSo};
ghost use Rattle.r10_world.specs.RepresentedParts.{PartsStepTo, PartsStandFor};
ghost use Rattle.r10_world.specs.PowerLoss.{Survives};
ghost use Rattle.r10_world.specs.WorldSteps.{RecorderStepsTo};
ghost use Rattle.r10_machine.specs.declared.event.Event.TheVariants as events;
ghost use Rattle.r10_machine.specs.declared.reply.Reply.TheVariants as replies;

use crate::{recorders_calls_are_steps, tables_calls_are_steps};
use r10_body::Refusal;
use r10_control::Recorder;
use r10_count::Items;
use r10_cursor::{
    Cursor, advances_are_the_machines, check_read, close_cursor, next_entry, open_cursor,
};
use r10_lane::RingLane;
use r10_machine::Reply;
use r10_medium::BlockMedium;
use r10_refinement::{lacks_of_memory_are_steps, refusals_are_steps};
use slab::Slab;
use std::alloc::Global;

/// A cursor is opened on a file that can be read.
pub(crate) fn open<M: BlockMedium>(
    alloc: Global,
    recorder: &mut Recorder<M, RingLane>,
    cursors: &mut Slab<Cursor>,
    file: usize,
    channels: &Items<u16>,
    from: u64,
    to: u64,
) -> Reply
    ensures tells { RecorderStepsTo M.disk recorder.old cursors.old.slots
        (events.Cursor file channels.now from to) result recorder.new cursors.new.slots }
    ensures answers { AnswersSo M.disk recorder.old cursors.old.slots
        (events.Cursor file channels.now from to) result recorder.new cursors.new.slots }
    ensures power_loss { Survives M.disk recorder.old (events.Cursor file channels.now from to) result recorder.new }
    ensures spares { Spares recorder.old.kept (M.disk recorder.old.medium) (events.Cursor file channels.now from to)
        (M.disk recorder.new.medium) }
    ensures config { recorder.new.kept.config ≡ recorder.old.kept.config }
{
    // For the proof: a recorder's call is a step of the machine; a call on the cursors is a step too; so is a lack of memory.
    recorders_calls_are_steps();
    tables_calls_are_steps();
    lacks_of_memory_are_steps();
    let (from, to) = match recorder.check_file(file, from, to) {
        Ok(range) => range,
        Err(refusal) => return Reply::Refused(refusal),
    };
    let generation = match recorder.generation() {
        Ok(generation) => generation,
        Err(refusal) => return Reply::Refused(refusal),
    };
    match open_cursor(alloc, cursors, file, generation, channels, from, to) {
        Ok(id) => Reply::Cursor(id),
        Err(_) => Reply::Refused(Refusal::OutOfMemory),
    }
}

/// A cursor takes its next instalment.
pub(crate) fn advance<M: BlockMedium>(
    recorder: &mut Recorder<M, RingLane>,
    cursors: &mut Slab<Cursor>,
    id: usize,
) -> Reply
    ensures tells { RecorderStepsTo M.disk recorder.old cursors.old.slots
        (events.Advance id) result recorder.new cursors.new.slots }
    ensures answers { AnswersSo M.disk recorder.old cursors.old.slots (events.Advance id) result recorder.new cursors.new.slots }
    ensures power_loss { Survives M.disk recorder.old (events.Advance id) result recorder.new }
    ensures spares { Spares recorder.old.kept (M.disk recorder.old.medium) (events.Advance id) (M.disk recorder.new.medium) }
    ensures config { recorder.new.kept.config ≡ recorder.old.kept.config }
{
    // For the proof: a recorder's call is a step of the machine; a call on the cursors is a step too; a refusal is a step that
    // changes nothing; what a cursor takes is what the machine's takes.
    recorders_calls_are_steps();
    tables_calls_are_steps();
    refusals_are_steps();
    advances_are_the_machines();
    let generation = match recorder.generation() {
        Ok(generation) => generation,
        Err(refusal) => return Reply::Refused(refusal),
    };
    // The check alone is wanted: the cursor itself says which file it is on.
    let _file = match check_read(cursors, generation, id) {
        Ok(file) => file,
        Err(refusal) => return Reply::Refused(refusal),
    };
    let Some(cursor) = cursors.get_mut(id) else {
        return Reply::Refused(Refusal::NoCursor);
    };
    match recorder.take_instalment(cursor) {
        Ok(queued) => Reply::Advanced(queued),
        Err(refusal) => Reply::Refused(refusal),
    }
}

/// A cursor gives the first of its queue.
pub(crate) fn next(cursors: &mut Slab<Cursor>, id: usize) -> Reply
    ensures tells { (k : Kept) (image : Image) (failures : ℕ) (lanes : List Lane) (m : Machine)
        → PartsStandFor k image failures lanes cursors.old.slots m
        → PartsStepTo k m (events.Next id) result k image failures lanes cursors.new.slots }
    ensures answers { AnswersNext cursors.old.slots id result cursors.new.slots }
{
    // For the proof: a recorder's call is a step of the machine; a call on the cursors is a step too; a refusal is a step that
    // changes nothing.
    recorders_calls_are_steps();
    tables_calls_are_steps();
    refusals_are_steps();
    match next_entry(cursors, id) {
        Ok(given) => Reply::Next(given),
        Err(refusal) => Reply::Refused(refusal),
    }
}

/// A cursor is closed.
pub(crate) fn close(cursors: &mut Slab<Cursor>, id: usize) -> Reply
    ensures tells { (k : Kept) (image : Image) (failures : ℕ) (lanes : List Lane) (m : Machine)
        → PartsStandFor k image failures lanes cursors.old.slots m
        → PartsStepTo k m (events.Close id) result k image failures lanes cursors.new.slots }
    ensures answers { AnswersClose cursors.old.slots id result cursors.new.slots }
{
    // For the proof: a recorder's call is a step of the machine; a call on the cursors is a step too; a refusal is a step that
    // changes nothing.
    recorders_calls_are_steps();
    tables_calls_are_steps();
    refusals_are_steps();
    match close_cursor(cursors, id) {
        Ok(()) => Reply::Done,
        Err(refusal) => Reply::Refused(refusal),
    }
}
