//! A whole recording: a new world that is given events, and the medium that it leaves.

ghost use Rattle.std.specs.Prelude.{◌≡◌, ◌<◌, ◌≤◌, ◌+◌, List, IfErr, IfOk, drop, length, take, vec_len};
ghost use Rattle.r10_machine.specs.Machine.{File};
ghost use Rattle.r10_machine.specs.Says.{MediumSays};
ghost use Rattle.r10_world.specs.Answering.{AnswersEach};
ghost use Rattle.r10_world.specs.Joined.{begun_world};
ghost use Rattle.r10_world.specs.PowerLoss.{RecordsNew, RecordsNone, RecordsRun, Recovers, RunsSafely};

use crate::running::run;
use crate::world::World;
use r10_account::{a_recording_accounts, found_files_stay};
use r10_body::Refusal;
use r10_machine::{Event, Reply, Settings, files_on_a_medium_are_found};
use r10_medium::BlockMedium;
use r10_volume::format;
use std::alloc::Global;

/// Does events on a new world over any medium, also one with a file at fault, and gives how many it did and the world that they
/// leave. Their replies are added to those that are there. It is `World::new` and then `run`: each event is answered by event and
/// reply alone. From each machine for which the new world stands, the replies are a run. It does some events where there are any.
/// Where memory is refused before the first event, the medium comes back as it was.
pub fn run_over_any_medium<M: BlockMedium + Drop>(
    alloc: Global,
    settings: Settings,
    medium: M,
    events: &[Event],
    replies: &mut Vec<Reply>,
) -> Result<(usize, World<M>), M>
    requires { length (M.disk medium).blocks ≡ settings.blocks }
    ensures answers { IfOk result (λ r. AnswersEach M.disk (begun_world settings medium) (take r.0 events.now)
        (drop (vec_len replies.old) replies.new.items) r.1) }
    ensures power_loss { IfOk result (λ r. RunsSafely M.disk (begun_world settings medium) (take r.0 events.now)
        (drop (vec_len replies.old) replies.new.items) r.1) }
    // Over what a loss of power left of a medium that had files, the new world finds these again.
    ensures recovers { (files : List File) → MediumSays settings (M.disk medium).blocks files
        → IfOk result (λ _. Recovers M.disk settings (M.disk medium) files (begun_world settings medium)) }
    ensures within { IfOk result (λ r. r.0 ≤ length events.now) }
    ensures some { IfOk result (λ r. 0 < length events.now → 0 < r.0) }
    ensures count { IfOk result (λ r. vec_len replies.new ≡ vec_len replies.old + r.0) }
    ensures earlier { take (vec_len replies.old) replies.new.items ≡ replies.old.items }
    ensures refused { IfErr result (λ back. back ≡ medium) }
    ensures none { IfErr result (λ back. replies.new.items ≡ replies.old.items) }
{
    let mut world = match World::new(alloc, settings, medium) {
        Ok(world) => world,
        Err((_, medium)) => return Err(medium),
    };
    match run(&mut world, events, replies) {
        Ok(done) => Ok((done, world)),
        Err(_) => Err(world.into_medium()),
    }
}

/// The theorem of a whole recording. It does events on a new world over a medium that has files, and gives how many it did and
/// the medium that they leave. Their replies are added to those that are there, and are a run of the model from these files. The
/// medium has the files that the run ends with, and has failed as often as the run says. Of each channel the accepted messages
/// are in the files that the run began, wait, or were erased: each once, in order. What waits, and entries that no file shows yet,
/// are not on the medium. If the recorder is Failed at the end, these files show the first of the messages, after what was erased,
/// and the last wait. A loss of power leaves the files of a state of the run, or those that the next event makes of them. This
/// asks that one before the run would have left the old files. It does some events if there are any. If memory is refused before
/// the first event, the medium comes back as it was. What is answered over a medium with a file at fault is stated by
/// `run_over_any_medium`.
pub fn record_all<M: BlockMedium + Drop>(
    alloc: Global,
    settings: Settings,
    medium: M,
    events: &[Event],
    replies: &mut Vec<Reply>,
) -> Result<(usize, M), M>
    requires { length (M.disk medium).blocks ≡ settings.blocks }
    ensures records { (files : List File) → MediumSays settings (M.disk medium).blocks files
        → IfOk result (λ r. RecordsRun settings files (take r.0 events.now) (drop (vec_len replies.old) replies.new.items)
        (M.disk medium) (M.disk r.1)) }
    ensures within { IfOk result (λ r. r.0 ≤ length events.now) }
    ensures some { IfOk result (λ r. 0 < length events.now → 0 < r.0) }
    ensures count { IfOk result (λ r. vec_len replies.new ≡ vec_len replies.old + r.0) }
    ensures earlier { take (vec_len replies.old) replies.new.items ≡ replies.old.items }
    ensures refused { IfErr result (λ back. back ≡ medium) }
    ensures none { IfErr result (λ back. replies.new.items ≡ replies.old.items) }
{
    // For the proof: what was accepted is in the files or waits; the files that were found stay the first; the files that a
    // medium has are found by a new recorder.
    a_recording_accounts();
    found_files_stay();
    files_on_a_medium_are_found();
    match run_over_any_medium(alloc, settings, medium, events, replies) {
        Ok((done, world)) => Ok((done, world.into_medium())),
        Err(medium) => Err(medium),
    }
}

/// Formats a medium for a recorder of these settings, and does these events on it with a new world: `record_all` from no files.
/// It gives how many events it did and the medium that they leave, and adds their replies to those that are there.
///
/// # Errors
///
/// `Refusal::Medium` where the medium failed while it was formatted. `Refusal::OutOfMemory` where memory is refused before the
/// first event; the medium is formatted then. In both the medium comes back, and no reply is added.
pub fn format_and_record<M: BlockMedium + Drop>(
    alloc: Global,
    settings: Settings,
    mut medium: M,
    events: &[Event],
    replies: &mut Vec<Reply>,
) -> Result<(usize, M), (Refusal, M)>
    requires { length (M.disk medium).blocks ≡ settings.blocks }
    ensures records { IfOk result (λ r. RecordsNew settings (take r.0 events.now) (drop (vec_len replies.old) replies.new.items)
        (M.disk medium) (M.disk r.1)) }
    ensures within { IfOk result (λ r. r.0 ≤ length events.now) }
    ensures some { IfOk result (λ r. 0 < length events.now → 0 < r.0) }
    ensures count { IfOk result (λ r. vec_len replies.new ≡ vec_len replies.old + r.0) }
    ensures earlier { take (vec_len replies.old) replies.new.items ≡ replies.old.items }
    ensures refused { IfErr result (λ e. RecordsNone settings (M.disk medium) e.0 (M.disk e.1)) }
    ensures none { IfErr result (λ e. replies.new.items ≡ replies.old.items) }
{
    if let Err(refusal) = format(&mut medium, &settings) {
        return Err((refusal, medium));
    }
    match record_all(alloc, settings, medium, events, replies) {
        Ok(done) => Ok(done),
        Err(medium) => Err((Refusal::OutOfMemory, medium)),
    }
}
