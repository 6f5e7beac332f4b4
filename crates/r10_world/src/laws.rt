//! Calls on a recorder and on the table of cursors, as calls that do nothing.

ghost use Rattle.std.specs.Prelude.{◌≡◌, ◌≤◌, [], ℕ, List, None, Option};
ghost use Rattle.r10_medium.specs.Disk.{Image};
ghost use Rattle.r10_body.specs.declared.entry.Entry.{Entry};
ghost use Rattle.r10_body.specs.declared.refusal.Refusal.{Refusal as RefusalValue};
ghost use Rattle.r10_body.specs.declared.refusal.Refusal.TheVariants as refusals;
ghost use Rattle.r10_control.specs.State.{RecorderState};
ghost use Rattle.r10_machine.specs.Calls.{Advances, GivesQueued, Opens};
ghost use Rattle.r10_machine.specs.Limits.{IsConfig};
ghost use Rattle.r10_machine.specs.Config.{Config};
ghost use Rattle.r10_machine.specs.Machine.{File, Lane, Machine, SetsCursor, fresh};
ghost use Rattle.r10_machine.specs.EventChecks.{refusal};
ghost use Rattle.r10_machine.specs.Says.{MediumHas};
ghost use Rattle.r10_machine.specs.declared.event.Event.{Event as EventValue};
ghost use Rattle.r10_machine.specs.declared.event.Event.TheVariants as events;
ghost use Rattle.r10_machine.specs.declared.reply.Reply.{Reply as ReplyValue};
ghost use Rattle.r10_machine.specs.declared.reply.Reply.TheVariants as replies;
ghost use Rattle.r10_cursor.specs.declared.cursor.Cursor.{Cursor};
ghost use Rattle.r10_cursor.specs.Staying.{NoneShrinks};
ghost use Rattle.r10_cursor.specs.Read.{KeepsBytes};
ghost use Rattle.r10_cursor.specs.Steps.{StepsTo};
ghost use Rattle.r10_refinement.specs.KeptState.{Kept};
ghost use Rattle.r10_refinement.specs.Means.{KeptStepsTo};
ghost use Rattle.r10_world.specs.Answering.{AnswersSo, ChangesNothing};
ghost use Rattle.r10_world.specs.Joined.{KeptAndSlotsStandFor, SlotsStepTo, KeptAndSlotsStepTo, new_kept};

use r10_cursor::cursors_stay_over_steps;
use r10_machine::{a_new_recorder_is_sound, a_step_stays_sound, files_on_a_medium_are_found};
use r10_medium::BlockMedium;

/// A new recorder over a medium that has files, joined by an empty table, represents a machine that is unmounted, with these files
/// and empty lanes.
pub fn a_new_recorder_stands()
    ensures { (s : Config) (image : Image) (files : List File) (failures : ℕ) → MediumHas s image files
        → KeptAndSlotsStandFor (new_kept s) image failures [] (fresh s.channels files failures) }
{
    // For the proof: a new recorder is sound; the files that a medium has are found by a new recorder.
    a_new_recorder_is_sound();
    files_on_a_medium_are_found();
}

/// A recorder's call, which leaves the cursors, is a step of the machine that both represent. In the same generation no file may
/// have fewer bytes afterwards, and the medium shows those that it showed; a call that leaves files and medium needs nothing more.
pub fn recorders_calls_are_steps()
    ensures moves { (k : Kept) (later : Kept) (old : Image) (new : Image) (before : ℕ) (now : ℕ) (m : Machine) (machine : Machine)
        (event : EventValue) (reply : ReplyValue) (slots : List (Option Cursor)) → KeptAndSlotsStandFor k old before slots m
        → KeptStepsTo k m event reply later new now machine → machine.cursors ≡ m.cursors → later.config ≡ k.config
        → (machine.generation ≡ m.generation → NoneShrinks m.files machine.files × KeepsBytes old new m.files)
        → KeptAndSlotsStepTo k m event reply machine later new now slots }
    ensures stays { (k : Kept) (later : Kept) (old : Image) (new : Image) (before : ℕ) (now : ℕ) (m : Machine)
        (machine : Machine) (event : EventValue) (reply : ReplyValue) (slots : List (Option Cursor))
        → KeptAndSlotsStandFor k old before slots m → KeptStepsTo k m event reply later new now machine
        → machine.cursors ≡ m.cursors → later.config ≡ k.config → machine.files ≡ m.files → new ≡ old
        → KeptAndSlotsStepTo k m event reply machine later new now slots }
{
    // For the proof: cursors represent the machine over a step that leaves them.
    cursors_stay_over_steps();
}

/// A call on the table, which sets one cursor, is a step of the machine too, where the recorder's checks pass.
pub fn tables_calls_are_steps()
    ensures opens { (k : Kept) (image : Image) (before : ℕ) (now : ℕ) (m : Machine) (file : ℕ) (channels : List ℕ)
        (from : ℕ) (to : ℕ) (id : ℕ) (slots : List (Option Cursor)) (later : List (Option Cursor))
        → IsConfig k.config → KeptAndSlotsStandFor k image before slots m
        → before ≤ now → refusal k.config m (events.Cursor file channels from to) ≡ None
        → StepsTo (Opens (record m { failures = now }) file channels from to id) (record m { failures = now }) image slots later
        → SlotsStepTo k m (events.Cursor file channels from to) (replies.Cursor id) image now later }
    ensures advances { (k : Kept) (image : Image) (before : ℕ) (now : ℕ) (m : Machine) (id : ℕ)
        (n : ℕ) (slots : List (Option Cursor)) (later : List (Option Cursor)) → IsConfig k.config
        → KeptAndSlotsStandFor k image before slots m → before ≤ now → refusal k.config m (events.Advance id) ≡ None
        → StepsTo (Advances (record m { failures = now }) id n) (record m { failures = now }) image slots later
        → SlotsStepTo k m (events.Advance id) (replies.Advanced n) image now later }
    ensures gives { (k : Kept) (image : Image) (before : ℕ) (now : ℕ) (m : Machine) (id : ℕ)
        (given : Option Entry) (slots : List (Option Cursor)) (later : List (Option Cursor)) → IsConfig k.config
        → KeptAndSlotsStandFor k image before slots m → before ≤ now → refusal k.config m (events.Next id) ≡ None
        → StepsTo (GivesQueued (record m { failures = now }) id given) (record m { failures = now }) image slots later
        → SlotsStepTo k m (events.Next id) (replies.Next given) image now later }
    ensures closes { (k : Kept) (image : Image) (before : ℕ) (now : ℕ) (m : Machine) (id : ℕ)
        (slots : List (Option Cursor)) (later : List (Option Cursor)) → IsConfig k.config
        → KeptAndSlotsStandFor k image before slots m → before ≤ now → refusal k.config m (events.Close id) ≡ None
        → StepsTo (λ new. SetsCursor (record m { failures = now }) new id None) (record m { failures = now }) image slots later
        → SlotsStepTo k m (events.Close id) replies.Done image now later }
{
    // For the proof: a step keeps a state sound.
    a_step_stays_sound();
}

/// An event that is refused, and not because the medium failed, changes nothing but the count of a loss, whatever files the medium
/// has.
pub fn refusals_change_nothing<M: BlockMedium>(_medium: &M)
    ensures { (old : RecorderState M Lane) (slots : List (Option Cursor)) (event : EventValue) (r : RefusalValue)
        (new : RecorderState M Lane) (later : List (Option Cursor)) → AnswersSo M.disk old slots event (replies.Refused r) new later
        → (r ≡ refusals.Medium → ⊥) → ChangesNothing M.disk old slots event new later }
{}
