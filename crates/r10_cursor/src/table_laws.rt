//! Cursors while a recorder goes on, as calls that do nothing.

ghost use Rattle.std.specs.Prelude.{◌≡◌, ℕ, List, Option, Some, length, slice_get, slice_set};
ghost use Rattle.r10_medium.specs.Disk.{Image};
ghost use Rattle.r10_machine.specs.Calls.{Advances};
ghost use Rattle.r10_machine.specs.Config.{Config};
ghost use Rattle.r10_machine.specs.Machine.{Cursor as MachineCursor, File, Machine, cursor_of};
ghost use Rattle.r10_machine.specs.Says.{MediumSays};
ghost use Rattle.r10_machine.specs.Sound.{IsSound};
ghost use Rattle.r10_machine.specs.Step.{Step};
ghost use Rattle.r10_machine.specs.declared.event.Event.{Event as EventValue};
ghost use Rattle.r10_machine.specs.declared.reply.Reply.{Reply as ReplyValue};
ghost use Rattle.r10_cursor.specs.declared.cursor.Cursor.{Cursor};
ghost use Rattle.r10_cursor.specs.Read.{HaveRead, KeepsBytes, TakesNext};
ghost use Rattle.r10_cursor.specs.Staying.{NoneShrinks};
ghost use Rattle.r10_cursor.specs.RepresentedCursors.{SlotsStandFor, slot_at};
ghost use Rattle.r10_cursor.specs.Steps.{StepsTo};

/// A step of the machine that leaves its cursors leaves them to the table that represented them. What they have read stays read,
/// where in the same generation no file has fewer bytes and the image keeps those that it showed, and the medium says the files.
pub fn cursors_stay_over_steps()
    ensures { (s : Config) (old : Image) (new : Image) (m : Machine) (later : Machine) (event : EventValue)
        (reply : ReplyValue) (slots : List (Option Cursor)) → IsSound s m → Step s m event reply later
        → later.cursors ≡ m.cursors → MediumSays s new later.files
        → (later.generation ≡ m.generation → NoneShrinks m.files later.files × KeepsBytes old new m.files)
        → SlotsStandFor slots m.cursors → HaveRead old m.files m.generation slots m.cursors
        → SlotsStandFor slots later.cursors × HaveRead new later.files later.generation slots later.cursors }
{}

/// A cursor that took its next instalment is the machine's that advanced.
pub fn advances_are_the_machines()
    ensures { (image : Image) (m : Machine) (id : ℕ) (c : MachineCursor) (f : File) (old : Cursor)
        (new : Cursor) (slots : List (Option Cursor)) → SlotsStandFor slots m.cursors → cursor_of id m ≡ Some c
        → slice_get m.files c.file ≡ Some f → slot_at slots id ≡ Some old → TakesNext image f c.covered old new
        → StepsTo (Advances m id (length new.reading.queue)) m image slots (slice_set slots id (Some new)) }
{}
