//! The table of cursors.

ghost use Rattle.std.specs.Prelude.{◌≡◌, ◌<◌, [], length, drop, slice_get, IfOk, IfErr, MatchResult, OnOk};
ghost use Rattle.std.specs.Prelude.{OnErr, IsSomeAnd, Some, None};
ghost use Rattle.slab.specs.Slab.{Updates, get};
ghost use Rattle.r10_count.specs.Checks.{first_broken};
ghost use Rattle.r10_medium.specs.Disk.{Image};
ghost use Rattle.r10_machine.specs.Calls.{GivesQueued, Opens};
ghost use Rattle.r10_machine.specs.Checks.{advance_checks, open_checks};
ghost use Rattle.r10_machine.specs.Config.{Config};
ghost use Rattle.r10_machine.specs.Machine.{Machine, SetsCursor, cursor_of};
ghost use Rattle.r10_machine.specs.Says.{MediumSays};
ghost use Rattle.r10_cursor.specs.RepresentedCursors.{SlotsStandFor, fresh_slot, read_checks, with_queue};
ghost use Rattle.r10_cursor.specs.Steps.{StepsTo};

use crate::Cursor;
use r10_body::{Entry, Refusal};
use r10_count::{Count, Items};
use slab::Slab;
use std::alloc::{AllocError, Global};

/// Opens a cursor on a file of a generation, for these channels, or all where there are none, and for a range of counts. It gets
/// a number that no open cursor has, and has covered nothing. Where memory is refused, the cursors are as before.
pub fn open_cursor(
    alloc: Global,
    cursors: &mut Slab<Cursor>,
    file: usize,
    generation: u64,
    channels: &Items<u16>,
    from: Count,
    to: Count,
) -> Result<usize, AllocError>
    ensures was_free { IfOk result (λ id. get cursors.old id ≡ None) }
    ensures opened { IfOk result
        (λ id. Updates cursors.old cursors.new id (Some (fresh_slot generation channels.now file from to))) }
    ensures kept { OnErr result (cursors.new.slots ≡ cursors.old.slots) }
    ensures opens { (s : Config) (image : Image) (m : Machine) → SlotsStandFor cursors.old.slots m.cursors
        → m.generation ≡ generation → file < length m.files → MediumSays s image m.files
        → IfOk result (λ id. StepsTo (Opens m file channels.now from to id) m image cursors.old.slots cursors.new.slots) }
{
    let channels = channels.duplicate(alloc)?;
    let cursor = Cursor::new(alloc, file, generation, channels, from, to);
    let Ok(id) = cursors.insert(cursor) else {
        return Err(AllocError);
    };
    Ok(id)
}

/// Takes the first of a cursor's queue, if there is one. A number that no open cursor has is refused as `NoCursor`.
pub fn next_entry(cursors: &mut Slab<Cursor>, id: usize) -> Result<Option<Entry>, Refusal>
    ensures given { IfOk result (λ given. IsSomeAnd (get cursors.old id) (λ c. (given ≡ slice_get c.reading.queue 0)
        × Updates cursors.old cursors.new id (Some (with_queue (drop 1 c.reading.queue) c)))) }
    ensures refused { IfErr result (λ r. (get cursors.old id ≡ None) × (r ≡ Refusal.NoCursor)) }
    ensures kept { OnErr result (cursors.new.slots ≡ cursors.old.slots) }
    ensures gives { (image : Image) (m : Machine) → SlotsStandFor cursors.old.slots m.cursors
        → IfOk result (λ given. StepsTo (GivesQueued m id given) m image cursors.old.slots cursors.new.slots) }
    ensures passed { (m : Machine) → SlotsStandFor cursors.old.slots m.cursors → MatchResult result
        (λ given. first_broken (open_checks (cursor_of id m)) ≡ None) (λ r. first_broken (open_checks (cursor_of id m)) ≡ Some r) }
{
    match cursors.get_mut(id) {
        Some(cursor) => Ok(cursor.reading.next()),
        None => Err(Refusal::NoCursor),
    }
}

/// Closes a cursor, whose number is free from then on. A number that no open cursor has is refused as `NoCursor`.
pub fn close_cursor(cursors: &mut Slab<Cursor>, id: usize) -> Result<(), Refusal>
    ensures closed { OnOk result (Updates cursors.old cursors.new id None) }
    ensures refused { IfErr result (λ r. (get cursors.old id ≡ None) × (r ≡ Refusal.NoCursor)) }
    ensures kept { OnErr result (cursors.new.slots ≡ cursors.old.slots) }
    ensures closes { (image : Image) (m : Machine) → SlotsStandFor cursors.old.slots m.cursors
        → OnOk result (StepsTo (λ new. SetsCursor m new id None) m image cursors.old.slots cursors.new.slots) }
    ensures passed { (m : Machine) → SlotsStandFor cursors.old.slots m.cursors → MatchResult result
        (λ u. first_broken (open_checks (cursor_of id m)) ≡ None) (λ r. first_broken (open_checks (cursor_of id m)) ≡ Some r) }
{
    let Some(_) = cursors.try_remove(id) else {
        return Err(Refusal::NoCursor);
    };
    Ok(())
}

/// The number of a cursor's file, where the cursor may go on: it is open, of this generation, and its queue is read to the end.
/// Else it is refused as `NoCursor`, `Stale` or `Unread`, the first of them.
pub fn check_read(cursors: &Slab<Cursor>, generation: u64, id: usize) -> Result<usize, Refusal>
    ensures tested { MatchResult result (λ file. first_broken (read_checks generation (get cursors.now id)) ≡ None)
        (λ r. first_broken (read_checks generation (get cursors.now id)) ≡ Some r) }
    ensures file { IfOk result
        (λ file. IsSomeAnd (get cursors.now id) (λ c. (c.file ≡ file) × (c.generation ≡ generation) × (c.reading.queue ≡ []))) }
    ensures passed { (m : Machine) → SlotsStandFor cursors.now.slots m.cursors
        → MatchResult result (λ file. first_broken (advance_checks generation (cursor_of id m)) ≡ None)
        (λ r. first_broken (advance_checks generation (cursor_of id m)) ≡ Some r) }
{
    let Some(cursor) = cursors.get(id) else {
        return Err(Refusal::NoCursor);
    };
    if cursor.generation != generation {
        return Err(Refusal::Stale);
    }
    if cursor.reading.queue_len() > 0 {
        return Err(Refusal::Unread);
    }
    Ok(cursor.file)
}
