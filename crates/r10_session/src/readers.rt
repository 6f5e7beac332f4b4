//! Readers: their cursors, and what they come to.

ghost use Rattle.std.specs.Prelude.{◌≡◌, ◌<◌, ◌≤◌, ◌+◌, ◌-◌, ◌^◌, ◌++◌, ◌∷◌, [], All, IfOk, List, OnOk};
ghost use Rattle.std.specs.Prelude.{Option, drop, map, slice_index_or};
ghost use Rattle.r10_body.specs.declared.refusal.Refusal.{Refusal as RefusalValue};
ghost use Rattle.r10_session.specs.Readers.{AreCursorsOpened, BeginsReading, OpensReader, cursors_in, fill, refusal_of};

use crate::beginning::ask_all;
use crate::ended::ReaderEnd;
use r10_body::Refusal;
use r10_gauge::Pass;
use r10_machine::Reply;
use r10_medium::BlockMedium;
use r10_script::ReaderTable;
use r10_shared::{Cabinet, Cursor, Held, Order, Player, Rings};
use std::alloc::{AllocError, Global};
use std::sync::Wait;

/// The replies to the steps; of each reader the refusal of its cursor, if it was refused; and the cursors of the others, in order.
#[derive(Drop)]
pub(crate) struct Begun {
    pub(crate) replies: Vec<Reply>,
    pub(crate) refused: Vec<Option<Refusal>>,
    pub(crate) cursors: Vec<Cursor>,
}

/// Opens a reader's cursor.
fn open<M: BlockMedium, N: Rings>(
    alloc: Global,
    held: &mut Held<M, N>,
    table: &ReaderTable,
) -> Result<Result<Cursor, Refusal>, AllocError>
    ensures { IfOk result (λ opened. OpensReader M.disk held.old table.now opened held.new) }
{
    let channels = table.channels.duplicate(alloc)?;
    Ok(held.cursor(table.file, channels, table.from, table.to))
}

/// Puts the refusal of a cursor, or none and the cursor, after these.
fn add(
    refused: &mut Vec<Option<Refusal>>,
    cursors: &mut Vec<Cursor>,
    opened: Result<Cursor, Refusal>,
) -> Result<(), AllocError>
    ensures refused { OnOk result (refused.new.items ≡ refused.old.items ++ refusal_of opened ∷ []) }
    ensures cursors { OnOk result (cursors.new.items ≡ cursors.old.items ++ cursors_in opened) }
{
    match opened {
        Ok(cursor) => {
            refused.push(None)?;
            cursors.push(cursor)?;
            Ok(())
        }
        Err(refusal) => {
            refused.push(Some(refusal))?;
            Ok(())
        }
    }
}

/// Opens the cursors of these readers in turn.
fn open_all<M: BlockMedium, N: Rings>(
    alloc: Global,
    held: &mut Held<M, N>,
    tables: &[ReaderTable],
) -> Result<(Vec<Option<Refusal>>, Vec<Cursor>), AllocError>
    ensures { IfOk result (λ r. AreCursorsOpened M.disk held.old tables.now r.0.items r.1.items held.new) }
{
    let mut refused = Vec::new(alloc);
    let mut cursors = Vec::new(alloc);
    for place in 0..tables.len() {
        let opened = open(alloc, held, &tables[place])?;
        add(&mut refused, &mut cursors, opened)?;
    }
    Ok((refused, cursors))
}

/// Asks the steps of the recorder under the lock in turn, and then opens the readers' cursors.
fn begin_held<M: BlockMedium, N: Rings, T: Wait>(
    rt: &T,
    alloc: Global,
    held: &mut Held<M, N>,
    steps: &[Order],
    tables: &[ReaderTable],
) -> Result<Begun, AllocError>
    ensures { IfOk result
        (λ begun. BeginsReading M.disk steps.now tables.now begun.replies.items begun.refused.items begun.cursors.items) }
{
    let replies = ask_all(rt, alloc, held, steps)?;
    let (refused, cursors) = open_all(alloc, held, tables)?;
    Ok(Begun {
        replies,
        refused,
        cursors,
    })
}

/// The same, as soon as the lock is free.
pub(crate) fn begin<M: BlockMedium, N: Rings, T: Wait>(
    rt: &T,
    alloc: Global,
    cabinet: &Cabinet<M, N>,
    steps: &[Order],
    tables: &[ReaderTable],
) -> Result<Begun, AllocError>
    ensures { IfOk result
        (λ begun. BeginsReading M.disk steps.now tables.now begun.replies.items begun.refused.items begun.cursors.items) }
{
    let mut held = cabinet.hold(rt);
    begin_held(rt, alloc, &mut held, steps, tables)
}

/// Players with these cursors, each with a pass of the cabinet.
pub(crate) fn players_of<M: BlockMedium, N: Rings>(
    alloc: Global,
    cabinet: &Cabinet<M, N>,
    pass: &mut Pass,
    cursors: Vec<Cursor>,
) -> Result<Vec<Player>, AllocError>
    requires { pass.old.cell ≡ cabinet.now.gauge }
    ensures pass { pass.new.cell ≡ cabinet.now.gauge }
    ensures passes { IfOk result (λ players. All (λ player. player.pass.cell ≡ cabinet.now.gauge) players.items) }
    ensures cursors { IfOk result (λ players. map (λ player. player.cursor) players.items ≡ cursors.items) }
{
    let mut players = Vec::new(alloc);
    for cursor in cursors {
        let own = cabinet.split(pass);
        players.push(Player::new(cursor, own))?;
    }
    Ok(players)
}

/// The number at a place, 0 where there is none.
fn number_at(numbers: &[usize], place: usize) -> usize
    ensures { result ≡ slice_index_or numbers.now place 0 }
{
    numbers.get(place).copied().unwrap_or(0)
}

/// The end of a reader, and which number is next: its refusal, or else the number at this place.
fn reader_end(refused: Option<Refusal>, numbers: &[usize], next: usize) -> (ReaderEnd, usize)
    requires { next < 2 ^ 64 - 1 }
    ensures end { (others : List (Option RefusalValue))
        → fill (refused ∷ others) (drop next numbers.now) ≡ result.0 ∷ fill others (drop result.1 numbers.now) }
    ensures step { result.1 ≤ next + 1 }
{
    match refused {
        Some(refusal) => (ReaderEnd::Refused(refusal), next),
        None => (ReaderEnd::Read(number_at(numbers, next)), next + 1),
    }
}

/// The ends of readers: of each the refusal of its cursor, or else how many entries it read, by these numbers of those that were
/// not refused, in order.
pub(crate) fn reader_ends(
    alloc: Global,
    refused: &[Option<Refusal>],
    numbers: &[usize],
) -> Result<Vec<ReaderEnd>, AllocError>
    ensures { IfOk result (λ ends. ends.items ≡ fill refused.now numbers.now) }
{
    let mut ends = Vec::new(alloc);
    let mut next = 0usize;
    for place in 0..refused.len() {
        let (end, after) = reader_end(refused[place], numbers, next);
        ends.push(end)?;
        next = after;
    }
    Ok(ends)
}
