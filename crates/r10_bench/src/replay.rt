//! How long a replay through the public recorder takes: what a cursor gives, entry by entry, in processor time. A closed file is
//! replayed in one instalment, and the check of it, which judges it whole where it is read first, is timed by itself; a file that
//! is recorded is replayed after each commit.

use crate::fault::BenchFault;
use crate::figures::{lap, show};
use crate::mounted::{InMemory, begin};
use crate::whole::{LENGTH, NUMBER, ROUND, TEXT, fill, size_of_file};
use r10_body::Refusal;
use r10_count::Items;
use r10_cursor::Cursor;
use std::alloc::Global;
use std::time::CpuClock;

/// The last count that there is.
const LAST: u64 = 281_474_976_710_655;

/// How many messages there are to a commit and an instalment, where a file is replayed while it is recorded.
const SHOWN: u32 = 4 * ROUND;

/// What instalments gave.
#[derive(Clone, Copy)]
struct Replayed {
    instalments: u64,
    entries: u64,
    /// Processor time of the instalments.
    advancing: u64,
    /// Processor time of all entries that were given, which are dropped then.
    giving: u64,
}

/// Nothing yet.
const NONE: Replayed = Replayed {
    instalments: 0,
    entries: 0,
    advancing: 0,
    giving: 0,
};

/// A cursor on the first file, for all channels and all counts.
fn open(alloc: Global, recorder: &mut InMemory) -> Result<Cursor, Refusal> {
    recorder.cursor(0, Items::of(Vec::new(alloc)), 0, LAST)
}

/// Takes what a cursor has yet to give, and answers how many entries that was.
fn take_all(cursor: &mut Cursor) -> u64 {
    let mut taken = 0u64;
    for _ in 0..cursor.queue_len() {
        if cursor.next().is_some() {
            taken = taken.wrapping_add(1);
        }
    }
    taken
}

/// Takes a cursor's next instalment and all that it gives, and counts it in.
fn take_instalment<R: CpuClock>(
    rt: &R,
    recorder: &mut InMemory,
    cursor: &mut Cursor,
    replayed: &mut Replayed,
) -> Result<(), Refusal> {
    let mut last = 0;
    lap(rt, &mut last);
    recorder.advance(cursor)?;
    let advancing = lap(rt, &mut last);
    let taken = take_all(cursor);
    replayed.giving = replayed.giving.saturating_add(lap(rt, &mut last));
    replayed.instalments = replayed.instalments.saturating_add(1);
    replayed.entries = replayed.entries.saturating_add(taken);
    replayed.advancing = replayed.advancing.saturating_add(advancing);
    Ok(())
}

/// Replays all that a recorder's first file has, which is closed, and of which at least so many entries must come.
pub(crate) fn run<R: Print + CpuClock>(
    rt: &R,
    alloc: Global,
    mut recorder: InMemory,
    least: u32,
) -> Result<(), BenchFault> {
    let (mut last, mut replayed) = (0, NONE);
    let bytes = size_of_file(&recorder)?;
    lap(rt, &mut last);
    let mut cursor = open(alloc, &mut recorder)?;
    let checking = lap(rt, &mut last);
    take_instalment(rt, &mut recorder, &mut cursor, &mut replayed)?;
    let Replayed {
        instalments,
        entries,
        advancing,
        giving,
    } = replayed;
    let figures = [
        ("replay-entries", entries, "entries", 0),
        ("replay-instalments", instalments, "instalments", 0),
        ("replay-advance", entries, "entries", advancing),
        ("replay-next", entries, "entries", giving),
        (
            "replay",
            entries,
            "entries",
            advancing.saturating_add(giving),
        ),
        ("check", bytes, "bytes", checking),
    ];
    show(rt, entries >= u64::from(least), &figures)
}

/// Records so many messages in a file, with a commit after each four rounds, and replays it after each.
pub(crate) fn follow<R: Print + CpuClock>(
    rt: &R,
    alloc: Global,
    number: u32,
) -> Result<(), BenchFault> {
    let mut replayed = NONE;
    let mut recorder = begin(alloc, number, LENGTH, NUMBER)?;
    let mut cursor = open(alloc, &mut recorder)?;
    for first in (0..number).step_by(SHOWN as usize) {
        let next = number.min(first.saturating_add(SHOWN));
        fill(rt, alloc, &mut recorder, first..next, &TEXT, 1, true)?;
        take_instalment(rt, &mut recorder, &mut cursor, &mut replayed)?;
    }
    let Replayed {
        instalments,
        entries,
        advancing,
        giving,
    } = replayed;
    let figures = [
        ("replay-behind-instalments", instalments, "instalments", 0),
        ("replay-behind-advance", entries, "entries", advancing),
        ("replay-behind-next", entries, "entries", giving),
        (
            "replay-behind",
            entries,
            "entries",
            advancing.saturating_add(giving),
        ),
    ];
    show(rt, entries >= u64::from(number), &figures)
}
