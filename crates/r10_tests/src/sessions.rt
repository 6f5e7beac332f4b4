// Sessions of a recorder with the channels 5 and 6.

use crate::inputs::{formatted_medium, make};
use crate::losing::{ALL, Barrier, LOST, Losing, Seen};
use crate::meeting::{MeetingPoint, Only, WaitingSource};
use crate::run::{SessionNumbers, end_of, run_twice, run_two};
use crate::sources::{ListSource, Stopping};
use r10_shared::{AnySource, Gate, Open, StopFlag};
use std::alloc::Global;
use std::marker::Brand;
use std::sync::{Arc, Wait};
use std::test::Fail;
use std::thread::Threads;

/// What is reported of two feeds of ten messages that were all filed, and all read by one reader.
const ALL_FILED_AND_READ: SessionNumbers = (
    [Some((5, 10, 0, 0, 10, 0)), Some((6, 10, 0, 0, 10, 0))],
    20,
    Ok(true),
);

/// What is reported of two feeds, for lanes of this capacity, and what their reader has seen.
fn record<R: Threads + Wait + Sync, G: Gate + Sync>(
    rt: &R,
    alloc: Global,
    capacity: usize,
    gate: &G,
    first: AnySource,
    second: AnySource,
) -> Result<(SessionNumbers, Seen), Fail> {
    let made = make(alloc, capacity, formatted_medium(alloc)?)?;
    let report = run_two::<Brand, R, G>(rt, alloc, gate, made, first, second)?;
    Ok(end_of(alloc, report))
}

/// The same of two sources of ten messages.
fn record_lists<R: Threads + Wait + Sync, G: Gate + Sync>(
    rt: &R,
    alloc: Global,
    gate: &G,
) -> Result<SessionNumbers, Fail> {
    let first: AnySource = Box::new(alloc, ListSource::of(alloc, 2000, 10)?)?;
    let second: AnySource = Box::new(alloc, ListSource::of(alloc, 2000, 10)?)?;
    let (numbers, _seen) = record(rt, alloc, 1000, gate, first, second)?;
    Ok(numbers)
}

/// The reader was advanced before. It lets go what its cursor has queued, and goes on: an advance would be refused otherwise.
#[test]
fn two_feeds_are_filed_and_read(rt: HostRuntime) -> Result<(), Fail> {
    assert_eq!(rt; record_lists(&rt, rt.alloc(), &Open)?, ALL_FILED_AND_READ);
    Ok(())
}

/// The workers have the numbers from 0 to 4.
#[test]
fn nobody_works_behind_a_shut_gate(rt: HostRuntime) -> Result<(), Fail> {
    assert_eq!(rt;
        record_lists(&rt, rt.alloc(), &Only(5))?,
        (
            [Some((5, 0, 0, 0, 0, 0)), Some((6, 0, 0, 0, 0, 0))],
            0,
            Ok(true)
        )
    );
    Ok(())
}

/// Five workers meet at the gate. Then each source, before it gives its second message, waits until the other was asked too.
#[test]
fn all_workers_run_at_the_same_time(rt: HostRuntime) -> Result<(), Fail> {
    let alloc = rt.alloc();
    let meeting = MeetingPoint::new(alloc)?;
    let first: AnySource = Box::new(alloc, WaitingSource::of(alloc, &meeting, 1, 7)?)?;
    let second: AnySource = Box::new(alloc, WaitingSource::of(alloc, &meeting, 1, 7)?)?;
    let (numbers, _seen) = record(&rt, alloc, 1000, &*meeting, first, second)?;
    assert_eq!(rt; (meeting.in_vain(), numbers), (false, ALL_FILED_AND_READ));
    Ok(())
}

#[test]
fn a_feed_ends_at_a_stop_and_goes_on_in_another_session(rt: HostRuntime) -> Result<(), Fail> {
    let alloc = rt.alloc();
    let stop = Arc::new(alloc, StopFlag::new())?;
    let first: AnySource = Box::new(
        alloc,
        Stopping {
            listed: ListSource::of(alloc, 2000, 10)?,
            at: 4,
            stop: Arc::try_clone(&stop)?,
        },
    )?;
    let other: AnySource = Box::new(alloc, ListSource::of(alloc, 3000, 5)?)?;
    let made = make(alloc, 1000, formatted_medium(alloc)?)?;
    let (sent, report) = run_twice::<Brand, _>(&rt, alloc, &*stop, made, first, other)?;
    let (numbers, _seen) = end_of(alloc, report);
    assert_eq!(rt;
        (sent, numbers),
        (6, ([Some((5, 11, 0, 0, 11, 0)), None], 0, Ok(true)))
    );
    Ok(())
}

#[test]
fn a_loss_of_70_000_messages_says_its_number(rt: HostRuntime) -> Result<(), Fail> {
    let alloc = rt.alloc();
    let meeting = MeetingPoint::new(alloc)?;
    let gate = Barrier(Arc::try_clone(&meeting)?);
    let first: AnySource = Box::new(alloc, Losing::of(alloc, &meeting)?)?;
    let second: AnySource = Box::new(alloc, ListSource::of(alloc, 0, 0)?)?;
    let (numbers, seen) = record(&rt, alloc, 2, &gate, first, second)?;
    let (accepted, refused) = (seen.entries, seen.lost());
    assert_eq!(rt;
        (
            meeting.in_vain(),
            seen.wrong,
            accepted.wrapping_add(refused)
        ),
        (false, 0, ALL)
    );
    assert_eq!(rt; seen.greatest >= LOST, true);
    assert_eq!(rt;
        numbers,
        (
            [
                Some((5, accepted, refused, 0, accepted, 0)),
                Some((6, 0, 0, 0, 0, 0))
            ],
            accepted,
            Ok(true)
        )
    );
    Ok(())
}
