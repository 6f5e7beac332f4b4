// Each call under the lock.

ghost use Rattle.std.specs.Prelude.{◌≡◌};
ghost use Rattle.r10_held.specs.Account.{IsNew};
ghost use Rattle.r10_held.specs.LockFact.{outlet_received, outlet_spec};
ghost use Rattle.r10_held.specs.Naming.{AreNamed};
ghost use Rattle.r10_medium.specs.MemoryDisk.{memory_disk};

use crate::asks::{Ask, otherwise};
use crate::inputs::{LEAP_DAY, NewRecorder, cabinet_of, formatted_medium, make, offer};
use r10_body::Refusal;
use r10_count::Items;
use r10_held::{Held, Rings};
use r10_medium::Memory;
use std::alloc::Global;
use std::marker::Brand;
use std::sync::Wait;
use std::test::Fail;

/// What is recorded first, and what each call answers.
const RECORDED: &[(Ask, Result<usize, Refusal>)] = &[
    (Ask::Commit, Err(Refusal::NotMounted)),
    (Ask::Mount, Ok(0)),
    (Ask::Tick, Ok(0)),
    (Ask::Start(b"FLT1"), Ok(0)),
    (Ask::Pump(1), Ok(1)),
    (Ask::Event, Ok(0)),
    (Ask::Commit, Ok(0)),
];

/// What closes it from without, and takes it away, and so another file.
const CLOSED: &[(Ask, Result<usize, Refusal>)] = &[
    (Ask::Mount, Ok(0)),
    (Ask::Seal, Ok(0)),
    (Ask::Seal, Err(Refusal::NoSuchFile)),
    (Ask::Dismount, Ok(0)),
    (Ask::Mount, Ok(0)),
    (Ask::Tick, Ok(0)),
    (Ask::Start(b"FLT1"), Err(Refusal::NameTaken)),
    (Ask::Erase, Ok(0)),
    (Ask::Start(b"FLT1"), Ok(0)),
    (Ask::Stop, Ok(1)),
    (Ask::Erase, Ok(0)),
];

/// What is reported without a change: how often something was published, how many files there are, the last file and its shown
/// bytes, how many messages of the channel were taken in, how many of them erases took, and the bytes that are free.
type LockNumbers = (
    u64,
    usize,
    Option<(usize, u64)>,
    Option<u64>,
    Option<u64>,
    u64,
);

fn tell<N: Rings>(held: &mut Held<Memory, N>) -> Result<LockNumbers, Refusal> {
    let files = held.files()?.len();
    let free = held.status()?.free;
    Ok((
        held.commits(),
        files,
        held.last_shown(),
        held.taken(5),
        held.erased(5),
        free,
    ))
}

/// What is read of the first file: the number of the first message with at least the count 1001, the count at a time, and how many
/// messages there are before a place.
type FileNumbers = (Option<usize>, Option<u64>, Result<usize, Refusal>);

fn number_from<N: Rings>(held: &mut Held<Memory, N>) -> Option<usize> {
    match held.find(0, 5, 1001) {
        Ok(Some(found)) => Some(found.number),
        _ => None,
    }
}

fn count_at<N: Rings>(held: &mut Held<Memory, N>) -> Option<u64> {
    match held.count_at(0, LEAP_DAY) {
        Ok(Some(count)) => Some(count.get()),
        _ => None,
    }
}

fn take_to<N: Rings>(
    held: &mut Held<Memory, N>,
    alloc: Global,
    until: usize,
) -> Result<usize, Refusal> {
    let mut cursor = held.cursor(0, Items::of(Vec::new(alloc)), 0, 2000)?;
    held.advance_to(&mut cursor, until)
}

/// How many calls answered otherwise, and what is reported and read then.
type LockAnswers = (usize, LockNumbers, FileNumbers);

/// Offers a message and makes these calls. What came of them, and the medium.
fn call<N: Rings, R: Wait>(
    rt: &R,
    alloc: Global,
    made: NewRecorder,
    asks: &[(Ask, Result<usize, Refusal>)],
) -> Result<(LockAnswers, Memory), Fail>
    requires new { IsNew memory_disk outlet_spec outlet_received made.gauged.recorder }
    requires named { AreNamed N.rings made.gauged.recorder.lanes }
    requires gauge { made.gauged.cell ≡ N.gauge }
{
    let NewRecorder { gauged, five, .. } = made;
    let mut five = five;
    offer(alloc, &mut five)?;
    let (cabinet, _pass) = cabinet_of::<N>(gauged);
    let wrong = otherwise(rt, &cabinet, asks);
    let (mut held, _watch) = cabinet.into_parts();
    let reported = tell(&mut held)?;
    let read = (
        number_from(&mut held),
        count_at(&mut held),
        take_to(&mut held, alloc, 2),
    );
    Ok(((wrong, reported, read), held.into_recorder().into_medium()))
}

/// The same over a medium.
fn call_over<R: Wait>(
    rt: &R,
    alloc: Global,
    medium: Memory,
    asks: &[(Ask, Result<usize, Refusal>)],
) -> Result<(LockAnswers, Memory), Fail> {
    let made = make(alloc, 2, medium)?;
    call::<Brand, R>(rt, alloc, made, asks)
}

/// A message is recorded in a file that is left open; then the file is closed, and taken away.
#[test]
fn each_call_under_the_lock_answers(rt: HostRuntime) -> Result<(), Fail> {
    let alloc = rt.alloc();
    let medium = formatted_medium(alloc)?;
    let (recorded, medium) = call_over(&rt, alloc, medium, RECORDED)?;
    let (closed, _medium) = call_over(&rt, alloc, medium, CLOSED)?;
    assert_eq!(rt;
        recorded,
        (
            0,
            (2, 1, Some((0, 152)), Some(1), Some(0), 30_731),
            (Some(0), Some(1000), Ok(1))
        )
    );
    assert_eq!(rt;
        closed,
        (
            0,
            (4, 0, None, Some(1), Some(1), 31_232),
            (None, None, Err(Refusal::NoSuchFile))
        )
    );
    Ok(())
}
