// Readers, and what is seen beside the lock.

ghost use Rattle.std.specs.Prelude.{◌≡◌};
ghost use Rattle.r10_held.specs.Account.{IsNew};
ghost use Rattle.r10_held.specs.LockFact.{outlet_received, outlet_spec};
ghost use Rattle.r10_held.specs.Naming.{AreNamed};
ghost use Rattle.r10_medium.specs.MemoryDisk.{memory_disk};

use crate::asks::{Ask, otherwise};
use crate::inputs::{NewRecorder, cabinet_of, formatted_medium, make, offer};
use crate::run::LAST;
use r10_body::{Glance, Refusal};
use r10_count::Items;
use r10_cursor::Cursor;
use r10_gauge::Pass;
use r10_held::{Cabinet, Player, Rings};
use r10_medium::Memory;
use std::alloc::Global;
use std::marker::Brand;
use std::sync::Wait;
use std::test::Fail;

/// What is taken in first, and what each call answers.
const TAKEN: &[(Ask, Result<usize, Refusal>)] = &[
    (Ask::Mount, Ok(0)),
    (Ask::Tick, Ok(0)),
    (Ask::Start(b"FLT1"), Ok(0)),
    (Ask::Pump(64), Ok(1)),
];

const SHOWN: &[(Ask, Result<usize, Refusal>)] = &[(Ask::Commit, Ok(0))];

const ERASED: &[(Ask, Result<usize, Refusal>)] = &[(Ask::Stop, Ok(0)), (Ask::Erase, Ok(0))];

/// A cursor on the channel in the first file.
fn open<N: Rings, R: Wait>(
    rt: &R,
    alloc: Global,
    cabinet: &Cabinet<Memory, N>,
) -> Result<Cursor, Fail> {
    let channels = Items::of(Vec::from_slice(alloc, &[5])?);
    let opened = cabinet.hold(rt).cursor(0, channels, 0, LAST);
    Ok(opened?)
}

/// Looks beside the lock.
fn look<N: Rings, R: Wait>(rt: &R, cabinet: &Cabinet<Memory, N>, pass: &mut Pass) -> Glance
    requires { pass.old.cell ≡ cabinet.now.gauge }
    ensures { pass.new.cell ≡ pass.old.cell }
{
    cabinet.glance(rt, pass)
}

/// What a reader's advance answers, the count of the first entry that it gives then, and what the reader has seen.
type AdvanceAnswer = (Result<usize, Refusal>, Option<u64>, Glance);

fn count_of(player: &mut Player) -> Option<u64>
    ensures { player.new.pass ≡ player.old.pass }
{
    let entry = player.next()?;
    Some(entry.count.get())
}

fn read<N: Rings, R: Wait>(
    rt: &R,
    cabinet: &Cabinet<Memory, N>,
    player: &mut Player,
) -> AdvanceAnswer
    requires { player.old.pass.cell ≡ cabinet.now.gauge }
    ensures { player.new.pass.cell ≡ player.old.pass.cell }
{
    let answer = player.advance(rt, cabinet);
    (answer, count_of(player), player.seen())
}

/// Takes in a message, shows it, reads it, and erases the file. How many calls answered otherwise, what passes saw, and what each
/// advance of a reader answers. The passes: one that was split before the commit, before it and after it, and the one that it was
/// split from, after it.
fn watch<N: Rings, R: Wait>(
    rt: &R,
    alloc: Global,
    made: NewRecorder,
) -> Result<(usize, [Glance; 3], [AdvanceAnswer; 3]), Fail>
    requires new { IsNew memory_disk outlet_spec outlet_received made.gauged.recorder }
    requires named { AreNamed N.rings made.gauged.recorder.lanes }
    requires gauge { made.gauged.cell ≡ N.gauge }
{
    let NewRecorder { gauged, five, .. } = made;
    let mut five = five;
    offer(alloc, &mut five)?;
    let (cabinet, mut pass) = cabinet_of::<N>(gauged);
    let wrong = otherwise(rt, &cabinet, TAKEN);
    let _begun = look(rt, &cabinet, &mut pass);
    let mut split = cabinet.split(&mut pass);
    let before = split.last();
    let wrong = wrong.wrapping_add(otherwise(rt, &cabinet, SHOWN));
    let cursor = open(rt, alloc, &cabinet)?;
    let mut player = Player::new(cursor, cabinet.split(&mut split));
    let glances = [
        before,
        look(rt, &cabinet, &mut split),
        look(rt, &cabinet, &mut pass),
    ];
    let first = read(rt, &cabinet, &mut player);
    let again = read(rt, &cabinet, &mut player);
    let wrong = wrong.wrapping_add(otherwise(rt, &cabinet, ERASED));
    let erased = read(rt, &cabinet, &mut player);
    Ok((wrong, glances, [first, again, erased]))
}

/// What is seen after so many publications.
const fn glance(commits: u64, bytes: u64) -> Glance {
    Glance {
        commits,
        file: 0,
        bytes,
    }
}

#[test]
fn a_reader_takes_what_was_published(rt: HostRuntime) -> Result<(), Fail> {
    let alloc = rt.alloc();
    let made = make(alloc, 2, formatted_medium(alloc)?)?;
    let (wrong, glances, reads) = watch::<Brand, _>(&rt, alloc, made)?;
    let shown = glance(2, 112);
    assert_eq!(rt; (wrong, glances), (0, [glance(1, 68), shown, shown]));
    assert_eq!(rt;
        reads,
        [
            (Ok(1), Some(1001), shown),
            (Ok(0), None, shown),
            (Err(Refusal::Stale), None, glance(4, 0)),
        ]
    );
    Ok(())
}
