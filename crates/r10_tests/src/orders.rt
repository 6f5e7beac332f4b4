// What orders leave on the medium.

ghost use Rattle.std.specs.Prelude.{◌≡◌};
ghost use Rattle.r10_held.specs.Account.{IsNew};
ghost use Rattle.r10_held.specs.LockFact.{outlet_received, outlet_spec};
ghost use Rattle.r10_held.specs.Naming.{AreNamed};
ghost use Rattle.r10_medium.specs.MemoryDisk.{memory_disk};

use crate::asks::{Ask, orders_of};
use crate::inputs::{NewRecorder, cabinet_of, formatted_medium, make};
use crate::meeting::Only;
use crate::run::{begin_session, run_and_end};
use r10_medium::Memory;
use r10_shared::{Order, Rings, SessionReport};
use std::alloc::Global;
use std::marker::Brand;
use std::sync::Wait;
use std::test::Fail;
use std::thread::Threads;

/// A file that is left open.
const OPENED: &[Ask] = &[
    Ask::Mount,
    Ask::Tick,
    Ask::Start(b"FLT1"),
    Ask::Event,
    Ask::Commit,
];

/// It is sealed, and another one recorded.
const SEALED: &[Ask] = &[
    Ask::Mount,
    Ask::Seal,
    Ask::Tick,
    Ask::Start(b"FLT2"),
    Ask::Stop,
];

/// Both are erased.
const ERASED: &[Ask] = &[Ask::Mount, Ask::Erase, Ask::Dismount, Ask::Mount];

/// A session of orders alone. The gate lets the worker pass that gives them, where there are no feeds: so nobody else commits.
fn run_orders<N: Rings + Send + Sync, R: Threads + Wait + Sync>(
    rt: &R,
    alloc: Global,
    made: NewRecorder,
    orders: Vec<Order>,
) -> Result<SessionReport<Memory>, Fail>
    requires new { IsNew memory_disk outlet_spec outlet_received made.gauged.recorder }
    requires named { AreNamed N.rings made.gauged.recorder.lanes }
    requires gauge { made.gauged.cell ≡ N.gauge }
{
    let NewRecorder { gauged, .. } = made;
    let (cabinet, _pass) = cabinet_of::<N>(gauged);
    let (feeds, players) = (Vec::new(alloc), Vec::new(alloc));
    run_and_end(rt, alloc, &Only(1), cabinet, feeds, orders, players)
}

/// The last file and its shown bytes, and the medium, after a session of these orders over a medium.
fn left_by<R: Threads + Wait + Sync>(
    rt: &R,
    alloc: Global,
    medium: Memory,
    asks: &[Ask],
) -> Result<(Option<(usize, u64)>, Memory), Fail> {
    let orders = orders_of(alloc, asks)?;
    let made = make(alloc, 2, medium)?;
    let report = run_orders::<Brand, R>(rt, alloc, made, orders)?;
    let recorder = report.recorder;
    Ok((recorder.last_shown(), recorder.into_medium()))
}

/// A setup, a time and an event have 32, 36 and 40 bytes, shown by the commit; the file is left open, and sealed by another
/// recorder, which may begin the next one only after that. Its stop puts a node and a root after setup and time: 68 and 60 bytes.
/// An order that is not given, or given twice, leaves others.
#[test]
fn orders_are_given(rt: HostRuntime) -> Result<(), Fail> {
    let alloc = rt.alloc();
    let medium = formatted_medium(alloc)?;
    let (opened, medium) = left_by(&rt, alloc, medium, OPENED)?;
    let (sealed, medium) = left_by(&rt, alloc, medium, SEALED)?;
    let (erased, _medium) = left_by(&rt, alloc, medium, ERASED)?;
    assert_eq!(rt;
        (opened, sealed, erased),
        (Some((0, 108)), Some((1, 196)), None)
    );
    Ok(())
}

/// How often the recorder published in a session that begins a file.
fn publications<N: Rings + Send + Sync, R: Threads + Wait + Sync>(
    rt: &R,
    alloc: Global,
    made: NewRecorder,
) -> Result<u64, Fail>
    requires new { IsNew memory_disk outlet_spec outlet_received made.gauged.recorder }
    requires named { AreNamed N.rings made.gauged.recorder.lanes }
    requires gauge { made.gauged.cell ≡ N.gauge }
{
    let (cabinet, _pass) = cabinet_of::<N>(made.gauged);
    let _cursor = begin_session(rt, alloc, &cabinet, &[])?;
    Ok(cabinet.hold(rt).commits())
}

/// The start of the file publishes, and so does the writer's last round. The rounds before it move nothing, and publish nothing.
#[test]
fn the_last_round_commits_once(rt: HostRuntime) -> Result<(), Fail> {
    let alloc = rt.alloc();
    let made = make(alloc, 2, formatted_medium(alloc)?)?;
    assert_eq!(rt; publications::<Brand, _>(&rt, alloc, made)?, 2);
    Ok(())
}
