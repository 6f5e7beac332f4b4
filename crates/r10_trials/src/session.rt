//! A session, from its recorder to its end. Each call that memory is refused to is made again. The medium may fail at one of its
//! calls; the recorder has then failed, and what is asked of it may be refused.

ghost use Rattle.std.specs.Prelude.{◌≡◌, All, IfOk, Some};
ghost use Rattle.r10_held.specs.Account.{IsNew};
ghost use Rattle.r10_held.specs.LockFact.{outlet_received, outlet_spec};
ghost use Rattle.r10_held.specs.Naming.{AreNamed, ring_for};
ghost use Rattle.r10_medium.specs.FaultyParts.{faulty_disk};

use crate::apparatus::{LAST, Ready};
use crate::notes::Notes;
use crate::plan::{Plan, before};
use crate::standing::{CHANNELS, RecorderState, standing_of};
use r10_body::Refusal;
use r10_control::Recorder;
use r10_count::Items;
use r10_cursor::Cursor;
use r10_gauge::Pass;
use r10_held::{Cabinet, Gauged, Held, Player, Rings, new_recorders_account_for_their_lanes};
use r10_medium::{Faulty, Memory};
use r10_port::{Outlet, Port};
use r10_shared::{
    AnySource, Feed, NotEnded, Session, SessionReport, end_failed_session, end_session, run_session,
};
use std::alloc::{AllocError, Global};
use std::sync::Wait;
use std::thread::Threads;

/// What came of a session that has ended.
#[derive(Drop)]
pub struct EndedSession {
    pub report: SessionReport<Faulty<Memory>>,
    /// How the recorder was before the end.
    pub standing: RecorderState,
    /// Whether the recorder had failed.
    pub has_failed: bool,
}

/// A recorder with a gauge of its own. What comes back where memory is refused is given one again.
pub fn gauged_of(
    alloc: Global,
    recorder: Recorder<Faulty<Memory>, Outlet>,
    notes: &mut Notes,
) -> Result<Gauged<Faulty<Memory>>, AllocError>
    ensures { IfOk result (λ gauged. gauged.recorder ≡ recorder) }
{
    match Gauged::new(alloc, recorder) {
        Ok(gauged) => Ok(gauged),
        Err(recorder) => {
            notes.do_again("the lock was made again");
            match Gauged::new(alloc, recorder) {
                Ok(gauged) => Ok(gauged),
                Err(_) => Err(AllocError),
            }
        }
    }
}

/// Gives the orders before the session. A refusal for want of memory must leave the recorder as it was, and the order is given
/// again. Any other is wrong, unless a call of the medium fails.
fn give_all<N: Rings, R: Wait>(
    rt: &R,
    alloc: Global,
    held: &mut Held<Faulty<Memory>, N>,
    call: u64,
    notes: &mut Notes,
) -> Result<(), AllocError> {
    for order in &before(alloc)? {
        let standing = standing_of(held);
        let refused = match order.perform(rt, held) {
            Ok(_) => false,
            Err(Refusal::OutOfMemory) => {
                notes.do_again("an order was given again");
                notes.want(
                    standing_of(held) == standing,
                    "an order that was refused changed the recorder",
                );
                order.perform(rt, held).is_err()
            }
            Err(_) => true,
        };
        notes.want(call > 0 || !refused, "an order was refused");
    }
    Ok(())
}

/// A cursor on both channels in the first file.
fn open<N: Rings>(alloc: Global, held: &mut Held<Faulty<Memory>, N>) -> Result<Cursor, Refusal> {
    let Ok(channels) = Vec::from_slice(alloc, &CHANNELS) else {
        return Err(Refusal::OutOfMemory);
    };
    held.cursor(0, Items::of(channels), 0, LAST)
}

/// The same. A refusal for want of memory must leave the recorder as it was, and the cursor is opened again.
fn cursor_of<N: Rings>(
    alloc: Global,
    held: &mut Held<Faulty<Memory>, N>,
    notes: &mut Notes,
) -> Result<Cursor, Refusal> {
    let standing = standing_of(held);
    match open(alloc, held) {
        Err(Refusal::OutOfMemory) => {
            notes.do_again("a cursor was opened again");
            notes.want(
                standing_of(held) == standing,
                "a cursor that was refused changed the recorder",
            );
            open(alloc, held)
        }
        other => other,
    }
}

/// Begins a file, and answers a reader of both channels in it; none where the recorder has failed.
fn begin<N: Rings, R: Wait>(
    rt: &R,
    alloc: Global,
    cabinet: &Cabinet<Faulty<Memory>, N>,
    pass: Pass,
    call: u64,
    notes: &mut Notes,
) -> Result<Vec<Player>, AllocError>
    requires { pass.cell ≡ cabinet.now.gauge }
    ensures { IfOk result (λ players. All (λ player. player.pass.cell ≡ cabinet.now.gauge) players.items) }
{
    let mut players = Vec::with_capacity(alloc, 1)?;
    give_all(rt, alloc, &mut cabinet.hold(rt), call, notes)?;
    match cursor_of(alloc, &mut cabinet.hold(rt), notes) {
        Ok(cursor) => {
            players.push_reserved(Player::new(cursor, pass));
            Ok(players)
        }
        Err(_) => {
            notes.want(call > 0, "a cursor was refused");
            Ok(players)
        }
    }
}

/// Feeds of both channels.
fn two_feeds<N: Rings>(
    alloc: Global,
    five: Port,
    six: Port,
    first: AnySource,
    second: AnySource,
) -> Result<Vec<Feed<N>>, AllocError>
    requires five { ring_for 5 N.rings ≡ Some five.ring }
    requires six { ring_for 6 N.rings ≡ Some six.ring }
{
    let mut feeds = Vec::with_capacity(alloc, 2)?;
    feeds.push_reserved(Feed::new(5, first, five));
    feeds.push_reserved(Feed::new(6, second, six));
    Ok(feeds)
}

/// Begins a file, and runs these feeds and a reader of both beside what control asks by the plan. What comes back where memory is
/// refused is run again.
fn run_in<N: Rings + Send + Sync, R: Threads + Wait + Sync>(
    rt: &R,
    alloc: Global,
    cabinet: &Cabinet<Faulty<Memory>, N>,
    pass: Pass,
    feeds: Vec<Feed<N>>,
    plan: Plan,
    call: u64,
    notes: &mut Notes,
) -> Result<Session<N>, AllocError>
    requires { pass.cell ≡ cabinet.now.gauge }
{
    let players = begin(rt, alloc, cabinet, pass, call, notes)?;
    let orders = plan.orders(alloc)?;
    match run_session(rt, alloc, cabinet, &plan, feeds, orders, players) {
        Ok(session) => Ok(session),
        Err((feeds, orders, players)) => {
            notes.do_again("the session was run again");
            match run_session(rt, alloc, cabinet, &plan, feeds, orders, players) {
                Ok(session) => Ok(session),
                Err(_) => Err(AllocError),
            }
        }
    }
}

/// Ends a session, as one whose recorder failed where it did.
fn end<N: Rings, R: Wait>(
    rt: &R,
    alloc: Global,
    cabinet: Cabinet<Faulty<Memory>, N>,
    session: Session<N>,
    notes: &mut Notes,
) -> Result<EndedSession, AllocError> {
    let standing = standing_of(&mut cabinet.hold(rt));
    match end_failed_session(alloc, cabinet, session) {
        Ok(report) => Ok(EndedSession {
            report,
            standing,
            has_failed: true,
        }),
        Err((cabinet, session, NotEnded::Works)) => {
            let report = end_whole(rt, alloc, cabinet, session, &standing, notes)?;
            Ok(EndedSession {
                report,
                standing,
                has_failed: false,
            })
        }
        Err((_, _, NotEnded::OutOfMemory)) => Err(AllocError),
    }
}

/// Ends a session whose recorder works. A refusal must leave the recorder as it was, and what comes back is ended again.
fn end_whole<N: Rings, R: Wait>(
    rt: &R,
    alloc: Global,
    cabinet: Cabinet<Faulty<Memory>, N>,
    session: Session<N>,
    standing: &RecorderState,
    notes: &mut Notes,
) -> Result<SessionReport<Faulty<Memory>>, AllocError> {
    match end_session(alloc, cabinet, session) {
        Ok(report) => Ok(report),
        Err((cabinet, session, _)) => {
            notes.do_again("the session was ended again");
            notes.want(
                standing_of(&mut cabinet.hold(rt)) == *standing,
                "an end that was refused changed the recorder",
            );
            match end_session(alloc, cabinet, session) {
                Ok(report) => Ok(report),
                Err(_) => Err(AllocError),
            }
        }
    }
}

/// Two feeds and a reader of both, while a file is recorded and control asks what the plan says.
pub fn run_over<N: Rings + Send + Sync, R: Threads + Wait + Sync>(
    rt: &R,
    alloc: Global,
    made: Ready,
    first: AnySource,
    second: AnySource,
    plan: Plan,
    call: u64,
    notes: &mut Notes,
) -> Result<EndedSession, AllocError>
    requires new { IsNew faulty_disk outlet_spec outlet_received made.gauged.recorder }
    requires named { AreNamed N.rings made.gauged.recorder.lanes }
    requires gauge { made.gauged.cell ≡ N.gauge }
    requires five { ring_for 5 N.rings ≡ Some made.five.ring }
    requires six { ring_for 6 N.rings ≡ Some made.six.ring }
{
    new_recorders_account_for_their_lanes::<Faulty<Memory>, N>();
    let Ready { gauged, five, six } = made;
    let feeds = two_feeds(alloc, five, six, first, second)?;
    let (cabinet, pass) = Cabinet::<Faulty<Memory>, N>::new(gauged);
    let session = run_in(rt, alloc, &cabinet, pass, feeds, plan, call, notes)?;
    end(rt, alloc, cabinet, session, notes)
}
