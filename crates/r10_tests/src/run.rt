// Sessions, and what is reported of them.

ghost use Rattle.std.specs.Prelude.{◌≡◌, [], ◌∷◌, All, IfOk, Some};
ghost use Rattle.r10_held.specs.Account.{IsNew};
ghost use Rattle.r10_held.specs.LockFact.{outlet_received, outlet_spec};
ghost use Rattle.r10_held.specs.Naming.{AreNamed, ring_for};
ghost use Rattle.r10_medium.specs.MemoryDisk.{memory_disk};

use crate::asks::{Ask, orders_of};
use crate::inputs::{NewRecorder, cabinet_of};
use crate::losing::Seen;
use r10_body::Refusal;
use r10_count::Items;
use r10_cursor::Cursor;
use r10_medium::Memory;
use r10_port::Port;
use r10_shared::{
    AnySource, Cabinet, Feed, FeedReport, Gate, Open, Order, Pass, Player, Rings, SessionReport,
    StopFlag, audit, end_session, run_session, run_session_until,
};
use std::alloc::{AllocError, Global};
use std::sync::Wait;
use std::test::Fail;
use std::thread::Threads;

/// What begins a file.
const BEGIN: &[Ask] = &[Ask::Mount, Ask::Tick, Ask::Start(b"FLT1")];

/// The largest count.
pub const LAST: u64 = 281_474_976_710_655;

/// A session that only begins a file, and then a cursor on these channels in it, or on all where there are none.
pub fn begin_session<N: Rings + Send + Sync, R: Threads + Wait + Sync>(
    rt: &R,
    alloc: Global,
    cabinet: &Cabinet<Memory, N>,
    channels: &[u16],
) -> Result<Cursor, Fail> {
    let orders = orders_of(alloc, BEGIN)?;
    let session = run_session(
        rt,
        alloc,
        cabinet,
        &Open,
        Vec::new(alloc),
        orders,
        Vec::new(alloc),
    );
    if session.is_err() {
        return Err(Fail::new("no memory"));
    }
    let channels = Items::of(Vec::from_slice(alloc, channels)?);
    let opened = cabinet.hold(rt).cursor(0, channels, 0, LAST);
    Ok(opened?)
}

/// A reader of all channels that was given what is shown so far, and has not handed it on: a player alone.
fn advanced<N: Rings, R: Wait>(
    rt: &R,
    alloc: Global,
    cabinet: &Cabinet<Memory, N>,
    cursor: Cursor,
    pass: Pass,
) -> Result<Vec<Player>, Fail>
    requires { pass.cell ≡ cabinet.now.gauge }
    ensures { IfOk result (λ players. All (λ player. player.pass.cell ≡ cabinet.now.gauge) players.items) }
{
    let mut players = Vec::with_capacity(alloc, 1)?;
    let mut player = Player::new(cursor, pass);
    match player.advance(rt, cabinet) {
        Ok(1) => {
            players.push_reserved(player);
            Ok(players)
        }
        _ => Err(Fail::new("the first time is not shown")),
    }
}

/// Feeds of the channels 5 and 6.
fn two_feeds<N: Rings>(
    alloc: Global,
    five: Port,
    six: Port,
    first: AnySource,
    second: AnySource,
) -> Result<Vec<Feed<N>>, AllocError>
    requires five { ring_for 5 N.rings ≡ Some five.ring }
    requires six { ring_for 6 N.rings ≡ Some six.ring }
{
    let mut feeds = Vec::with_capacity(alloc, 2)?;
    feeds.push_reserved(Feed::new(5, first, five));
    feeds.push_reserved(Feed::new(6, second, six));
    Ok(feeds)
}

/// A feed of the channel 5.
pub fn one_feed<N: Rings>(
    alloc: Global,
    five: Port,
    source: AnySource,
) -> Result<Vec<Feed<N>>, AllocError>
    requires { ring_for 5 N.rings ≡ Some five.ring }
{
    let mut feeds = Vec::with_capacity(alloc, 1)?;
    feeds.push_reserved(Feed::new(5, source, five));
    Ok(feeds)
}

/// Runs a session and ends it.
pub fn run_and_end<N: Rings + Send + Sync, R: Threads + Wait + Sync, G: Gate + Sync>(
    rt: &R,
    alloc: Global,
    gate: &G,
    cabinet: Cabinet<Memory, N>,
    feeds: Vec<Feed<N>>,
    orders: Vec<Order>,
    players: Vec<Player>,
) -> Result<SessionReport<Memory>, Fail>
    requires { All (λ player. player.pass.cell ≡ cabinet.gauge) players.items }
{
    let Ok(session) = run_session(rt, alloc, &cabinet, gate, feeds, orders, players) else {
        return Err(Fail::new("no memory"));
    };
    match end_session(alloc, cabinet, session) {
        Ok(report) => Ok(report),
        Err(_) => Err(Fail::new("no memory, or the recorder failed")),
    }
}

/// Two feeds and a reader that was advanced before, while a file is recorded.
pub fn run_two<N: Rings + Send + Sync, R: Threads + Wait + Sync, G: Gate + Sync>(
    rt: &R,
    alloc: Global,
    gate: &G,
    made: NewRecorder,
    first: AnySource,
    second: AnySource,
) -> Result<SessionReport<Memory>, Fail>
    requires new { IsNew memory_disk outlet_spec outlet_received made.gauged.recorder }
    requires named { AreNamed N.rings made.gauged.recorder.lanes }
    requires gauge { made.gauged.cell ≡ N.gauge }
    requires five { ring_for 5 N.rings ≡ Some made.five.ring }
    requires six { ring_for 6 N.rings ≡ Some made.six.ring }
{
    let NewRecorder { gauged, five, six } = made;
    let (cabinet, pass) = cabinet_of::<N>(gauged);
    let feeds = two_feeds(alloc, five, six, first, second)?;
    let cursor = begin_session(rt, alloc, &cabinet, &[])?;
    let players = advanced(rt, alloc, &cabinet, cursor, pass)?;
    run_and_end(rt, alloc, gate, cabinet, feeds, Vec::new(alloc), players)
}

/// A feed of the channel 5 with a stop, and then a further session of it with another source: how many messages were sent until the
/// stop was asked, and what is reported of both.
pub fn run_twice<N: Rings + Send + Sync, R: Threads + Wait + Sync>(
    rt: &R,
    alloc: Global,
    stop: &StopFlag,
    made: NewRecorder,
    source: AnySource,
    other: AnySource,
) -> Result<(u64, SessionReport<Memory>), Fail>
    requires new { IsNew memory_disk outlet_spec outlet_received made.gauged.recorder }
    requires named { AreNamed N.rings made.gauged.recorder.lanes }
    requires gauge { made.gauged.cell ≡ N.gauge }
    requires five { ring_for 5 N.rings ≡ Some made.five.ring }
{
    let NewRecorder { gauged, five, .. } = made;
    let (cabinet, _pass) = cabinet_of::<N>(gauged);
    let feeds = one_feed(alloc, five, source)?;
    let orders = orders_of(alloc, BEGIN)?;
    let players = Vec::new(alloc);
    let Ok(session) = run_session_until(rt, alloc, &cabinet, &Open, stop, feeds, orders, players)
    else {
        return Err(Fail::new("no memory"));
    };
    let (mut feeds, _readings) = session.apart();
    let Some(feed) = feeds.pop() else {
        return Err(Fail::new("no feed"));
    };
    let sent = feed.tally().accepted;
    feeds.push_reserved(feed.again(other));
    let (orders, players) = (Vec::new(alloc), Vec::new(alloc));
    let report = run_and_end(rt, alloc, &Open, cabinet, feeds, orders, players)?;
    Ok((sent, report))
}

/// What is reported of a feed: its channel, how many messages were accepted, refused, erased and filed, and how many are left.
pub type FeedNumbers = (u16, u64, u64, u64, u64, usize);

fn told_of(feeds: &[FeedReport], place: usize) -> Option<FeedNumbers> {
    let report = feeds.get(place)?;
    Some((
        report.channel,
        report.accepted,
        report.refused,
        report.erased,
        report.filed,
        report.rest.len(),
    ))
}

/// What is reported of a session: of the first two feeds, how many entries were read, and what the audit says.
pub type SessionNumbers = ([Option<FeedNumbers>; 2], u64, Result<bool, Refusal>);

/// What is reported of a session, and what is seen of the entries that were read.
pub fn end_of(alloc: Global, report: SessionReport<Memory>) -> (SessionNumbers, Seen) {
    let mut report = report;
    let audited = audit(alloc, &mut report);
    let mut seen = Seen::new();
    for transcript in &report.transcripts {
        seen.see_all(transcript.instalments.as_slice());
    }
    let feeds = report.feeds.as_slice();
    let numbers = [told_of(feeds, 0), told_of(feeds, 1)];
    ((numbers, seen.entries, audited), seen)
}
