//! A session: all workers at the same time.

ghost use Rattle.std.specs.Prelude.{◌≡◌, ◌<◌, ◌≤◌, ℕ, All, IfErr, IfOk, OnOk, [], length};
ghost use Rattle.std.specs.Prelude.{map, slice_index_or, vec_capacity, vec_len};
ghost use Rattle.r10_shared.specs.Desk.{IsNoted, WasAsked, WasTurned, Worked, number_after};
ghost use Rattle.r10_shared.specs.Feeding.{HasRun, HasRunUntil, HasRunWhole};
ghost use Rattle.r10_shared.specs.Giving.{GivesInTurn};
ghost use Rattle.r10_shared.specs.Levels.{HasShown};
ghost use Rattle.r10_shared.specs.Readings.{HasReadAll};
ghost use Rattle.r10_shared.specs.Rounds.{IsWriterRun};
ghost use Rattle.r10_shared.specs.Sinks.{HandsOnInstalments};
ghost use Rattle.r10_shared.specs.Watching.{IsWatching};

use crate::feed::Feed;
use crate::gate::Gate;
use crate::handing::Handing;
use crate::order::Order;
use crate::reader::SessionReader;
use crate::readers::read_all;
use crate::reading::Transcribing;
use crate::running::run_feeds;
use crate::sink::Sink;
use crate::stop::{Never, Stop};
use crate::waiting::Progress;
use crate::working::{give_orders, write_on};
use r10_held::{Cabinet, Player, Rings};
use r10_medium::BlockMedium;
use std::alloc::Global;
use std::sync::Wait;
use std::thread;
use std::thread::Threads;

/// The feeds of a session as they were run, and its players with what they wrote down.
#[derive(Drop)]
pub struct Session<N: Rings> {
    pub(crate) feeds: Vec<Feed<N>>,
    pub(crate) readings: Vec<Transcribing>,
}

impl<N: Rings> Session<N> {
    /// These feeds and readings, to be ended as a session.
    pub fn of(feeds: Vec<Feed<N>>, readings: Vec<Transcribing>) -> Session<N>
        ensures feeds { result.feeds.items ≡ feeds.items }
        ensures readings { result.readings.items ≡ readings.items }
    {
        Session { feeds, readings }
    }

    /// The feeds as they were run, and the players with what they wrote down: for a further session of the same cabinet, and to
    /// hand out what was written down so far.
    pub fn apart(self) -> (Vec<Feed<N>>, Vec<Transcribing>)
        ensures feeds { result.0.items ≡ self.feeds.items }
        ensures readings { result.1.items ≡ self.readings.items }
    {
        let Session { feeds, readings } = self;
        (feeds, readings)
    }
}

/// Writes, gives the orders and reads, all at the same time. The workers' numbers go on from the first.
fn write_and_read<
    M: BlockMedium + Send,
    N: Rings + Send + Sync,
    R: Threads + Wait + Sync,
    G: Gate + Sync,
    D: SessionReader + Send,
>(
    rt: &R,
    alloc: Global,
    cabinet: &Cabinet<M, N>,
    gate: &G,
    first: usize,
    orders: &[Order],
    readings: &mut [D],
    progress: &Progress,
)
    requires { All (λ reading. D.gauge reading ≡ cabinet.now.gauge) readings.old }
    ensures writes { Worked (G.answers gate.now first) IsWriterRun (WasTurned M.disk N.rings) }
    ensures gives { Worked (G.answers gate.now (number_after first 1)) (GivesInTurn orders.now) (WasAsked M.disk N.rings) }
    ensures watch { (i : ℕ) → i < length readings.old
        → Worked (G.answers gate.now (number_after (number_after first 2) i)) IsWatching IsNoted }
    ensures read { (i : ℕ) (d : _) → i < length readings.old
        → D.reads_on (slice_index_or readings.old i d) (slice_index_or readings.new i d) }
{
    let mut writing = ||
        ensures { Worked (G.answers gate.entry.now first) IsWriterRun (WasTurned M.disk N.rings)
            × Worked (G.answers gate.entry.now (number_after first 1)) (GivesInTurn orders.entry.now) (WasAsked M.disk N.rings) }
    {
        thread::join(
            rt,
            || write_on(rt, cabinet, gate, first, progress),
            || give_orders(rt, cabinet, gate, first.wrapping_add(1), orders, progress),
        );
    };
    let mut reading = ||
        requires { All (λ reading. D.gauge reading ≡ cabinet.now.gauge) readings.now }
        ensures { ((i : ℕ) → i < length readings.entry.now
            → Worked (G.answers gate.entry.now (number_after (number_after first 2) i)) IsWatching IsNoted)
            × ((i : ℕ) (d : _) → i < length readings.entry.now
            → D.reads_on (slice_index_or readings.entry.now i d) (slice_index_or readings.exit.now i d)) }
    {
        read_all(
            rt,
            alloc,
            cabinet,
            gate,
            first.wrapping_add(2),
            readings,
            progress,
        )
    };
    thread::join_mut(rt, &mut reading, &mut writing);
}

/// All workers at the same time.
fn run_all<
    M: BlockMedium + Send,
    N: Rings + Send + Sync,
    R: Threads + Wait + Sync,
    G: Gate + Sync,
    S: Stop + Sync,
    D: SessionReader + Send,
>(
    rt: &R,
    alloc: Global,
    cabinet: &Cabinet<M, N>,
    gate: &G,
    stop: &S,
    feeds: &mut [Feed<N>],
    orders: &[Order],
    readings: &mut [D],
)
    requires { All (λ reading. D.gauge reading ≡ cabinet.now.gauge) readings.old }
    ensures feeds { (i : ℕ) (d : _) → i < length feeds.old
        → HasRun (λ s. rest s) (slice_index_or feeds.old i d).source (slice_index_or feeds.old i d).line
        (slice_index_or feeds.old i d).tally (slice_index_or feeds.new i d).line (slice_index_or feeds.new i d).tally }
    ensures until { (i : ℕ) (d : _) → i < length feeds.old
        → HasRunUntil (G.answers gate.now i) (S.answers stop.now) (λ s. rest s) (slice_index_or feeds.old i d).source
        (slice_index_or feeds.old i d).line (slice_index_or feeds.new i d).line (slice_index_or feeds.new i d).tally }
    ensures shown { (i : ℕ) (d : _) → i < length feeds.old → HasShown (λ s. rest s) (slice_index_or feeds.old i d).source
        (slice_index_or feeds.old i d).line (slice_index_or feeds.old i d).gauge (slice_index_or feeds.new i d).line
        (slice_index_or feeds.new i d).tally (slice_index_or feeds.new i d).gauge }
    ensures writes { Worked (G.answers gate.now (length feeds.old)) IsWriterRun (WasTurned M.disk N.rings) }
    ensures gives { Worked (G.answers gate.now (number_after (length feeds.old) 1))
        (GivesInTurn orders.now) (WasAsked M.disk N.rings) }
    ensures watch { (i : ℕ) → i < length readings.old
        → Worked (G.answers gate.now (number_after (number_after (length feeds.old) 2) i)) IsWatching IsNoted }
    ensures readings { (i : ℕ) (d : _) → i < length readings.old
        → D.reads_on (slice_index_or readings.old i d) (slice_index_or readings.new i d) }
{
    let first = feeds.len();
    let progress = Progress::of(first);
    let along = &progress;
    let mut feeding = ||
        ensures { ((i : ℕ) (d : _) → i < length feeds.entry.now
            → HasRunUntil (G.answers gate.entry.now i) (S.answers stop.entry.now) (λ s. rest s)
            (slice_index_or feeds.entry.now i d).source (slice_index_or feeds.entry.now i d).line
            (slice_index_or feeds.exit.now i d).line (slice_index_or feeds.exit.now i d).tally)
            × ((i : ℕ) (d : _) → i < length feeds.entry.now → HasRun (λ s. rest s) (slice_index_or feeds.entry.now i d).source
            (slice_index_or feeds.entry.now i d).line (slice_index_or feeds.entry.now i d).tally
            (slice_index_or feeds.exit.now i d).line (slice_index_or feeds.exit.now i d).tally)
            × ((i : ℕ) (d : _) → i < length feeds.entry.now
            → HasShown (λ s. rest s) (slice_index_or feeds.entry.now i d).source (slice_index_or feeds.entry.now i d).line
            (slice_index_or feeds.entry.now i d).gauge (slice_index_or feeds.exit.now i d).line
            (slice_index_or feeds.exit.now i d).tally (slice_index_or feeds.exit.now i d).gauge) }
    { run_feeds(rt, gate, stop, feeds, along) };
    let mut others = ||
        requires { All (λ reading. D.gauge reading ≡ cabinet.now.gauge) readings.now }
        ensures { Worked (G.answers gate.entry.now first) IsWriterRun (WasTurned M.disk N.rings)
            × Worked (G.answers gate.entry.now (number_after first 1)) (GivesInTurn orders.entry.now) (WasAsked M.disk N.rings)
            × ((i : ℕ) → i < length readings.entry.now
            → Worked (G.answers gate.entry.now (number_after (number_after first 2) i)) IsWatching IsNoted)
            × ((i : ℕ) (d : _) → i < length readings.entry.now
            → D.reads_on (slice_index_or readings.entry.now i d) (slice_index_or readings.exit.now i d)) }
    { write_and_read(rt, alloc, cabinet, gate, first, orders, readings, along) };
    thread::join_mut(rt, &mut others, &mut feeding);
}

/// The players, that have written down nothing, in room that is there.
fn unread(alloc: Global, players: Vec<Player>, room: Vec<Transcribing>) -> Vec<Transcribing>
    requires room { vec_len players ≤ vec_capacity room }
    requires empty { room.items ≡ [] }
    ensures players { map (λ reading. reading.player) result.items ≡ players.items }
    ensures none { All (λ reading. reading.instalments.items ≡ []) result.items }
{
    let mut readings = room;
    for player in players {
        readings.push_reserved(Transcribing {
            player,
            instalments: Vec::new(alloc),
        });
    }
    readings
}

/// As `run_session_until`, with players that hand on each instalment to their sinks as it comes. A player whose sink refuses one
/// keeps that one, and ends as if memory was refused; it reads no more before it is taken apart. A player without a sink writes its
/// instalments down.
///
/// Feeds and players are lent, so this takes no memory but what the instalments take. `Session::of` makes a session of them, which
/// can be ended.
pub fn run_session_handing<
    M: BlockMedium + Send,
    N: Rings + Send + Sync,
    R: Threads + Wait + Sync,
    G: Gate + Sync,
    S: Stop + Sync,
    K: Sink + Send,
>(
    rt: &R,
    alloc: Global,
    cabinet: &Cabinet<M, N>,
    gate: &G,
    stop: &S,
    feeds: &mut [Feed<N>],
    orders: &[Order],
    players: &mut [Handing<K>],
)
    requires { All (λ handing. handing.reading.player.pass.cell ≡ cabinet.now.gauge) players.old }
    ensures feeds { (i : ℕ) (d : _) → i < length feeds.old
        → HasRun (λ s. rest s) (slice_index_or feeds.old i d).source (slice_index_or feeds.old i d).line
        (slice_index_or feeds.old i d).tally (slice_index_or feeds.new i d).line (slice_index_or feeds.new i d).tally }
    ensures hands { (i : ℕ) (d : _) → i < length players.old
        → HandsOnInstalments K.accepted K.has_refused (slice_index_or players.old i d).reading (slice_index_or players.old i d).sink
        (slice_index_or players.new i d).reading (slice_index_or players.new i d).sink }
    ensures shown { (i : ℕ) (d : _) → i < length feeds.old → HasShown (λ s. rest s) (slice_index_or feeds.old i d).source
        (slice_index_or feeds.old i d).line (slice_index_or feeds.old i d).gauge (slice_index_or feeds.new i d).line
        (slice_index_or feeds.new i d).tally (slice_index_or feeds.new i d).gauge }
    ensures until { (i : ℕ) (d : _) → i < length feeds.old
        → HasRunUntil (G.answers gate.now i) (S.answers stop.now) (λ s. rest s) (slice_index_or feeds.old i d).source
        (slice_index_or feeds.old i d).line (slice_index_or feeds.new i d).line (slice_index_or feeds.new i d).tally }
    ensures writes { Worked (G.answers gate.now (length feeds.old)) IsWriterRun (WasTurned M.disk N.rings) }
    ensures gives { Worked (G.answers gate.now (number_after (length feeds.old) 1))
        (GivesInTurn orders.now) (WasAsked M.disk N.rings) }
    ensures watch { (i : ℕ) → i < length players.old
        → Worked (G.answers gate.now (number_after (number_after (length feeds.old) 2) i)) IsWatching IsNoted }
{
    run_all(rt, alloc, cabinet, gate, stop, feeds, orders, players);
}

/// As `run_session`, with a stop from outside. Once it is asked each feed ends before its next turn, though its source has not.
/// Then the writer takes in what waits, commits and ends, as soon as the orders have ended too; and then each player takes one more
/// instalment. So what was sent until then is accounted for as in a session whose sources ended.
///
/// Memory is asked for before any worker starts; where it is refused, all come back.
pub fn run_session_until<
    M: BlockMedium + Send,
    N: Rings + Send + Sync,
    R: Threads + Wait + Sync,
    G: Gate + Sync,
    S: Stop + Sync,
>(
    rt: &R,
    alloc: Global,
    cabinet: &Cabinet<M, N>,
    gate: &G,
    stop: &S,
    feeds: Vec<Feed<N>>,
    orders: Vec<Order>,
    players: Vec<Player>,
) -> Result<Session<N>, (Vec<Feed<N>>, Vec<Order>, Vec<Player>)>
    requires { All (λ player. player.pass.cell ≡ cabinet.now.gauge) players.items }
    ensures feeds { IfOk result (λ session. (length session.feeds.items ≡ length feeds.items)
        × ((i : ℕ) (d : _) → i < length feeds.items → HasRun (λ s. rest s) (slice_index_or feeds.items i d).source
        (slice_index_or feeds.items i d).line (slice_index_or feeds.items i d).tally (slice_index_or session.feeds.items i d).line
        (slice_index_or session.feeds.items i d).tally)) }
    ensures players { IfOk result (λ session. (length session.readings.items ≡ length players.items) × ((i : ℕ) (d : _) (e : _)
        → i < length players.items → HasReadAll (slice_index_or players.items i d) (slice_index_or session.readings.items i e))) }
    ensures shown { IfOk result
        (λ session. (i : ℕ) (d : _) → i < length feeds.items → HasShown (λ s. rest s) (slice_index_or feeds.items i d).source
        (slice_index_or feeds.items i d).line (slice_index_or feeds.items i d).gauge (slice_index_or session.feeds.items i d).line
        (slice_index_or session.feeds.items i d).tally (slice_index_or session.feeds.items i d).gauge) }
    ensures until { IfOk result (λ session. (i : ℕ) (d : _) → i < length feeds.items → HasRunUntil (G.answers gate.now i)
        (S.answers stop.now) (λ s. rest s) (slice_index_or feeds.items i d).source (slice_index_or feeds.items i d).line
        (slice_index_or session.feeds.items i d).line (slice_index_or session.feeds.items i d).tally) }
    ensures writes { OnOk result (Worked (G.answers gate.now (length feeds.items)) IsWriterRun (WasTurned M.disk N.rings)) }
    ensures gives { OnOk result
        (Worked (G.answers gate.now (number_after (length feeds.items) 1)) (GivesInTurn orders.items) (WasAsked M.disk N.rings)) }
    ensures watch { OnOk result ((i : ℕ) → i < length players.items
        → Worked (G.answers gate.now (number_after (number_after (length feeds.items) 2) i)) IsWatching IsNoted) }
    ensures refused { IfErr result
        (λ back. (back.0.items ≡ feeds.items) × (back.1.items ≡ orders.items) × (back.2.items ≡ players.items)) }
{
    let Ok(room) = Vec::with_capacity(alloc, players.len()) else {
        return Err((feeds, orders, players));
    };
    let mut readings = unread(alloc, players, room);
    let mut feeds = feeds;
    run_all(
        rt,
        alloc,
        cabinet,
        gate,
        stop,
        feeds.as_mut_slice(),
        orders.as_slice(),
        readings.as_mut_slice(),
    );
    Ok(Session { feeds, readings })
}

/// Runs feeds, orders and players at the same time, beside a writer, each in a worker of its own as far as threads can be made.
/// Each worker passes the gate first, by its number: the feeds from 0 on, then the writer, then the one that gives the orders, then
/// the players. A feed is pumped one turn each time until its source ends. The writer goes round the channels, takes in at most 64
/// messages of each, and commits after a round that moved something. After one that moved nothing it sleeps until a feed has sent a
/// message or has ended, or an order was asked. A player drops what it has still to give, and then takes instalments and writes
/// them down. When feeds and orders have ended and a round has moved nothing, the writer commits once more and ends; and then each
/// player takes one more instalment. Failed or OutOfMemory ends the worker that meets it; other refusals are passed over.
///
/// Memory is asked for before any worker starts; where it is refused, all come back.
pub fn run_session<
    M: BlockMedium + Send,
    N: Rings + Send + Sync,
    R: Threads + Wait + Sync,
    G: Gate + Sync,
>(
    rt: &R,
    alloc: Global,
    cabinet: &Cabinet<M, N>,
    gate: &G,
    feeds: Vec<Feed<N>>,
    orders: Vec<Order>,
    players: Vec<Player>,
) -> Result<Session<N>, (Vec<Feed<N>>, Vec<Order>, Vec<Player>)>
    requires { All (λ player. player.pass.cell ≡ cabinet.now.gauge) players.items }
    ensures feeds { IfOk result (λ session. (length session.feeds.items ≡ length feeds.items)
        × ((i : ℕ) (d : _) → i < length feeds.items → HasRun (λ s. rest s) (slice_index_or feeds.items i d).source
        (slice_index_or feeds.items i d).line (slice_index_or feeds.items i d).tally (slice_index_or session.feeds.items i d).line
        (slice_index_or session.feeds.items i d).tally)) }
    ensures players { IfOk result (λ session. (length session.readings.items ≡ length players.items) × ((i : ℕ) (d : _) (e : _)
        → i < length players.items → HasReadAll (slice_index_or players.items i d) (slice_index_or session.readings.items i e))) }
    ensures shown { IfOk result
        (λ session. (i : ℕ) (d : _) → i < length feeds.items → HasShown (λ s. rest s) (slice_index_or feeds.items i d).source
        (slice_index_or feeds.items i d).line (slice_index_or feeds.items i d).gauge (slice_index_or session.feeds.items i d).line
        (slice_index_or session.feeds.items i d).tally (slice_index_or session.feeds.items i d).gauge) }
    ensures whole { IfOk result (λ session. (i : ℕ) (d : _) → i < length feeds.items → HasRunWhole (G.answers gate.now i)
        (λ s. rest s) (slice_index_or feeds.items i d).source (slice_index_or feeds.items i d).line
        (slice_index_or session.feeds.items i d).line (slice_index_or session.feeds.items i d).tally) }
    ensures writes { OnOk result (Worked (G.answers gate.now (length feeds.items)) IsWriterRun (WasTurned M.disk N.rings)) }
    ensures gives { OnOk result
        (Worked (G.answers gate.now (number_after (length feeds.items) 1)) (GivesInTurn orders.items) (WasAsked M.disk N.rings)) }
    ensures watch { OnOk result ((i : ℕ) → i < length players.items
        → Worked (G.answers gate.now (number_after (number_after (length feeds.items) 2) i)) IsWatching IsNoted) }
    ensures refused { IfErr result
        (λ back. (back.0.items ≡ feeds.items) × (back.1.items ≡ orders.items) × (back.2.items ≡ players.items)) }
{
    run_session_until(rt, alloc, cabinet, gate, &Never, feeds, orders, players)
}
