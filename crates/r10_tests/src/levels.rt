// What is seen of a feed's lane while the feed runs, and what is left where no file is recorded.

ghost use Rattle.std.specs.Prelude.{◌≡◌, Some};
ghost use Rattle.r10_held.specs.Account.{IsNew};
ghost use Rattle.r10_held.specs.LockFact.{outlet_received, outlet_spec};
ghost use Rattle.r10_held.specs.Naming.{AreNamed, ring_for};
ghost use Rattle.r10_medium.specs.MemoryDisk.{memory_disk};

use crate::asks::{Ask, orders_of};
use crate::inputs::{NewRecorder, cabinet_of, formatted_medium, make};
use crate::run::{end_of, run_and_end};
use crate::sources::ListSource;
use crate::window::Window;
use r10_medium::Memory;
use r10_shared::{AnySource, Feed, Gauge, Level, Levels, Open, Rings, SessionReport};
use r10_source::{ChannelSource, Given, SourceItem};
use std::alloc::Global;
use std::marker::Brand;
use std::sync::atomic::{AtomicU64, Ordering};
use std::sync::{Arc, Wait};
use std::test::Fail;
use std::thread::Threads;

/// How many messages were sent and lost, and how many wait, before each turn: of six messages for a lane of four, of a loss of 70,
/// and of the end.
const SEEN: [(u64, u64, u64); 8] = [
    (0, 0, 0),
    (1, 0, 1),
    (2, 0, 2),
    (3, 0, 3),
    (4, 0, 4),
    (4, 1, 4),
    (4, 2, 4),
    (4, 72, 4),
];

/// A source that looks at its own lane's level in each turn, and counts how often it sees what the turns before came to.
#[derive(Drop)]
struct Looking<R: Wait + Copy> {
    source: ListSource,
    rt: R,
    window: Window,
    turn: usize,
    right: Arc<AtomicU64, Global>,
}

impl<R: Wait + Copy> ChannelSource for Looking<R> {
    ghost rest = { λ looking. looking.source.left.items };

    fn next(&mut self) -> Given {
        let Level {
            sent,
            lost,
            waiting,
        } = self.window.look(&self.rt);
        if SEEN.get(self.turn) == Some(&(sent, lost, waiting)) {
            self.right.fetch_add(1, Ordering::SeqCst);
        }
        self.turn = self.turn.wrapping_add(1);
        self.source.next()
    }
}

/// A feed of the channel 5 with a gauge, while no file is recorded.
fn run_watched<N: Rings + Send + Sync, R: Threads + Wait + Sync>(
    rt: &R,
    alloc: Global,
    made: NewRecorder,
    gauge: Gauge<Levels>,
    source: AnySource,
) -> Result<SessionReport<Memory>, Fail>
    requires new { IsNew memory_disk outlet_spec outlet_received made.gauged.recorder }
    requires named { AreNamed N.rings made.gauged.recorder.lanes }
    requires gauge { made.gauged.cell ≡ N.gauge }
    requires five { ring_for 5 N.rings ≡ Some made.five.ring }
{
    let NewRecorder { gauged, five, .. } = made;
    let (cabinet, _pass) = cabinet_of::<N>(gauged);
    let mut feeds = Vec::with_capacity(alloc, 1)?;
    feeds.push_reserved(Feed::new(5, source, five).with_gauge(rt, gauge));
    let orders = orders_of(alloc, &[Ask::Mount, Ask::Tick])?;
    run_and_end(rt, alloc, &Open, cabinet, feeds, orders, Vec::new(alloc))
}

/// Four of six messages are left. The feed shows its level before its next turn.
#[test]
fn what_no_file_took_is_the_rest(rt: HostRuntime) -> Result<(), Fail> {
    let alloc = rt.alloc();
    let right = Arc::new(alloc, AtomicU64::new(0))?;
    let (gauge, watch, pass) = Gauge::<Levels>::new(alloc)?;
    let mut source = ListSource::of(alloc, 2000, 6)?;
    source.left.push_back(SourceItem::Lost(70))?;
    let source: AnySource = Box::new(
        alloc,
        Looking {
            source,
            rt,
            window: Window::new(watch, pass),
            turn: 0,
            right: Arc::try_clone(&right)?,
        },
    )?;
    let made = make(alloc, 4, formatted_medium(alloc)?)?;
    let report = run_watched::<Brand, _>(&rt, alloc, made, gauge, source)?;
    let (numbers, _seen) = end_of(alloc, report);
    assert_eq!(rt;
        (right.load(Ordering::SeqCst), numbers),
        (8, ([Some((5, 4, 2, 0, 0, 4)), None], 0, Ok(true)))
    );
    Ok(())
}
