// Sinks in memory, and a feed that waits for one amid its session.

ghost use Rattle.std.specs.Prelude.{◌≡◌, All, IfOk, Some, true};
ghost use Rattle.r10_held.specs.Account.{IsNew};
ghost use Rattle.r10_held.specs.LockFact.{outlet_received, outlet_spec};
ghost use Rattle.r10_held.specs.Naming.{AreNamed, ring_for};
ghost use Rattle.r10_medium.specs.MemoryDisk.{memory_disk};

use crate::inputs::{NewRecorder, cabinet_of, formatted_medium, make};
use crate::losing::Seen;
use crate::meeting::{MeetingPoint, WaitingSource};
use crate::run::{begin_session, one_feed};
use r10_shared::{
    AnySource, Handing, Instalment, Never, Open, Player, Rings, Sink, run_session_handing,
};
use std::alloc::{AllocError, Global};
use std::marker::Brand;
use std::sync::{Arc, Wait};
use std::test::Fail;
use std::thread::Threads;

/// A sink in memory that has room for so many instalments, and comes to a meeting with each that it accepts.
#[derive(Drop)]
struct Basket {
    room: usize,
    instalments: Vec<Instalment>,
    meeting: Arc<MeetingPoint, Global>,
    refused: bool,
}

impl Sink for Basket {
    ghost accepted = { λ basket. basket.instalments.items };

    ghost has_refused = { λ basket. basket.refused ≡ true };

    fn accept(&mut self, instalment: Instalment) -> Result<(), Instalment> {
        if self.instalments.len() >= self.room || self.instalments.reserve(1).is_err() {
            self.refused = true;
            return Err(instalment);
        }
        self.instalments.push_reserved(instalment);
        self.meeting.come();
        Ok(())
    }
}

/// A player alone, with its sink.
fn alone(alloc: Global, player: Player, sink: Basket) -> Result<Vec<Handing<Basket>>, AllocError>
    ensures { IfOk result (λ players. All (λ handing. handing.reading.player ≡ player) players.items) }
{
    let mut players = Vec::with_capacity(alloc, 1)?;
    players.push_reserved(Handing::new(alloc, player, Some(sink)));
    Ok(players)
}

/// A feed of the channel 5 and a player with a sink, while a file is recorded: what the sink accepted, and what was kept.
fn run_handing<N: Rings + Send + Sync, R: Threads + Wait + Sync>(
    rt: &R,
    alloc: Global,
    made: NewRecorder,
    source: AnySource,
    sink: Basket,
) -> Result<(Vec<Instalment>, Vec<Instalment>), Fail>
    requires new { IsNew memory_disk outlet_spec outlet_received made.gauged.recorder }
    requires named { AreNamed N.rings made.gauged.recorder.lanes }
    requires gauge { made.gauged.cell ≡ N.gauge }
    requires five { ring_for 5 N.rings ≡ Some made.five.ring }
{
    let NewRecorder { gauged, five, .. } = made;
    let (cabinet, pass) = cabinet_of::<N>(gauged);
    let mut feeds = one_feed(alloc, five, source)?;
    let cursor = begin_session(rt, alloc, &cabinet, &[5])?;
    let mut players = alone(alloc, Player::new(cursor, pass), sink)?;
    run_session_handing(
        rt,
        alloc,
        &cabinet,
        &Open,
        &Never,
        feeds.as_mut_slice(),
        &[],
        players.as_mut_slice(),
    );
    let Some(player) = players.pop() else {
        return Err(Fail::new("no player"));
    };
    let (reading, sink) = player.into_parts();
    let (_player, kept) = reading.into_parts();
    match sink {
        Some(Basket { instalments, .. }) => Ok((instalments, kept)),
        None => Err(Fail::new("no sink")),
    }
}

/// What came of a sink: whether the source waited for it in vain, and how many instalments and entries it accepted. How many
/// instalments were kept, and whether the first of these begins where the last accepted one ended.
type Handed = (bool, usize, u64, usize, bool);

fn handed(vain: bool, accepted: &[Instalment], kept: &[Instalment]) -> Handed {
    let mut seen = Seen::new();
    seen.see_all(accepted);
    let goes_on = match (accepted.last(), kept.first()) {
        (Some(last), Some(first)) => last.to == first.from,
        _ => false,
    };
    (vain, accepted.len(), seen.entries, kept.len(), goes_on)
}

/// A session with a sink that has room for so many instalments, and a source that waits, after its fifth message, for the first of
/// them.
fn hand_to<R: Threads + Wait + Sync>(rt: &R, alloc: Global, room: usize) -> Result<Handed, Fail> {
    let meeting = MeetingPoint::new(alloc)?;
    let sink = Basket {
        room,
        instalments: Vec::new(alloc),
        meeting: Arc::try_clone(&meeting)?,
        refused: false,
    };
    let source: AnySource = Box::new(alloc, WaitingSource::of(alloc, &meeting, 5, 2)?)?;
    let made = make(alloc, 1000, formatted_medium(alloc)?)?;
    let (accepted, kept) = run_handing::<Brand, R>(rt, alloc, made, source, sink)?;
    Ok(handed(meeting.in_vain(), accepted.as_slice(), kept.as_slice()))
}

#[test]
fn a_sink_has_instalments_while_its_session_runs(rt: HostRuntime) -> Result<(), Fail> {
    let alloc = rt.alloc();
    let (vain, _accepted, entries, kept, _goes_on) = hand_to(&rt, alloc, 100)?;
    assert_eq!(rt; (vain, entries, kept), (false, 10, 0));
    let (vain, accepted, _entries, kept, goes_on) = hand_to(&rt, alloc, 1)?;
    assert_eq!(rt; (vain, accepted, kept, goes_on), (false, 1, 1, true));
    Ok(())
}
