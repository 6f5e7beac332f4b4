//! Sources, and what becomes of the messages that they give.

ghost use Rattle.std.specs.Prelude.{◌≡◌, ◌==◌, ◌≤◌, ◌&&◌, cond, length, [], ◌∷◌};
ghost use Rattle.r10_machine.specs.Machine.{saturated};
ghost use Rattle.r10_port.specs.Ends.{sent as all_sent};
ghost use Rattle.r10_shared.specs.Feeding.{FedUnless, FedUntil};
ghost use Rattle.r10_shared.specs.Levels.{FedShowing, GrewBy, level_of};

use crate::gate::Gate;
use crate::stop::Stop;
use crate::waiting::Progress;
use r10_gauge::{Gauge, Level, Levels};
use r10_port::Port;
use r10_source::{ChannelSource, pump_source};
use std::sync::Wait;
use std::thread;

/// A source of any kind, that may go to another thread.
pub type AnySource = Box<dyn ChannelSource + Send>;

/// How many messages of a source its port accepted and refused, up to `u64::MAX`, where each stays.
#[derive(Clone, Copy, Default)]
pub struct Tally {
    pub accepted: u64,
    pub refused: u64,
}

/// Passes the gate, and then offers to the port what the source gives, one turn each time, until the source ends or the stop is
/// asked. Each accepted message wakes the writer. Where there is a gauge, each turn that sent or lost a message shows the lane's
/// level there.
pub(crate) fn feed_port<R: Wait, G: Gate, S: Stop>(
    rt: &R,
    gate: &G,
    worker: usize,
    stop: &S,
    source: AnySource,
    port: &mut Port,
    gauge: &mut Option<Gauge<Levels>>,
    progress: &Progress,
) -> Tally
    ensures fed { FedUntil (G.answers gate.now worker) (S.answers stop.now) (rest source) port.old port.new result }
    ensures shown { FedShowing (rest source) port.old port.new result gauge.old gauge.new }
{
    let passed = gate.pass(worker);
    if passed {
        feed_all(rt, stop, source, port, gauge, progress)
    } else {
        Tally {
            accepted: 0,
            refused: 0,
        }
    }
}

/// Whether so many messages were sent and lost.
fn is_at(port: &Port, sent: u64, lost: u64) -> bool
    ensures { result ≡ (saturated (length (all_sent port.now)) == sent && port.now.lane.lost == lost) }
{
    port.sent() == sent && port.lost() == lost
}

/// Looks at the lane of a feed with a gauge, if a message was accepted.
fn look_after(port: &mut Port, accepted: u64, is_watched: bool)
    ensures same { port.new ≡ record port.old { free = port.new.free } }
    ensures no_fewer { port.old.free ≤ port.new.free }
    ensures idle { accepted ≡ 0 → port.new ≡ port.old }
{
    if is_watched && accepted > 0 {
        port.look();
    }
}

/// Shows the lane's level at the gauge, if there is one.
pub(crate) fn show_level<R: Wait>(rt: &R, port: &Port, gauge: &mut Option<Gauge<Levels>>)
    ensures { GrewBy gauge.old gauge.new (level_of port.now ∷ []) }
{
    let level = Level {
        sent: port.sent(),
        lost: port.lost(),
        waiting: port.waiting() as u64,
    };
    if let Some(gauge) = gauge {
        gauge.show(rt, level);
    }
}

/// Shows the lane's level, unless so many messages were sent and lost still.
fn show_change<R: Wait>(
    rt: &R,
    port: &Port,
    sent: u64,
    lost: u64,
    gauge: &mut Option<Gauge<Levels>>,
)
    ensures { GrewBy gauge.old gauge.new
        (cond (saturated (length (all_sent port.now)) == sent && port.now.lane.lost == lost) [] (level_of port.now ∷ [])) }
{
    if is_at(port, sent, lost) {
        return;
    }
    show_level(rt, port, gauge);
}

/// Looks at the lane, if so many messages were accepted in a turn, and shows its level, unless so many were sent and lost still.
fn show_turn<R: Wait>(
    rt: &R,
    port: &mut Port,
    sent: u64,
    lost: u64,
    accepted: u64,
    gauge: &mut Option<Gauge<Levels>>,
)
    ensures same { port.new ≡ record port.old { free = port.new.free } }
    ensures no_fewer { port.old.free ≤ port.new.free }
    ensures idle { accepted ≡ 0 → port.new ≡ port.old }
    ensures shows { GrewBy gauge.old gauge.new
        (cond (saturated (length (all_sent port.new)) == sent && port.new.lane.lost == lost) [] (level_of port.new ∷ [])) }
{
    look_after(port, accepted, gauge.is_some());
    show_change(rt, port, sent, lost, gauge);
}

/// Offers to the port what the source gives, one turn each time, until the source ends or the stop is asked. Each accepted message
/// wakes the writer.
fn feed_all<R: Wait, S: Stop>(
    rt: &R,
    stop: &S,
    source: AnySource,
    port: &mut Port,
    gauge: &mut Option<Gauge<Levels>>,
    progress: &Progress,
) -> Tally
    ensures fed { FedUnless (S.answers stop.now) (rest source) port.old port.new result }
    ensures shown { FedShowing (rest source) port.old port.new result gauge.old gauge.new }
{
    let mut source = source;
    let mut accepted = 0u64;
    let mut refused = 0u64;
    for _ in rt.forever() {
        if stop.is_asked() {
            return Tally { accepted, refused };
        }
        let sent = port.sent();
        let lost = port.lost();
        let pumped = pump_source(&mut source, port, 1);
        show_turn(rt, port, sent, lost, pumped.accepted, gauge);
        accepted = accepted.saturating_add(pumped.accepted);
        refused = refused.saturating_add(pumped.refused);
        if pumped.ended {
            return Tally { accepted, refused };
        }
        if pumped.accepted > 0 {
            progress.wake_writer();
        }
        thread::yield_now();
    }
    unreachable!()
}
