//! The workers beside the feeds: one that writes, and one that gives orders.

ghost use Rattle.r10_shared.specs.Desk.{WasAsked, WasTurned, Worked};
ghost use Rattle.r10_shared.specs.Giving.{GivesInTurn};
ghost use Rattle.r10_shared.specs.Rounds.{IsWriterRun};

use crate::desk::SharedRecorder;
use crate::gate::Gate;
use crate::giving::give;
use crate::order::Order;
use crate::waiting::Progress;
use crate::writing::write;
use r10_held::{Cabinet, Rings};
use r10_medium::BlockMedium;
use std::sync::Wait;

/// Passes the gate, and then writes until nothing more comes.
pub(crate) fn write_on<M: BlockMedium, N: Rings, R: Wait, G: Gate>(
    rt: &R,
    cabinet: &Cabinet<M, N>,
    gate: &G,
    worker: usize,
    progress: &Progress,
)
    ensures { Worked (G.answers gate.now worker) IsWriterRun (WasTurned M.disk N.rings) }
{
    if gate.pass(worker) {
        let mut desk = SharedRecorder {
            rt,
            cabinet,
            progress,
        };
        write(rt, &mut desk);
    }
    progress.end_writing();
}

/// Passes the gate, and then gives the orders in turn.
pub(crate) fn give_orders<M: BlockMedium, N: Rings, R: Wait, G: Gate>(
    rt: &R,
    cabinet: &Cabinet<M, N>,
    gate: &G,
    worker: usize,
    orders: &[Order],
    progress: &Progress,
)
    ensures { Worked (G.answers gate.now worker) (GivesInTurn orders.now) (WasAsked M.disk N.rings) }
{
    if gate.pass(worker) {
        let mut desk = SharedRecorder {
            rt,
            cabinet,
            progress,
        };
        give(&mut desk, orders);
    }
    progress.end_one();
}
