//! Players at the same time, each by a worker of its own.

ghost use Rattle.std.specs.Prelude.{◌≡◌, ◌<◌, ℕ, All, length, slice_index_or};
ghost use Rattle.r10_shared.specs.Desk.{IsNoted, Worked, number_after};
ghost use Rattle.r10_shared.specs.Watching.{IsWatching};

use crate::desk::ReadersDesk;
use crate::gate::Gate;
use crate::reader::SessionReader;
use crate::waiting::Progress;
use crate::watching::watch;
use r10_held::{Cabinet, Rings};
use r10_medium::BlockMedium;
use std::alloc::Global;
use std::sync::Wait;
use std::thread;
use std::thread::Threads;

/// Passes the gate, drops what was still to be given, and then reads.
fn read<M: BlockMedium, N: Rings, R: Wait, G: Gate, D: SessionReader>(
    rt: &R,
    alloc: Global,
    cabinet: &Cabinet<M, N>,
    gate: &G,
    worker: usize,
    reading: &mut D,
    progress: &Progress,
)
    requires { D.gauge reading.old ≡ cabinet.now.gauge }
    ensures watches { Worked (G.answers gate.now worker) IsWatching IsNoted }
    ensures reads { D.reads_on reading.old reading.new }
{
    if gate.pass(worker) {
        reading.pass_over(alloc);
        let mut desk = ReadersDesk {
            rt,
            alloc,
            cabinet,
            progress,
        };
        watch(rt, &mut desk, reading);
    }
}

/// All players read at the same time, each by a worker of its own, as far as threads can be made; their workers' numbers go on from
/// the first.
pub(crate) fn read_all<
    M: BlockMedium + Send,
    N: Rings + Send + Sync,
    R: Threads + Wait + Sync,
    G: Gate + Sync,
    D: SessionReader + Send,
>(
    rt: &R,
    alloc: Global,
    cabinet: &Cabinet<M, N>,
    gate: &G,
    first: usize,
    readings: &mut [D],
    progress: &Progress,
)
    requires { All (λ reading. D.gauge reading ≡ cabinet.now.gauge) readings.old }
    ensures watch { (i : ℕ) → i < length readings.old → Worked (G.answers gate.now (number_after first i)) IsWatching IsNoted }
    ensures read { (i : ℕ) (d : _) → i < length readings.old
        → D.reads_on (slice_index_or readings.old i d) (slice_index_or readings.new i d) }
{
    let threads = readings.len();
    if threads > 0 {
        thread::for_each_mut(
            rt,
            readings,
            threads,
            &|place: usize, reading: &mut D|
                requires { D.gauge reading.old ≡ cabinet.now.gauge }
                ensures { Worked (G.answers gate.entry.now (number_after first place)) IsWatching IsNoted
                    × D.reads_on reading.old reading.new }
            {
                read(
                    rt,
                    alloc,
                    cabinet,
                    gate,
                    first.wrapping_add(place),
                    reading,
                    progress,
                )
            },
        );
    }
}
