//! All feeds at the same time.

ghost use Rattle.std.specs.Prelude.{◌≡◌, ◌<◌, ℕ, slice_index_or, length};
ghost use Rattle.r10_shared.specs.Feeding.{HasRun, HasRunUntil};
ghost use Rattle.r10_shared.specs.Levels.{HasShown};

use crate::feed::Feed;
use crate::gate::Gate;
use crate::stop::Stop;
use crate::waiting::Progress;
use r10_held::Rings;
use std::sync::Wait;
use std::thread;
use std::thread::Threads;

/// Runs a feed that waits. Then one more is over, also if the feed was run before.
fn work<N: Rings, R: Wait, G: Gate, S: Stop>(
    rt: &R,
    gate: &G,
    worker: usize,
    stop: &S,
    feed: &mut Feed<N>,
    progress: &Progress,
)
    ensures until { HasRunUntil (G.answers gate.now worker) (S.answers stop.now)
        (λ s. rest s) feed.old.source feed.old.line feed.new.line feed.new.tally }
    ensures run { HasRun (λ s. rest s) feed.old.source feed.old.line feed.old.tally feed.new.line feed.new.tally }
    ensures shown { HasShown (λ s. rest s) feed.old.source feed.old.line feed.old.gauge feed.new.line
        feed.new.tally feed.new.gauge }
{
    if let Some(source) = feed.source.take() {
        feed.tally = feed
            .line
            .feed(rt, gate, worker, stop, source, &mut feed.gauge, progress);
    }
    progress.end_one();
}

/// Runs all feeds that wait at the same time, each by a worker of its own, as far as threads can be made. This takes no memory but
/// what the sources take.
pub(crate) fn run_feeds<
    N: Rings + Send + Sync,
    R: Threads + Wait + Sync,
    G: Gate + Sync,
    S: Stop + Sync,
>(rt: &R, gate: &G, stop: &S, feeds: &mut [Feed<N>], progress: &Progress)
    ensures until { (i : ℕ) (d : _) → i < length feeds.old
        → HasRunUntil (G.answers gate.now i) (S.answers stop.now) (λ s. rest s) (slice_index_or feeds.old i d).source
        (slice_index_or feeds.old i d).line (slice_index_or feeds.new i d).line (slice_index_or feeds.new i d).tally }
    ensures run { (i : ℕ) (d : _) → i < length feeds.old
        → HasRun (λ s. rest s) (slice_index_or feeds.old i d).source (slice_index_or feeds.old i d).line
        (slice_index_or feeds.old i d).tally (slice_index_or feeds.new i d).line (slice_index_or feeds.new i d).tally }
    ensures shown { (i : ℕ) (d : _) → i < length feeds.old → HasShown (λ s. rest s) (slice_index_or feeds.old i d).source
        (slice_index_or feeds.old i d).line (slice_index_or feeds.old i d).gauge (slice_index_or feeds.new i d).line
        (slice_index_or feeds.new i d).tally (slice_index_or feeds.new i d).gauge }
{
    let threads = feeds.len();
    if threads > 0 {
        thread::for_each_mut(
            rt,
            feeds,
            threads,
            &|worker: usize, feed: &mut Feed<N>|
                ensures { HasRunUntil (G.answers gate.entry.now worker) (S.answers stop.entry.now)
                    (λ s. rest s) feed.old.source feed.old.line feed.new.line feed.new.tally
                    × HasRun (λ s. rest s) feed.old.source feed.old.line feed.old.tally feed.new.line feed.new.tally × HasShown
                    (λ s. rest s) feed.old.source feed.old.line feed.old.gauge feed.new.line feed.new.tally feed.new.gauge }
            { work(rt, gate, worker, stop, feed, progress) },
        );
    }
}
