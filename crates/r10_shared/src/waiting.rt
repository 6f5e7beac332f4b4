//! What the workers of a session wait for, and who wakes them.
//!
//! - The writer waits for a message in a lane, for an order, and for the end of a feed or of the orders. The feeds' workers and
//!   control wake it.
//! - A reader waits for the next commit, and for the writer's end. The writer wakes all readers.
//!
//! No wake-up is lost:
//! 1. A worker that waits first announces it, then looks for something to do, and sleeps only if it finds nothing.
//! 2. A worker that wakes others first does what they look for, and then looks for announcements. It ends those waits, also of
//!    workers that do not sleep yet.
//! 3. All these steps come in one order (`SeqCst`). So either the announcement is seen, or what was done is found.

use crossbeam_utils::sync::{EventCount, Key};
use std::sync::atomic::{AtomicBool, AtomicU64, Ordering};

/// How far the workers of a session are, and who waits for that. Of `all` feeds and control so many are over. The writer has
/// committed so often (`shown`), and has ended or not (`written`). At `coming` the writer waits, at `showing` readers do.
#[derive(Drop)]
pub(crate) struct Progress {
    all: u64,
    over: AtomicU64,
    shown: AtomicU64,
    written: AtomicBool,
    coming: EventCount,
    showing: EventCount,
}

impl Progress {
    /// Nothing of a session of so many feeds is over.
    pub(crate) fn of(feeds: usize) -> Progress {
        Progress {
            all: (feeds as u64).saturating_add(1),
            over: AtomicU64::new(0),
            shown: AtomicU64::new(0),
            written: AtomicBool::new(false),
            coming: EventCount::new(),
            showing: EventCount::new(),
        }
    }

    /// Wakes the writer after a message was accepted or an order asked. It takes no lock. While the writer does not wait, this is
    /// one load.
    pub(crate) fn wake_writer(&self) {
        self.coming.notify_one();
    }

    /// One more feed is over, or control is. Wakes the writer.
    pub(crate) fn end_one(&self) {
        self.over.fetch_add(1, Ordering::SeqCst);
        self.coming.notify_one();
    }

    /// Whether all feeds are over, and control.
    pub(crate) fn is_over(&self) -> bool {
        self.over.load(Ordering::SeqCst) >= self.all
    }

    /// Announces that the writer waits. It then looks once more before it sleeps.
    pub(crate) fn await_more(&self) -> Key<'_> {
        self.coming.prepare_wait()
    }

    /// The writer has committed once more. Wakes the readers.
    pub(crate) fn show(&self) {
        self.shown.fetch_add(1, Ordering::SeqCst);
        self.showing.notify_all();
    }

    /// The writer has ended. Wakes the readers.
    pub(crate) fn end_writing(&self) {
        self.written.store(true, Ordering::SeqCst);
        self.showing.notify_all();
    }

    /// Announces that a reader waits. It then looks before it sleeps.
    pub(crate) fn await_shown(&self) -> Key<'_> {
        self.showing.prepare_wait()
    }

    /// Whether the writer has ended.
    pub(crate) fn is_written(&self) -> bool {
        self.written.load(Ordering::SeqCst)
    }

    /// How often the writer has committed.
    pub(crate) fn commit_count(&self) -> u64 {
        self.shown.load(Ordering::SeqCst)
    }
}
