// What workers wait for, and gates and sources at which they do.

use crate::sources::ListSource;
use crossbeam_utils::Backoff;
use r10_shared::Gate;
use r10_source::{ChannelSource, Given};
use std::alloc::{AllocError, Global};
use std::sync::Arc;
use std::sync::atomic::{AtomicBool, AtomicU64, Ordering};
use std::test::Fail;

/// How many turns a worker waits at the gate at most.
const GATE_TURNS: u32 = 1_000_000;

/// How many turns a source waits at most.
const SOURCE_TURNS: u32 = 10_000_000;

/// How many came, and whether somebody waited for them in vain. As a gate it waits for five workers.
#[derive(Drop)]
pub struct MeetingPoint {
    came: AtomicU64,
    vain: AtomicBool,
}

impl MeetingPoint {
    pub fn new(alloc: Global) -> Result<Arc<MeetingPoint, Global>, AllocError> {
        let meeting = MeetingPoint {
            came: AtomicU64::new(0),
            vain: AtomicBool::new(false),
        };
        Ok(Arc::new(alloc, meeting)?)
    }

    /// One more came.
    pub fn come(&self) {
        self.came.fetch_add(1, Ordering::SeqCst);
    }

    /// Waits until so many came, and at most so many turns. Whether they came.
    pub fn wait(&self, all: u64, turns: u32) -> bool {
        let backoff = Backoff::new();
        for _ in 0..turns {
            if self.came.load(Ordering::SeqCst) >= all {
                return true;
            }
            backoff.snooze();
        }
        self.vain.store(true, Ordering::SeqCst);
        false
    }

    /// Whether somebody waited in vain.
    pub fn in_vain(&self) -> bool {
        self.vain.load(Ordering::SeqCst)
    }
}

/// Nobody passes who waited in vain.
impl Gate for MeetingPoint {
    fn pass(&self, _worker: usize) -> bool {
        self.come();
        self.wait(5, GATE_TURNS)
    }
}

/// A gate that lets only the worker with this number pass.
#[derive(Clone, Copy)]
pub struct Only(pub usize);

impl Gate for Only {
    fn pass(&self, worker: usize) -> bool {
        worker == self.0
    }
}

/// A source that comes when it is first asked. When it is asked for the message in this place, from 0, it waits until so many came.
#[derive(Drop)]
pub struct WaitingSource {
    source: ListSource,
    meeting: Arc<MeetingPoint, Global>,
    asked: u64,
    at: u64,
    all: u64,
}

impl WaitingSource {
    /// A source of ten messages.
    pub fn of(
        alloc: Global,
        meeting: &Arc<MeetingPoint, Global>,
        at: u64,
        all: u64,
    ) -> Result<WaitingSource, Fail> {
        let source = ListSource::of(alloc, 2000, 10)?;
        Ok(WaitingSource {
            source,
            meeting: Arc::try_clone(meeting)?,
            asked: 0,
            at,
            all,
        })
    }
}

impl ChannelSource for WaitingSource {
    ghost rest = { λ waiting. waiting.source.left.items };

    fn next(&mut self) -> Given {
        if self.asked == 0 {
            self.meeting.come();
        }
        if self.asked == self.at {
            self.meeting.wait(self.all, SOURCE_TURNS);
        }
        self.asked = self.asked.wrapping_add(1);
        self.source.next()
    }
}
