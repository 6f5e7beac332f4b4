// A loss that is longer than 16 bits count: messages at a full lane while the writer is held back, and what is seen of them.

use crate::meeting::MeetingPoint;
use crate::sources::ListSource;
use crossbeam_utils::Backoff;
use r10_body::{Entry, Gap};
use r10_shared::{Gate, Instalment};
use r10_source::{ChannelSource, Given};
use std::alloc::Global;
use std::sync::Arc;
use std::test::Fail;

/// The count of the first message.
const FIRST: u64 = 2000;

/// How many messages the lane has room for.
pub const ROOM: u64 = 2;

/// How many messages come while the lane is full and the writer is held back.
pub const LOST: u64 = 70_000;

/// How many messages come once the writer works.
const MORE: u64 = 100;

/// How many messages there are.
pub const ALL: u64 = ROOM + LOST + MORE;

/// How often the source has nothing yet, while the writer empties the lane.
const LATER: u32 = 100_000;

/// How many turns are waited at most: on a busy machine a million were over before the messages were lost.
const TURNS: u32 = 100_000_000;

/// A gate that lets everybody pass, the writer of two feeds only when somebody came.
#[derive(Drop)]
pub struct Barrier(pub Arc<MeetingPoint, Global>);

impl Gate for Barrier {
    fn pass(&self, worker: usize) -> bool {
        if worker == 2 {
            self.0.wait(1, TURNS);
        }
        true
    }
}

/// A source that fills the lane and loses messages while the writer is held back; then lets the writer go, has nothing for a while,
/// and gives the others slowly.
#[derive(Drop)]
pub struct Losing {
    source: ListSource,
    meeting: Arc<MeetingPoint, Global>,
    given: u64,
    later: u32,
    backoff: Backoff,
}

impl Losing {
    pub fn of(alloc: Global, meeting: &Arc<MeetingPoint, Global>) -> Result<Losing, Fail> {
        let source = ListSource::of(alloc, FIRST, ALL)?;
        Ok(Losing {
            source,
            meeting: Arc::try_clone(meeting)?,
            given: 0,
            later: 0,
            backoff: Backoff::new(),
        })
    }
}

impl ChannelSource for Losing {
    ghost rest = { λ losing. losing.source.left.items };

    fn next(&mut self) -> Given {
        if self.given >= ROOM + LOST {
            self.meeting.come();
            self.backoff.snooze();
            if self.later < LATER {
                self.later += 1;
                return Given::Later;
            }
        }
        self.given = self.given.saturating_add(1);
        self.source.next()
    }
}

/// What is seen of entries: how many there are, the count that comes next where none is lost, how many their gaps tell of, the
/// greatest number that one tells, and how many tell another number than the counts.
#[derive(Clone, Copy)]
pub struct Seen {
    pub entries: u64,
    next: u64,
    lost: u64,
    pub greatest: u64,
    pub wrong: u64,
}

impl Seen {
    /// Nothing yet.
    pub fn new() -> Seen {
        Seen {
            entries: 0,
            next: FIRST,
            lost: 0,
            greatest: 0,
            wrong: 0,
        }
    }

    /// Sees an entry.
    fn see(&mut self, entry: &Entry) {
        let count = entry.count.get();
        if entry.gap != Gap::after(count.saturating_sub(self.next)) {
            self.wrong = self.wrong.wrapping_add(1);
        }
        if let Gap::Lost(number) = entry.gap {
            self.lost = self.lost.wrapping_add(number);
            self.greatest = self.greatest.max(number);
        }
        self.entries = self.entries.wrapping_add(1);
        self.next = count.wrapping_add(1);
    }

    /// Sees the entries of these.
    pub fn see_all(&mut self, instalments: &[Instalment]) {
        for instalment in instalments {
            for entry in instalment.entries.as_slice() {
                self.see(entry);
            }
        }
    }

    /// How many messages were lost: those that the gaps tell of, and those after the last entry.
    pub fn lost(&self) -> u64 {
        let behind = (FIRST + ALL).saturating_sub(self.next);
        self.lost.wrapping_add(behind)
    }
}
