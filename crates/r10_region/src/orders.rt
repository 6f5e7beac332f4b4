//! The operations that a disk has still to do, handed out in their order.

ghost use Rattle.std.specs.Prelude.{◌≡◌, ◌≤◌, ◌*◌, ◌++◌, ℕ, true, Some, length};
ghost use Rattle.rtrb.specs.Ring.{received};
ghost use Rattle.r10_region.specs.Ahead.{links_ahead};
ghost use Rattle.r10_region.specs.Links.{last_name, name_of};
ghost use Rattle.r10_region.specs.Runs.{run_length_with, joins, put_in_run};
ghost use Rattle.r10_region.specs.declared.ahead.Ahead.{Ahead};

use crate::ahead::Ahead;
use crate::line::Line;
use crate::link::Link;
use crate::operation::{Operation, has_its_bytes};
use crate::region::Region;
use crate::spare::Spare;
use crate::steady::Onlooker;
use crate::strip::Strip;
use rtrb::{Consumer, Producer};
use std::alloc::Global;
use std::snapshot::Snapshot;

/// An operation, without the bytes of a write.
#[repr(C)]
#[derive(Clone, Copy)]
pub struct OrderOut {
    /// which block is written
    pub block: usize,
    /// 0 there is none, 1 a block is written, 2 what was written so far is synced
    pub kind: u8,
}

/// Operations that a disk may do at once, without the bytes of their writes.
#[repr(C)]
#[derive(Clone, Copy)]
pub struct RunOut {
    /// which block is written first
    pub block: usize,
    /// how many blocks are written, side by side
    pub blocks: usize,
    /// 0 there is none, 1 blocks are written, 2 what was written so far is synced
    pub kind: u8,
}

/// What the disk under a region has still to do.
pub struct Orders {
    pub(crate) ring: Consumer<Operation, Global>,
    pub(crate) links: Consumer<Link, Global>,
    // the ring after the one in hand
    pub(crate) ahead: Option<Ahead>,
    // the links as they were when the ring in hand was taken
    pub(crate) done: Snapshot<Consumer<Link, Global>>,
    // the first ring, as it began
    pub(crate) first: Snapshot<Consumer<Operation, Global>>,
    // what was lent to the region
    pub(crate) was: Snapshot<Strip>,
    pub(crate) news: Producer<bool, Global>,
    // where a ring goes in that is made before it is wanted
    pub(crate) spares: Producer<Spare, Global>,
    // how many operations have a place when a call begins
    pub(crate) room: usize,
    ghost at: { name_of ring.end ≡ last_name (name_of first.value.end) (received done.value) },
    ghost taken: { received links ≡ received done.value ++ links_ahead ahead },
    ghost comes: { (a : Ahead) → ahead ≡ Some a → name_of a.was.value.before.end ≡ name_of ring.end },
}

/// Letting it go is one call, so that a body that holds one has one exit for it.
impl Drop for Orders {
    fn drop(self) {
        let Orders {
            ring: _,
            links: _,
            ahead: _,
            done: _,
            first: _,
            was: _,
            news: _,
            spares: _,
            room: _,
        } = self;
    }
}

/// How many operations wait, and how many have a place.
#[repr(C)]
#[derive(Clone, Copy)]
pub struct QueueOut {
    /// how many wait in the ring in hand
    pub waiting: usize,
    /// how many it has places for
    pub places: usize,
    /// how many further rings wait, each of at least 64 places
    pub rings: usize,
}

/// Whether an operation is a write that joins a run of so many blocks, which may have at most so many.
fn joins(operation: &Operation, first: usize, count: usize, most: usize) -> bool
    ensures { result ≡ joins first count most operation.now }
{
    match operation {
        Operation::Write { block, .. } => {
            first <= *block && *block - first <= count && *block - first < most
        }
        Operation::Sync => false,
    }
}

/// Puts what an operation that joins a run writes to its place, and says how many blocks the run has then.
fn put_in_run(operation: &Operation, first: usize, count: usize, bytes: &mut [u8]) -> usize
    requires { (most : ℕ) × (joins first count most operation.now ≡ true) × (512 * most ≤ length bytes.old) }
    ensures bytes { bytes.new ≡ put_in_run first operation.now bytes.old }
    ensures count { result ≡ run_length_with first operation.now count }
    ensures size { length bytes.new ≡ length bytes.old }
{
    match operation {
        Operation::Write {
            block,
            bytes: contents,
        } => {
            has_its_bytes(contents);
            let place = *block - first;
            bytes[512 * place..512 * place + 512].copy_from_slice(contents);
            count.max(place + 1)
        }
        Operation::Sync => count,
    }
}

impl Orders {
    ghost use Rattle.std.specs.Prelude.{◌/◌, ◌-◌, [], ◌∷◌, None, MatchOption};
    ghost use Rattle.rtrb.specs.Ring.{consumer_capacity, known_items};
    ghost use Rattle.r10_region.specs.Joining.{JoinsMore, JoinsOne};
    ghost use Rattle.r10_region.specs.Orders.{taken, CountsQueue, HandsOne, HandsSome, HasNoOrder};
    ghost use Rattle.r10_region.specs.Orders.{HasTold, IsSameEnd, IsTied, LooksAhead, MakesRoom, MovesOn, LooksAtLine, TakesFirst};

    /// Takes the ring ahead in hand where the one in hand has nothing more. False where it has.
    fn move_on(&mut self) -> bool
        ensures { MovesOn result self.old self.new }
    {
        let Some(ahead) = self.ahead.take() else {
            return true;
        };
        let Ahead { link, was } = ahead;
        let Link { next, mut before } = link;
        if self.ring.slots_beside(&mut before) > 0 {
            let link = Link { next, before };
            self.ahead = Some(Ahead { link, was });
            return false;
        }
        self.ring = next;
        self.done = Snapshot::of(&self.links);
        true
    }

    /// Takes rings in hand until one has something, or nothing waits. What the ring in hand has is then known.
    fn reach(&mut self, line: &mut Line)
        requires { IsTied line.old self.old }
        ensures { LooksAtLine line.old line.new self.old self.new }
    {
        let further = self.links.slots_beside(&mut line.links);
        if !self.move_on() {
            return;
        }
        for _ in 0..further {
            let link = self.links.pop_known();
            self.ahead = Some(Ahead::new(link));
            if !self.move_on() {
                return;
            }
        }
        self.ring.slots_beside(&mut line.ring);
    }

    /// Hands out the next operation that is known, and the bytes of a write, if there is one.
    pub fn hand_out(&mut self, out: &mut OrderOut, bytes: &mut [u8])
        requires { 512 ≤ length bytes.old }
        ensures { HandsOne self.old self.new out.new bytes.old bytes.new }
    {
        match self.pop() {
            Some(
                Operation::Write {
                    block,
                    bytes: contents,
                },
            ) => {
                has_its_bytes(&contents);
                bytes[..512].copy_from_slice(&contents);
                *out = OrderOut { block, kind: 1 };
            }
            Some(Operation::Sync) => *out = OrderOut { block: 0, kind: 2 },
            None => *out = OrderOut { block: 0, kind: 0 },
        }
    }

    /// Takes the next operation where it joins a run, and says how many blocks the run has then.
    fn join_one(
        &mut self,
        first: usize,
        count: usize,
        most: usize,
        bytes: &mut [u8],
    ) -> Option<usize>
        requires { 512 * most ≤ length bytes.old }
        ensures joins { JoinsOne first count most self.old self.new bytes.old bytes.new result }
        ensures size { length bytes.new ≡ length bytes.old }
    {
        if self.ring.cached_slots() == 0 {
            return None;
        }
        if !joins(self.ring.peek_known(), first, count, most) {
            return None;
        }
        let operation = self.ring.pop_known();
        Some(put_in_run(&operation, first, count, bytes))
    }

    /// Takes the operations that join a run of one block, and says how many blocks it has then.
    fn join(&mut self, first: usize, bytes: &mut [u8]) -> usize
        ensures { JoinsMore first (length bytes.old / 512) self.old self.new bytes.old bytes.new result }
    {
        let most = bytes.len() / 512;
        let mut count = 1;
        for _ in 0..self.ring.cached_slots() {
            match self.join_one(first, count, most, bytes) {
                Some(more) => count = more,
                None => return count,
            }
        }
        count
    }

    // The next operation that is known in the ring in hand, by value.
    fn pop(&mut self) -> Option<Operation>
        ensures queue { IsSameEnd self.old self.new }
        ensures takes { MatchOption result (HasNoOrder self.old self.new) (λ op. TakesFirst op self.old self.new) }
    {
        if self.ring.cached_slots() == 0 {
            return None;
        }
        Some(self.ring.pop_known())
    }

    /// Hands out the next operations that are known and that a disk may do at once, and the bytes of their writes, if there are
    /// some: a sync alone, or a write and those after it that write its block, or blocks side by side with it, as many as there is
    /// room for.
    pub fn hand_out_run(&mut self, out: &mut RunOut, bytes: &mut [u8])
        requires { 512 ≤ length bytes.old }
        ensures { HandsSome self.old self.new out.new bytes.old bytes.new }
    {
        match self.pop() {
            Some(
                Operation::Write {
                    block,
                    bytes: contents,
                },
            ) => {
                has_its_bytes(&contents);
                bytes[..512].copy_from_slice(&contents);
                let blocks = self.join(block, bytes);
                *out = RunOut {
                    block,
                    blocks,
                    kind: 1,
                };
            }
            Some(Operation::Sync) => {
                *out = RunOut {
                    block: 0,
                    blocks: 0,
                    kind: 2,
                };
            }
            None => {
                *out = RunOut {
                    block: 0,
                    blocks: 0,
                    kind: 0,
                };
            }
        }
    }

    /// Tells the region that its disk failed: from then on each of its writes and syncs fails.
    pub fn disk_failed(&mut self)
        ensures { HasTold self.old self.new }
    {
        // What was reported before still holds.
        let _told = self.news.push(true);
    }

    /// Sees to a place for each of `room` operations more, so many as the region was opened with, before memory is asked for. False
    /// where memory for them is refused.
    pub fn make_room(&mut self, alloc: Global) -> bool
        ensures { MakesRoom result self.old self.new }
    {
        if self.spares.is_full() {
            return true;
        }
        if self.has_places() {
            return true;
        }
        let Some(spare) = Spare::new(alloc, self.room.max(1)) else {
            return false;
        };
        self.spares.push_reserved(spare);
        true
    }

    // Whether the ring in hand has them, and none waits after it.
    fn has_places(&mut self) -> bool
        ensures looked { LooksAhead self.old self.new }
        ensures value { result ≡ true → (self.new.ahead ≡ None) × (known_items self.new.links ≡ [])
            × (self.old.room ≤ consumer_capacity self.new.ring - length (known_items self.new.ring)) }
    {
        if self.ahead.is_some() || !self.links.is_empty() {
            return false;
        }
        let waiting = self.ring.slots();
        self.room <= self.ring.capacity().saturating_sub(waiting)
    }

    /// How much waits.
    pub fn count(&mut self) -> QueueOut
        ensures { CountsQueue self.old self.new result }
    {
        QueueOut {
            waiting: self.ring.slots(),
            places: self.ring.capacity(),
            rings: self.links.slots() + usize::from(self.ahead.is_some()),
        }
    }
}

/// Where it looks at its region, it has all in hand or ahead that was asked of the disk and not handed out.
impl Onlooker<Region> for Orders {
    ghost use Rattle.r10_region.specs.Orders.{IsLookedInto, IsTiedTo, LooksAtLine};

    ghost may_look = { λ o r. IsTiedTo r o };

    ghost looks = { λ o r o' r'. LooksAtLine r.line r'.line o o' × IsLookedInto r r' };

    fn look(&mut self, region: &mut Region) {
        self.reach(&mut region.line);
    }
}
