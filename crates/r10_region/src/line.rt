//! Where the operations for a disk go in: rings, one after the other, as many as are wanted.

ghost use Rattle.std.specs.Prelude.{◌≡◌, ◌<◌, [], IfNone};
ghost use Rattle.rtrb.specs.Ring.{known_free, known_items, sent, SameConsumer};
ghost use Rattle.r10_region.specs.Links.{last_name, name_of, AreLinked};

use crate::link::Link;
use crate::operation::Operation;
use crate::spare::Spare;
use rtrb::{Consumer, Producer, PushError, RingBuffer};
use std::alloc::{AllocError, Global};
use std::mem;
use std::snapshot::Snapshot;

/// How many rings may wait to be taken in hand.
const LINKS: usize = 4096;

/// The fewest places that a further ring has, and the most.
const FEWEST: usize = 64;

const MOST: usize = 16_384;

/// Where the operations for a disk go in. Where the ring in use is full a further one is begun, whose other end goes out through
/// the links.
pub struct Line {
    alloc: Global,
    pub(crate) ring: Producer<Operation, Global>,
    pub(crate) links: Producer<Link, Global>,
    // a ring that was made before it is wanted comes out here
    pub(crate) spares: Consumer<Spare, Global>,
    // the first ring, as it began
    pub(crate) first: Snapshot<Producer<Operation, Global>>,
    ghost last: { name_of ring.end ≡ last_name (name_of first.value.end) (sent links) },
    ghost linked: { AreLinked (name_of first.value.end) (sent links) },
}

/// Letting it go is one call, so that a body that holds one has one exit for it.
impl Drop for Line {
    fn drop(self) {
        let Line {
            alloc: _,
            ring: _,
            links: _,
            spares: _,
            first: _,
        } = self;
    }
}

/// How many places the ring after one of so many has.
fn larger(places: usize) -> usize
    ensures { 0 < result }
{
    if places >= MOST {
        return MOST;
    }
    (places * 2).max(FEWEST)
}

/// The spare ring, or a new one of so many places.
fn further(alloc: Global, spares: &mut Consumer<Spare, Global>, places: usize) -> Option<Spare>
    requires { 0 < places }
    ensures spares { SameConsumer spares.old spares.new }
    ensures none { IfNone result (known_items spares.new ≡ []) }
{
    match spares.pop() {
        Ok(spare) => Some(spare),
        Err(_) => Spare::new(alloc, places),
    }
}

impl Line {
    ghost use Rattle.std.specs.Prelude.{IfOk};
    ghost use Rattle.rtrb.specs.Ring.{received, IsPair, producer_capacity};
    ghost use Rattle.r10_region.specs.Device.{told_if};
    ghost use Rattle.r10_region.specs.Line.{sent_links, told_by, KeepsLine};

    /// A line, the two ends at which its operations come out, of which as many as `room` may wait before more memory is asked for,
    /// and where a spare ring goes in.
    pub(crate) fn new(
        alloc: Global,
        room: usize,
    ) -> Result<
        (
            Line,
            Consumer<Operation, Global>,
            Consumer<Link, Global>,
            Producer<Spare, Global>,
        ),
        AllocError,
    >
        ensures none_yet { IfOk result (λ r. (told_by r.0 ≡ []) × (received r.1 ≡ []) × (received r.2 ≡ [])) }
        ensures ring { IfOk result (λ r. IsPair r.0.ring r.1) }
        ensures first { IfOk result (λ r. name_of r.0.first.value.end ≡ name_of r.1.end) }
        ensures links { IfOk result (λ r. IsPair r.0.links r.2 × (sent_links r.0 ≡ [])) }
        ensures spares { IfOk result (λ r. IsPair r.3 r.0.spares × (sent r.3 ≡ [])) }
        ensures room { IfOk result (λ r. (producer_capacity r.0.ring ≡ room) × (known_free r.0.ring ≡ room)) }
    {
        let (ring, orders) = RingBuffer::new(alloc, room)?;
        let first = Snapshot::of(&ring);
        let (links, later) = RingBuffer::new(alloc, LINKS)?;
        let (spare, spares) = RingBuffer::new(alloc, 1)?;
        let line = Line {
            alloc,
            ring,
            links,
            spares,
            first,
        };
        Ok((line, orders, later, spare))
    }

    /// Puts an operation after the others. It is not put where there is no place for it and memory for more is refused.
    pub(crate) fn ask(&mut self, operation: Operation) -> bool
        ensures reported { told_by self.new ≡ told_if result operation (told_by self.old) }
        ensures keeps { KeepsLine result self.old self.new }
    {
        match self.ring.push(operation) {
            Ok(()) => true,
            Err(PushError::Full(operation)) => self.ask_anew(operation),
        }
    }

    /// Puts an operation into a further ring.
    #[cold]
    fn ask_anew(&mut self, operation: Operation) -> bool
        requires { known_free self.old.ring ≡ 0 }
        ensures reported { told_by self.new ≡ told_if result operation (told_by self.old) }
        ensures keeps { KeepsLine result self.old self.new }
    {
        if self.links.is_full() {
            return false;
        }
        let places = larger(self.ring.capacity());
        let Some(spare) = further(self.alloc, &mut self.spares, places) else {
            return false;
        };
        let Spare { mut ring, next } = spare;
        ring.push_reserved(operation);
        let before = mem::replace(&mut self.ring, ring);
        self.links.push_reserved(Link { next, before });
        true
    }
}
