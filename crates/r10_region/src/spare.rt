//! Rings that are made before they are wanted.

ghost use Rattle.std.specs.Prelude.{◌≡◌, ◌<◌, [], IfSome};
ghost use Rattle.rtrb.specs.Ring.{IsPair, known_free, producer_capacity, received, sent};

use crate::operation::Operation;
use rtrb::{Consumer, Producer, RingBuffer};
use std::alloc::Global;

/// Both ends of a ring into which nothing was put yet.
#[derive(Drop)]
pub struct Spare {
    pub(crate) ring: Producer<Operation, Global>,
    pub(crate) next: Consumer<Operation, Global>,
    ghost pair: { IsPair ring next },
    ghost fresh: { (sent ring ≡ []) × (received next ≡ []) },
    ghost some: { 0 < known_free ring },
}

impl Spare {
    /// One with so many places.
    pub(crate) fn new(alloc: Global, places: usize) -> Option<Spare>
        requires { 0 < places }
        ensures { IfSome result (λ s. (producer_capacity s.ring ≡ places) × (known_free s.ring ≡ places)) }
    {
        match RingBuffer::new(alloc, places) {
            Ok((ring, next)) => Some(Spare { ring, next }),
            Err(_) => None,
        }
    }
}
