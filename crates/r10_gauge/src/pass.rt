//! What a thread has seen.

ghost use Rattle.std.specs.Prelude.{◌≡◌};
ghost use Rattle.r10_gauge.specs.Published.{last_triple, commits_of};

use crate::cell::Seat;
use crate::kind::{Commits, GaugeKind};
use r10_body::Glance;
use std::marker::{Model, PhantomData};

/// What a thread has seen of what is published, with the last of it. Contracts see at which gauge, and all that was seen.
#[derive(Drop)]
pub struct Pass<K: GaugeKind = Commits> {
    pub(crate) seat: Seat,
    pub(crate) last: Glance,
    pub(crate) of: PhantomData<K>,
}

impl<K: GaugeKind> Model for Pass<K> {
    ghost use Rattle.std.specs.Prelude.{◌≡◌, ◌<◌, length};
    ghost use Rattle.crossbeam_utils.specs.Seq.{cell_view};
    ghost use Rattle.r10_gauge.specs.Published.{LookingEnd, last_triple};

    ghost Value = { LookingEnd };

    ghost view = { λ p. record { cell = p.seat.table_id; seen = (cell_view p.seat).seen } };

    ghost invariant = { λ p.
        (p.last ≡ last_triple (cell_view p.seat).seen)
        × (0 < length (cell_view p.seat).seen)
        × K.keeps (cell_view p.seat).seen };
}

impl Pass<Commits> {
    /// The last triple that was seen, without another look. Its number says how many were seen.
    pub fn last(&self) -> Glance
        ensures last { result ≡ last_triple self.now.seen }
        ensures commits { result.commits ≡ commits_of self.now.seen }
    {
        self.last
    }
}
