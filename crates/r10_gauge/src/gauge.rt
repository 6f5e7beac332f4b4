//! The publishing end.

ghost use Rattle.std.specs.Prelude.{◌≡◌, ◌^◌, ◌-◌, min, [], ◌∷◌, ◌++◌, length, IfOk};
ghost use mathlib.Core.List.{IsPrefix};
ghost use Rattle.r10_gauge.specs.Published.{triple, nothing_published, commits_of};

use crate::cell::{Cell, Publishing, Seat, absorb, compare, halve};
use crate::kind::{Commits, GaugeKind, Level, Levels};
use crate::pass::Pass;
use crate::watch::Watch;
use r10_body::Glance;
use std::alloc::{AllocError, Global};
use std::marker::{Model, PhantomData};
use std::sync::{Arc, Wait};

/// The publishing end of a gauge. Contracts see which gauge it is, and all that was published at it.
#[derive(Drop)]
pub struct Gauge<K: GaugeKind = Commits> {
    cell: Arc<Cell<K>, Global>,
    seat: Seat,
    last: Glance,
}

impl<K: GaugeKind> Model for Gauge<K> {
    ghost use Rattle.std.specs.Prelude.{◌≡◌, ◌<◌, length};
    ghost use Rattle.std.specs.Arc.{arc_value};
    ghost use Rattle.crossbeam_utils.specs.Seq.{cell_view};
    ghost use Rattle.r10_gauge.specs.Published.{PublishingEnd, last_triple};
    ghost use Rattle.r10_gauge.specs.Seats.{writing_seat};

    ghost Value = { PublishingEnd };

    ghost view = { λ g. record { cell = g.seat.table_id; published = (cell_view g.seat).seen } };

    ghost invariant = { λ g.
        (g.seat.table_id ≡ (arc_value g.cell).table.shared.table_id)
        × (cell_view g.seat ≡ writing_seat (cell_view g.seat).seen)
        × (0 < length (cell_view g.seat).seen)
        × (g.last ≡ last_triple (cell_view g.seat).seen)
        × K.keeps (cell_view g.seat).seen };
}

impl<K: GaugeKind> Gauge<K> {
    /// A gauge at which nothing was published but three zeros, the end at which threads look, and the first pass, which has seen
    /// them. This takes all the memory that the gauge ever takes.
    pub fn new(alloc: Global) -> Result<(Gauge<K>, Watch<K>, Pass<K>), AllocError>
        ensures gauge { IfOk result (λ r. r.0.published ≡ nothing_published) }
        ensures pass { IfOk result (λ r. r.2.seen ≡ nothing_published) }
        ensures one { IfOk result (λ r. (r.1 ≡ r.0.cell) × (r.2.cell ≡ r.0.cell)) }
    {
        let (cell, mut seat) = Cell::<K>::ruled(alloc, [0, 0, 0])?;
        let zeros = Glance {
            commits: 0,
            file: 0,
            bytes: 0,
        };
        let pass = Pass {
            seat: halve(&cell, &mut seat),
            last: zeros,
            of: PhantomData,
        };
        let cell = Arc::new(alloc, cell)?;
        let watch = Watch {
            cell: Arc::try_clone(&cell)?,
        };
        let gauge = Gauge {
            cell,
            seat,
            last: zeros,
        };
        Ok((gauge, watch, pass))
    }

    /// Publishes a triple.
    fn put<R: Wait>(&mut self, rt: &R, next: Glance)
        requires { K.keeps (self.old.published ++ next ∷ []) }
        ensures same { self.new.cell ≡ self.old.cell }
        ensures grows { self.new.published ≡ self.old.published ++ next ∷ [] }
    {
        self.cell
            .swap_as::<Publishing, R>(rt, &mut self.seat, [next.commits, next.file, next.bytes]);
        self.last = next;
    }

    /// What a pass has seen is a beginning of what was published at its gauge. This changes nothing, and takes no memory.
    pub fn meet<R: Wait>(&mut self, rt: &R, pass: &mut Pass<K>)
        requires { pass.old.cell ≡ self.old.cell }
        ensures seen { IsPrefix pass.old.seen self.old.published }
        ensures stays { (self.new ≡ self.old) × (pass.new ≡ pass.old) }
    {
        let other = halve(&self.cell, &mut pass.seat);
        absorb(&self.cell, &mut self.seat, other);
        compare(&self.cell, rt, &mut self.seat);
    }
}

impl Gauge<Commits> {
    /// Publishes the number of a file and how many of its bytes are shown, as one triple with the number of this publication, from
    /// 1 up to `u64::MAX`, where it stays. This takes no memory.
    pub fn publish<R: Wait>(&mut self, rt: &R, file: u64, bytes: u64)
        ensures same { self.new.cell ≡ self.old.cell }
        ensures grows { self.new.published
            ≡ self.old.published ++ triple (min (length self.old.published) (2 ^ 64 - 1)) file bytes ∷ [] }
    {
        let commits = self.last.commits.saturating_add(1);
        self.put(
            rt,
            Glance {
                commits,
                file,
                bytes,
            },
        );
    }

    /// How often something was published, up to `u64::MAX`, where it stays.
    pub fn commits(&self) -> u64
        ensures { result ≡ commits_of self.now.published }
    {
        self.last.commits
    }
}

impl Gauge<Levels> {
    /// Publishes a level, as one triple. This takes no memory.
    pub fn show<R: Wait>(&mut self, rt: &R, level: Level)
        ensures same { self.new.cell ≡ self.old.cell }
        ensures grows { self.new.published ≡ self.old.published ++ triple level.sent level.lost level.waiting ∷ [] }
    {
        self.put(
            rt,
            Glance {
                commits: level.sent,
                file: level.lost,
                bytes: level.waiting,
            },
        );
    }
}
