//! The end at which threads look.

ghost use Rattle.std.specs.Prelude.{◌≡◌};
ghost use mathlib.Core.List.{IsPrefix};
ghost use Rattle.r10_gauge.specs.Published.{last_triple};

use crate::cell::{Cell, halve, look};
use crate::kind::{Commits, GaugeKind};
use crate::pass::Pass;
use r10_body::Glance;
use std::alloc::Global;
use std::marker::{Model, PhantomData};
use std::sync::{Arc, Wait};

/// The end of a gauge at which threads look, beside the lock that keeps the publishing end. Contracts see which gauge it is.
#[derive(Drop)]
pub struct Watch<K: GaugeKind = Commits> {
    pub(crate) cell: Arc<Cell<K>, Global>,
}

impl<K: GaugeKind> Model for Watch<K> {
    ghost use Rattle.std.specs.Arc.{arc_value};
    ghost use Rattle.atomic_table.specs.Seated.{TableId, table_id_coded};

    ghost Value = { TableId };

    ghost coded = { table_id_coded };

    ghost view = { λ w. (arc_value w.cell).table.shared.table_id };
}

impl<K: GaugeKind> Watch<K> {
    /// The last triple of all that is published at this moment. What the pass had seen is a beginning of that list, and the pass
    /// has now seen all of it. This takes no memory and asks for no lock of a recorder.
    pub fn glance<R: Wait>(&self, rt: &R, pass: &mut Pass<K>) -> Glance
        requires { pass.old.cell ≡ self.now }
        ensures same { pass.new.cell ≡ pass.old.cell }
        ensures seen { IsPrefix pass.old.seen pass.new.seen }
        ensures last { result ≡ last_triple pass.new.seen }
        ensures numbered { K.keeps pass.new.seen }
    {
        let words = look(&self.cell, rt, &mut pass.seat);
        pass.last = Glance {
            commits: words[0],
            file: words[1],
            bytes: words[2],
        };
        pass.last
    }

    /// A pass that has seen the same, for another thread.
    pub fn split(&self, pass: &mut Pass<K>) -> Pass<K>
        requires { pass.old.cell ≡ self.now }
        ensures stays { pass.new ≡ pass.old }
        ensures other { result ≡ pass.old }
    {
        let seat = halve(&self.cell, &mut pass.seat);
        Pass {
            seat,
            last: pass.last,
            of: PhantomData,
        }
    }
}
