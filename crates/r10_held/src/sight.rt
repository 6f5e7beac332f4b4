//! The two ends of the gauge that is named: one under the lock, and one beside it.

ghost use Rattle.std.specs.Prelude.{◌≡◌, [], ◌∷◌, ◌++◌, ◌-◌, ◌^◌, length, min};
ghost use mathlib.Core.List.{IsPrefix};
ghost use Rattle.r10_gauge.specs.Published.{commits_of, triple};

use crate::rings::Rings;
use r10_gauge::{Gauge, Pass, Watch};
use std::marker::{Model, PhantomData};
use std::sync::Wait;

/// The publishing end of the gauge which `N` names.
#[derive(Drop)]
pub(crate) struct Publisher<N: Rings> {
    gauge: Gauge,
    of: PhantomData<N>,
}

impl<N: Rings> Model for Publisher<N> {
    ghost use Rattle.std.specs.Prelude.{◌≡◌};
    ghost use Rattle.r10_gauge.specs.Published.{PublishingEnd};

    ghost Value = { PublishingEnd };

    ghost view = { λ p. p.gauge };

    ghost invariant = { λ p. p.gauge.cell ≡ N.gauge };
}

impl<N: Rings> Publisher<N> {
    pub(crate) fn new(gauge: Gauge) -> Publisher<N>
        requires { gauge.cell ≡ N.gauge }
        ensures { result ≡ gauge }
    {
        Publisher {
            gauge,
            of: PhantomData,
        }
    }

    /// The gauge is the one that is named.
    pub(crate) fn is_named(&self)
        ensures { self.now.cell ≡ N.gauge }
    {
        let _ = &self.gauge;
    }

    /// Publishes, as `Gauge::publish`.
    pub(crate) fn publish<R: Wait>(&mut self, rt: &R, file: u64, bytes: u64)
        ensures same { self.new.cell ≡ self.old.cell }
        ensures grows { self.new.published
            ≡ self.old.published ++ triple (min (length self.old.published) (2 ^ 64 - 1)) file bytes ∷ [] }
    {
        self.gauge.publish(rt, file, bytes);
    }

    /// What a pass has seen is a beginning of what was published, as `Gauge::meet`.
    pub(crate) fn meet<R: Wait>(&mut self, rt: &R, pass: &mut Pass)
        requires { pass.old.cell ≡ self.old.cell }
        ensures seen { IsPrefix pass.old.seen self.old.published }
        ensures stays { (self.new ≡ self.old) × (pass.new ≡ pass.old) }
    {
        self.gauge.meet(rt, pass);
    }

    /// How often something was published, up to `u64::MAX`, where it stays.
    pub(crate) fn commits(&self) -> u64
        ensures { result ≡ commits_of self.now.published }
    {
        self.gauge.commits()
    }
}

/// The end at which threads look, of the gauge which `N` names. Contracts see which gauge it is.
#[derive(Drop)]
pub struct Sight<N: Rings> {
    pub(crate) watch: Watch,
    of: PhantomData<N>,
}

impl<N: Rings> Model for Sight<N> {
    ghost use Rattle.std.specs.Prelude.{◌≡◌};
    ghost use Rattle.atomic_table.specs.Seated.{TableId, table_id_coded};

    ghost Value = { TableId };

    ghost coded = { table_id_coded };

    ghost view = { λ s. s.watch };

    ghost invariant = { λ s. s.watch ≡ N.gauge };
}

impl<N: Rings> Sight<N> {
    pub(crate) fn new(watch: Watch) -> Sight<N>
        requires { watch ≡ N.gauge }
        ensures { result ≡ watch }
    {
        Sight {
            watch,
            of: PhantomData,
        }
    }

    /// The gauge is the one that is named.
    pub(crate) fn is_named(&self)
        ensures { self.now ≡ N.gauge }
    {
        let _ = &self.watch;
    }
}
