//! A recorder with a gauge of its own.

ghost use Rattle.std.specs.Prelude.{◌≡◌, IfErr, IfOk};
ghost use Rattle.r10_gauge.specs.Published.{nothing_published};

use r10_control::Recorder;
use r10_gauge::{Gauge, Pass, Watch};
use r10_medium::BlockMedium;
use r10_port::Outlet;
use std::alloc::Global;
use std::marker::Model;

/// A recorder with all ends of one gauge, at which nothing was published. Contracts see the recorder, and which gauge it is.
pub struct Gauged<M: BlockMedium> {
    recorder: Recorder<M, Outlet>,
    gauge: Gauge,
    watch: Watch,
    pass: Pass,
}

/// Letting it go is one call, so that a body that holds one has one exit for it.
impl<M: BlockMedium + Drop> Drop for Gauged<M> {
    fn drop(self) {
        let Gauged {
            recorder: _,
            gauge: _,
            watch: _,
            pass: _,
        } = self;
    }
}

impl<M: BlockMedium> Model for Gauged<M> {
    ghost use Rattle.std.specs.Prelude.{◌≡◌};
    ghost use Rattle.r10_gauge.specs.Published.{nothing_published};
    ghost use Rattle.r10_held.specs.State.{GaugedState};

    ghost Value = { GaugedState M };

    ghost view = { λ g. record { recorder = g.recorder; cell = g.gauge.cell } };

    ghost invariant = { λ g.
        (g.watch ≡ g.gauge.cell)
        × (g.pass.cell ≡ g.gauge.cell)
        × (g.gauge.published ≡ nothing_published)
        × (g.pass.seen ≡ nothing_published) };
}

/// What a recorder with a gauge is made of.
pub(crate) struct Ends<M: BlockMedium> {
    pub(crate) recorder: Recorder<M, Outlet>,
    pub(crate) gauge: Gauge,
    pub(crate) watch: Watch,
    pub(crate) pass: Pass,
}

impl<M: BlockMedium> Gauged<M> {
    /// The recorder with a gauge of its own. This takes all the memory that a cabinet ever takes; where it is refused, the recorder
    /// comes back.
    pub fn new(
        alloc: Global,
        recorder: Recorder<M, Outlet>,
    ) -> Result<Gauged<M>, Recorder<M, Outlet>>
        ensures recorder { IfOk result (λ g. g.recorder ≡ recorder) }
        ensures refused { IfErr result (λ back. back ≡ recorder) }
    {
        match Gauge::new(alloc) {
            Ok((gauge, watch, pass)) => Ok(Gauged {
                recorder,
                gauge,
                watch,
                pass,
            }),
            Err(_) => Err(recorder),
        }
    }

    /// The recorder, and the ends of its gauge.
    pub(crate) fn into_ends(self) -> Ends<M>
        ensures recorder { result.recorder ≡ self.recorder }
        ensures one { (result.gauge.cell ≡ self.cell) × (result.watch ≡ self.cell) × (result.pass.cell ≡ self.cell) }
        ensures none { (result.gauge.published ≡ nothing_published) × (result.pass.seen ≡ nothing_published) }
    {
        let Gauged {
            recorder,
            gauge,
            watch,
            pass,
        } = self;
        Ends {
            recorder,
            gauge,
            watch,
            pass,
        }
    }
}
