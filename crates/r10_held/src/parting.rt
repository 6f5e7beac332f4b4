//! The recorder out of the lock.

ghost use Rattle.std.specs.Prelude.{◌≡◌, IfErr, IfOk};
ghost use Rattle.r10_held.specs.LockFact.{LanesAccounted};

use crate::held::Held;
use crate::rings::Rings;
use r10_control::Recorder;
use r10_lane::Spent;
use r10_medium::BlockMedium;
use r10_port::Outlet;

impl<M: BlockMedium, N: Rings> Held<M, N> {
    /// The recorder as it is. Nothing more is published.
    pub fn into_recorder(self) -> Recorder<M, Outlet>
        ensures same { result ≡ self.recorder }
        ensures lanes { LanesAccounted M.disk N.rings self.recorder }
    {
        let Held { recorder, gauge: _ } = self;
        recorder
    }

    /// The recorder and its lanes, as `Recorder::apart`. Where memory is refused, all comes back as it was.
    pub fn apart(self) -> Result<(Recorder<M, Spent>, Vec<Outlet>), Held<M, N>>
        ensures kept { IfOk result (λ parts. parts.0.kept ≡ self.recorder.kept) }
        ensures medium { IfOk result (λ parts. parts.0.medium ≡ self.recorder.medium) }
        ensures spent { IfOk result (λ parts. parts.0.lanes ≡ self.recorder.kept.config.channels) }
        ensures lanes { IfOk result (λ parts. parts.1.items ≡ self.recorder.lanes) }
        ensures accounted { LanesAccounted M.disk N.rings self.recorder }
        ensures refused { IfErr result (λ back. back ≡ self) }
    {
        let Held { recorder, gauge } = self;
        match recorder.apart() {
            Ok(parts) => Ok(parts),
            Err(back) => Err(Held::new(back, gauge)),
        }
    }
}
