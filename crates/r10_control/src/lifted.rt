//! A recorder whose medium is taken out.

ghost use Rattle.std.specs.Prelude.{◌≡◌};

use crate::keeping::Keeping;
use crate::recorder::Recorder;
use r10_cursor::Reader;
use r10_lane::LaneOut;
use r10_medium::BlockMedium;
use std::alloc::Global;
use std::marker::Model;
use std::snapshot::Snapshot;

/// A recorder without its medium. Contracts see the recorder as it was, with the medium as it was taken out.
pub struct Lifted<M: BlockMedium, L: LaneOut> {
    pub(crate) alloc: Global,
    pub(crate) keeping: Keeping,
    pub(crate) lanes: Vec<L>,
    pub(crate) reader: Reader,
    pub(crate) was: Snapshot<M>,
}

impl<M: BlockMedium, L: LaneOut> Model for Lifted<M, L> {
    ghost use Rattle.r10_control.specs.Keeping.{kept_of};
    ghost use Rattle.r10_control.specs.Owns.{Owns};
    ghost use Rattle.r10_control.specs.State.{RecorderState};

    ghost Value = { RecorderState M L };

    ghost view = { λ r. record {
      kept = kept_of r.keeping;
      lanes = r.lanes.items;
      medium = r.was.value;
    } };

    ghost invariant = { λ r.
        Owns L.spec_of L.reached (kept_of r.keeping) (M.disk r.was.value).blocks r.lanes.items r.reader.books };
}

impl<M: BlockMedium, L: LaneOut> Lifted<M, L> {
    /// The recorder over a medium that reads as the one that was taken out.
    pub fn over<N: BlockMedium>(self, medium: N) -> Recorder<N, L>
        requires { (N.disk medium).blocks ≡ (M.disk self.medium).blocks }
        ensures { result ≡ record { kept = self.kept; lanes = self.lanes; medium = medium } }
    {
        let Lifted {
            alloc,
            keeping,
            lanes,
            reader,
            was: _,
        } = self;
        Recorder {
            alloc,
            keeping,
            lanes,
            reader,
            medium,
        }
    }
}
