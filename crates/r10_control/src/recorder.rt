//! What a recorder is made of.

ghost use Rattle.std.specs.Prelude.{◌≡◌, ◌≤◌, [], length, map, replicate, None, IfOk, IfErr};
ghost use Rattle.std.specs.List.{AllByRecursion};
ghost use Rattle.r10_control.specs.Own.{AreOwn};
ghost use Rattle.r10_refinement.specs.KeptState.{unmounted};

use crate::keeping::Keeping;
use crate::lifted::Lifted;
use crate::parting::all_spent;
use crate::work::Doing;
use r10_cursor::Reader;
use r10_lane::{LaneOut, Spent};
use r10_machine::Settings;
use r10_medium::BlockMedium;
use std::alloc::{AllocError, Global};
use std::marker::Model;
use std::snapshot::Snapshot;

/// A recorder. Contracts see what it keeps, its lanes, and its medium.
///
/// Of what each call refuses, the first that applies is answered, in the order in which the call's text names them; Medium is
/// answered as soon as the medium fails, and the recorder is Failed from then on. Any other refused call leaves what
/// is kept, and the medium's blocks, as they were.
pub struct Recorder<M: BlockMedium, L: LaneOut> {
    pub(crate) alloc: Global,
    pub(crate) keeping: Keeping,
    pub(crate) lanes: Vec<L>,
    pub(crate) reader: Reader,
    pub(crate) medium: M,
}

impl<M: BlockMedium, L: LaneOut> Model for Recorder<M, L> {
    ghost use Rattle.r10_control.specs.Keeping.{kept_of};
    ghost use Rattle.r10_control.specs.Owns.{Owns};
    ghost use Rattle.r10_control.specs.State.{RecorderState};

    ghost Value = { RecorderState M L };

    ghost view = { λ r. record {
      kept = kept_of r.keeping;
      lanes = r.lanes.items;
      medium = r.medium;
    } };

    ghost invariant = { λ r.
        Owns L.spec_of L.reached (kept_of r.keeping) (M.disk r.medium).blocks r.lanes.items r.reader.books };
}

/// Letting a recorder go is one call, whatever it does, so that a body that holds one has no exit for each mode.
impl<M: BlockMedium + Drop, L: LaneOut + Drop> Drop for Recorder<M, L> {
    fn drop(self) {
        let Recorder {
            alloc: _,
            keeping: _,
            lanes: _,
            reader: _,
            medium: _,
        } = self;
    }
}

/// So many zeros.
fn zeros(alloc: Global, count: usize) -> Result<Vec<u64>, AllocError>
    ensures { IfOk result (λ v. v.items ≡ replicate count 0) }
{
    vec![in alloc; 0; count]
}

impl<M: BlockMedium, L: LaneOut> Recorder<M, L> {
    /// A recorder over a medium of these settings, and a lane for each of their channels, in their order. Where memory is refused,
    /// all come back.
    pub fn new(
        alloc: Global,
        settings: Settings,
        medium: M,
        lanes: Vec<L>,
    ) -> Result<Recorder<M, L>, (Settings, M, Vec<L>)>
        requires blocks { length (M.disk medium).blocks ≡ settings.blocks }
        requires lanes { map L.spec_of lanes.items ≡ settings.channels }
        ensures kept { IfOk result (λ r. r.kept ≡ record {
          config = settings;
          work = unmounted;
          tick = None;
          last_event = None;
          generation = 0;
          taken = replicate (length settings.channels) 0;
          erased = replicate (length settings.channels) 0;
          found = None;
        }) }
        ensures lanes { IfOk result (λ r. r.lanes ≡ lanes.items) }
        ensures medium { IfOk result (λ r. r.medium ≡ medium) }
        ensures owned { IfOk result (λ r. AreOwn r.kept (M.disk r.medium).blocks []) }
        ensures refused { IfErr result (λ back. (back.0 ≡ settings) × (back.1 ≡ medium) × (back.2.items ≡ lanes.items)) }
    {
        let channels = settings.channels().len();
        let Ok(taken) = zeros(alloc, channels) else {
            return Err((settings, medium, lanes));
        };
        let Ok(erased) = zeros(alloc, channels) else {
            return Err((settings, medium, lanes));
        };
        Ok(Recorder {
            alloc,
            keeping: Keeping {
                settings,
                work: Doing::Unmounted,
                tick: None,
                last_event: None,
                generation: 0,
                taken,
                erased,
                found: None,
            },
            lanes,
            reader: Reader::new(alloc),
            medium,
        })
    }

    /// The medium as it stands, and the lanes with what waits in them. Nothing is written first: a file that is recorded stays
    /// open on the medium, and what only the recorder held of it is gone.
    pub fn into_parts(self) -> (M, Vec<L>)
        ensures { (result.0 ≡ self.medium) × (result.1.items ≡ self.lanes) }
    {
        let Recorder {
            alloc: _,
            keeping: _,
            lanes,
            reader: _,
            medium,
        } = self;
        (medium, lanes)
    }

    /// The recorder without its medium, and the medium.
    pub fn lift(self) -> (Lifted<M, L>, M)
        ensures { (result.0 ≡ self) × (result.1 ≡ self.medium) }
    {
        let Recorder {
            alloc,
            keeping,
            lanes,
            reader,
            medium,
        } = self;
        let was = Snapshot::of(&medium);
        let lifted = Lifted {
            alloc,
            keeping,
            lanes,
            reader,
            was,
        };
        (lifted, medium)
    }

    /// The recorder and its lanes, in the order of the settings. In the place of each lane the recorder has one that gives nothing,
    /// so that it goes on as before, but for what its lanes held. Where memory is refused, the recorder comes back as it was.
    pub fn apart(self) -> Result<(Recorder<M, Spent>, Vec<L>), Recorder<M, L>>
        ensures kept { IfOk result (λ parts. parts.0.kept ≡ self.kept) }
        ensures medium { IfOk result (λ parts. parts.0.medium ≡ self.medium) }
        ensures spent { IfOk result (λ parts. parts.0.lanes ≡ self.kept.config.channels) }
        ensures lanes { IfOk result (λ parts. parts.1.items ≡ self.lanes) }
        ensures refused { IfErr result (λ back. back ≡ self) }
    {
        let Ok(spent) = all_spent(self.alloc, self.lanes.as_slice()) else {
            return Err(self);
        };
        let Recorder {
            alloc,
            keeping,
            lanes,
            reader,
            medium,
        } = self;
        let parts = Recorder {
            alloc,
            keeping,
            lanes: spent,
            reader,
            medium,
        };
        Ok((parts, lanes))
    }
}

impl<M: BlockMedium, L: LaneOut + Drop> Recorder<M, L> {
    /// The medium as it stands. What waits in the lanes is let go; `into_parts` hands the lanes back.
    pub fn into_medium(self) -> M
        ensures { result ≡ self.medium }
    {
        let (medium, _) = self.into_parts();
        medium
    }
}
