//! Machines whose lanes represent a recorder's, as a call that does nothing.

ghost use Rattle.std.specs.Prelude.{◌≡◌, [], map, IfSome};
ghost use Rattle.std.specs.List.{AllByRecursion};
ghost use Rattle.r10_control.specs.Leading.{AreLeft, none_taken};
ghost use Rattle.r10_control.specs.RepresentedLanes.{StandFor};
ghost use Rattle.r10_machine.specs.Machine.{Machine, fresh_lane};

use crate::recorder::Recorder;
use r10_lane::LaneOut;
use r10_medium::BlockMedium;

impl<M: BlockMedium, L: LaneOut> Recorder<M, L> {
    /// A law: channels of which nothing has come yet represent lanes in which nothing is known to wait, and a machine that stands
    /// for the lanes still does after a step that takes nothing from them.
    pub fn machines_stand(&self)
        ensures first { AllByRecursion (λ lane. IfSome (L.quiet lane) (λ waiting. waiting ≡ [])) self.now.lanes
            → StandFor L.quiet L.reached L.spec_of self.now.lanes (map fresh_lane (map L.spec_of self.now.lanes)) }
        ensures still { (m : Machine) (later : Machine) → StandFor L.quiet L.reached L.spec_of self.now.lanes m.lanes
            → AreLeft none_taken m.lanes later.lanes → StandFor L.quiet L.reached L.spec_of self.now.lanes later.lanes }
    {
        // For the proof: the recorder is read, and its invariant is known.
        let _ = &self.lanes;
    }
}
