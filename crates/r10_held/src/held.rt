//! What the lock keeps.

ghost use Rattle.std.specs.Prelude.{◌≡◌};
ghost use mathlib.Core.List.{IsPrefix};
ghost use Rattle.r10_control.specs.State.{RecorderState};
ghost use Rattle.r10_gauge.specs.Published.{commits_of};
ghost use Rattle.r10_port.specs.Ends.{Receiving};
ghost use Rattle.r10_held.specs.Account.{IsNew};
ghost use Rattle.r10_held.specs.LockFact.{LanesAccounted, LockFact, outlet_received, outlet_spec};
ghost use Rattle.r10_held.specs.Naming.{AreNamed};
ghost use Rattle.r10_held.specs.Publishing.{LastIsShown};

use crate::rings::Rings;
use crate::sight::Publisher;
use r10_control::Recorder;
use r10_gauge::Pass;
use r10_medium::BlockMedium;
use r10_port::Outlet;
use std::marker::Model;
use std::sync::Wait;

/// A recorder, with the publishing end of the gauge which `N` names, as a lock keeps them. Contracts see the recorder, which gauge
/// it is, and all that was published there.
///
/// By its type it is known, whatever was called: the recorder's lanes are those of the rings which `N` names for their channels.
/// Unless it failed, each has received what erases took, and then what the recorder's own files have of the channel, each sample
/// once and in order; and the numbers that it tells of both are theirs, up to `u64::MAX`. If it failed, the numbers are no more
/// than what was received. While it records, and once something was published, the last triple tells of the file that is recorded.
///
/// The calls of a recorder are on this, each refused as the recorder's.
#[derive(Drop)]
pub struct Held<M: BlockMedium, N: Rings> {
    pub(crate) recorder: Recorder<M, Outlet>,
    pub(crate) gauge: Publisher<N>,
}

impl<M: BlockMedium, N: Rings> Model for Held<M, N> {
    ghost use Rattle.r10_held.specs.LockFact.{LockFact};
    ghost use Rattle.r10_held.specs.State.{HeldState};

    ghost Value = { HeldState M };

    ghost view = { λ h. record { recorder = h.recorder; cell = h.gauge.cell; published = h.gauge.published } };

    ghost invariant = { λ h. LockFact M.disk N.rings h.recorder h.gauge.published };
}

impl<M: BlockMedium, N: Rings> Held<M, N> {
    /// The recorder with this publishing end.
    pub(crate) fn new(recorder: Recorder<M, Outlet>, gauge: Publisher<N>) -> Held<M, N>
        requires lanes { LanesAccounted M.disk N.rings recorder }
        requires last { LastIsShown recorder.kept.work gauge.published }
        ensures { result ≡ record { recorder = recorder; cell = gauge.cell; published = gauge.published } }
    {
        Held { recorder, gauge }
    }

    /// A law: what is known of whatever a lock keeps.
    pub fn look(&self)
        ensures { LockFact M.disk N.rings self.now.recorder self.now.published }
    {
        let _ = &self.recorder;
    }

    /// A law: the gauge is the one that is named.
    pub fn is_named(&self)
        ensures { self.now.cell ≡ N.gauge }
    {
        self.gauge.is_named();
    }

    /// What a pass has seen is a beginning of what was published. This changes nothing.
    pub(crate) fn meet<R: Wait>(&mut self, rt: &R, pass: &mut Pass)
        requires { pass.old.cell ≡ self.old.cell }
        ensures seen { IsPrefix pass.old.seen self.old.published }
        ensures stays { (self.new ≡ self.old) × (pass.new ≡ pass.old) }
    {
        self.gauge.meet(rt, pass);
    }

    /// How often something was published, up to `u64::MAX`, where it stays.
    pub fn commits(&self) -> u64
        ensures { result ≡ commits_of self.now.published }
    {
        self.gauge.commits()
    }
}

/// A law: of a recorder as it is made, over lanes that received nothing, all that is taken is accounted for.
pub fn new_recorders_account_for_their_lanes<M: BlockMedium, N: Rings>()
    ensures { (r : RecorderState M Receiving) → IsNew M.disk outlet_spec outlet_received r → AreNamed N.rings r.lanes
        → LanesAccounted M.disk N.rings r }
{}
