//! The lock.

ghost use Rattle.std.specs.Prelude.{◌≡◌, ◌↔◌, IsTrue};
ghost use mathlib.Core.List.{IsPrefix};
ghost use Rattle.r10_gauge.specs.Published.{AreNumbered, last_triple, nothing_published};
ghost use Rattle.r10_held.specs.LockFact.{HasNamedLanes};
ghost use Rattle.r10_held.specs.Recorder.{failed};

use crate::gauged::{Ends, Gauged};
use crate::held::Held;
use crate::rings::Rings;
use crate::sight::{Publisher, Sight};
use r10_body::Glance;
use r10_gauge::Pass;
use r10_medium::BlockMedium;
use std::marker::Model;
use std::sync::{Mutex, MutexGuard, Wait};

/// A recorder that threads share, under a lock, and its gauge, at which they look without the lock: the one that `N` names, which
/// is that of whatever the lock keeps. The recorder is nowhere else. Contracts see which gauge it is, and whether the recorder had
/// failed when the cabinet was made. Once threads hold the lock, no contract knows more of what it keeps than its type says.
pub struct Cabinet<M: BlockMedium, N: Rings> {
    lock: Mutex<Held<M, N>>,
    sight: Sight<N>,
    had_failed: bool,
}

/// Letting it go is one call, so that a body that holds one has one exit for it.
impl<M: BlockMedium + Drop, N: Rings> Drop for Cabinet<M, N> {
    fn drop(self) {
        let Cabinet {
            lock: _,
            sight: _,
            had_failed: _,
        } = self;
    }
}

impl<M: BlockMedium, N: Rings> Model for Cabinet<M, N> {
    ghost use Rattle.r10_held.specs.State.{CabinetState};

    ghost Value = { CabinetState };

    ghost view = { λ c. record { gauge = c.sight; had_failed = c.had_failed } };
}

impl<M: BlockMedium, N: Rings> Cabinet<M, N> {
    /// A cabinet round a recorder with its gauge, and the first pass. The recorder's lanes are those of the rings that `N` names,
    /// it alone took from them, and the gauge is the one that `N` names. It takes no memory.
    pub fn new(gauged: Gauged<M>) -> (Cabinet<M, N>, Pass)
        requires named { HasNamedLanes M.disk N.rings N.gauge gauged }
        ensures pass { (result.1.cell ≡ result.0.gauge) × (result.1.seen ≡ nothing_published) }
        ensures made { IsTrue result.0.had_failed ↔ (gauged.recorder.kept.work ≡ failed) }
    {
        let Ends {
            recorder,
            gauge,
            watch,
            pass,
        } = gauged.into_ends();
        let held = Held::new(recorder, Publisher::new(gauge));
        (Cabinet::of_parts(held, Sight::new(watch)), pass)
    }

    /// A cabinet of parts that were one. It takes no memory.
    pub fn of_parts(held: Held<M, N>, sight: Sight<N>) -> Cabinet<M, N>
        ensures gauge { result.gauge ≡ sight }
        ensures made { IsTrue result.had_failed ↔ (held.recorder.kept.work ≡ failed) }
    {
        let had_failed = held.has_failed();
        Cabinet {
            lock: Mutex::new(held),
            sight,
            had_failed,
        }
    }

    /// What the lock keeps, once no thread shares it, and the end at which threads look.
    pub fn into_parts(self) -> (Held<M, N>, Sight<N>)
        ensures { result.1 ≡ self.gauge }
    {
        let Cabinet {
            lock,
            sight,
            had_failed: _,
        } = self;
        (lock.into_inner(), sight)
    }

    /// A law: the gauge is the one that is named.
    pub fn is_named(&self)
        ensures { self.now.gauge ≡ N.gauge }
    {
        self.sight.is_named();
    }

    /// Waits for the lock.
    pub fn hold<R: Wait>(&self, rt: &R) -> MutexGuard<'_, Held<M, N>> {
        self.lock.lock(rt)
    }

    /// The last triple of all that is published at this moment. What the pass had seen is a beginning of that list, and the pass
    /// has now seen all of it. This takes no memory and asks for no lock of the recorder.
    pub fn glance<R: Wait>(&self, rt: &R, pass: &mut Pass) -> Glance
        requires { pass.old.cell ≡ self.now.gauge }
        ensures same { pass.new.cell ≡ pass.old.cell }
        ensures seen { IsPrefix pass.old.seen pass.new.seen }
        ensures last { result ≡ last_triple pass.new.seen }
        ensures numbered { AreNumbered pass.new.seen }
    {
        self.sight.watch.glance(rt, pass)
    }

    /// A pass that has seen the same, for another thread.
    pub fn split(&self, pass: &mut Pass) -> Pass
        requires { pass.old.cell ≡ self.now.gauge }
        ensures stays { pass.new ≡ pass.old }
        ensures other { result ≡ pass.old }
    {
        self.sight.watch.split(pass)
    }
}
