//! A medium that stays the one that it is.

ghost use Rattle.std.specs.Prelude.{◌≡◌, ◌<◌, Option, None, Some, length, slice_set, OnOk};
ghost use Rattle.r10_medium.specs.Disk.{block_at, Counts, IsSynced, Unchanged, Wrote};
ghost use Rattle.r10_region.specs.Identity.{Identity};

use r10_medium::{BlockMedium, MediumFault};
use std::marker::{Brand, Model, PhantomData};

/// A medium of which each call leaves which one it is.
pub trait SteadyMedium: BlockMedium {
    /// Which one it is, whatever it holds.
    ghost identity: { Self → Identity };

    /// Reads a block, as `read` does.
    fn steady_read(&mut self, n: usize, block: &mut [u8; 512]) -> Result<(), MediumFault>
        requires { n < length (Self.disk self.old).blocks }
        ensures read { OnOk result (block.new ≡ block_at (Self.disk self.old).blocks n) }
        ensures same { Unchanged (Self.disk self.old) (Self.disk self.new) }
        ensures counts { Counts (Self.disk self.old) (Self.disk self.new) result }
        ensures stays { identity self.new ≡ identity self.old };

    /// Writes a block, as `write` does.
    fn steady_write(&mut self, n: usize, block: &[u8; 512]) -> Result<(), MediumFault>
        requires { n < length (Self.disk self.old).blocks }
        ensures written { OnOk result ((Self.disk self.new).blocks ≡ slice_set (Self.disk self.old).blocks n block.now) }
        ensures wrote { Wrote n block.now (Self.disk self.old) (Self.disk self.new) }
        ensures counts { Counts (Self.disk self.old) (Self.disk self.new) result }
        ensures stays { identity self.new ≡ identity self.old };

    /// Syncs, as `sync` does.
    fn steady_sync(&mut self) -> Result<(), MediumFault>
        ensures durable { OnOk result (IsSynced (Self.disk self.new)) }
        ensures same { Unchanged (Self.disk self.old) (Self.disk self.new) }
        ensures counts { Counts (Self.disk self.old) (Self.disk self.new) result }
        ensures stays { identity self.new ≡ identity self.old };
}

/// What looks at a medium, and leaves what it reads and which one it is.
pub trait Onlooker<M: SteadyMedium> {
    /// It may look at this one.
    ghost may_look: { Self → M → Type 0 };

    /// What it is after a look at a medium, and what that is.
    ghost looks: { Self → M → Self → M → Type 0 };

    /// Looks at it.
    fn look(&mut self, medium: &mut M)
        requires { may_look self.old medium.old }
        ensures looks { looks self.old medium.old self.new medium.new }
        ensures reads { (M.disk medium.new).blocks ≡ (M.disk medium.old).blocks }
        ensures stays { M.identity medium.new ≡ M.identity medium.old };
}

/// Names a medium. Each call of a function over any such name picks it.
pub trait NamesMedium {
    ghost medium: { Option Identity };
}

impl NamesMedium for Brand {
    ghost medium = { None };
}

/// A medium that is the one which `N` names. Contracts see the medium.
///
/// A function over any medium has no clause that its medium stays the same one. Over this type it cannot be another one.
#[derive(Drop)]
pub struct Bound<M: SteadyMedium, N: NamesMedium> {
    medium: M,
    of: PhantomData<N>,
}

impl<M: SteadyMedium, N: NamesMedium> Model for Bound<M, N> {
    ghost Value = { M };

    ghost view = { λ b. b.medium };

    ghost invariant = { λ b. Some (M.identity b.medium) ≡ N.medium };
}

impl<M: SteadyMedium, N: NamesMedium> Bound<M, N> {
    /// The medium that is named.
    pub fn new(medium: M) -> Bound<M, N>
        requires { Some (M.identity medium) ≡ N.medium }
        ensures { result ≡ medium }
    {
        Bound {
            medium,
            of: PhantomData,
        }
    }

    /// The medium, which is the one that is named.
    pub fn into_medium(self) -> M
        ensures same { result ≡ self }
        ensures named { Some (M.identity result) ≡ N.medium }
    {
        let Bound { medium, of: _ } = self;
        medium
    }
}

impl<M: SteadyMedium, N: NamesMedium> BlockMedium for Bound<M, N> {
    ghost disk = { λ m. M.disk m };

    fn blocks(&self) -> usize {
        self.medium.blocks()
    }

    fn read(&mut self, n: usize, block: &mut [u8; 512]) -> Result<(), MediumFault> {
        self.medium.steady_read(n, block)
    }

    fn write(&mut self, n: usize, block: &[u8; 512]) -> Result<(), MediumFault> {
        self.medium.steady_write(n, block)
    }

    fn sync(&mut self) -> Result<(), MediumFault> {
        self.medium.steady_sync()
    }

    fn failures(&self) -> u64 {
        self.medium.failures()
    }
}
