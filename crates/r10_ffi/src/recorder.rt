//! What a caller of another language keeps: a handle, and whether it is open.

ghost use Rattle.std.specs.Prelude.{◌≡◌, is_some};

use crate::handle::Handle;
use crate::held::LentRecorder;
use std::alloc::Global;

/// A recorder, or none where it is not open. A caller keeps it, zero at first, and never reads it.
#[repr(C)]
#[derive(Drop)]
pub struct Recorder {
    pub handle: Handle,
    pub opened: bool,
    ghost leads: { opened ≡ is_some handle.held },
}

impl Recorder {
    ghost use Rattle.std.specs.Prelude.{true, false, None, Some};

    /// Whether it is open.
    pub(crate) fn is_open(&self) -> bool
        ensures { result ≡ self.now.opened }
    {
        self.opened
    }

    /// Takes what it holds, and leaves none.
    #[tactic(auto, using(r10_ends::proofs::There::there))]
    pub(crate) fn take(&mut self, alloc: Global) -> Box<LentRecorder>
        requires { self.old.opened ≡ true }
        ensures taken { self.old.handle.held ≡ Some result.value }
        ensures left { (self.new.handle.held ≡ None) × (self.new.opened ≡ false) }
    {
        self.opened = false;
        self.handle.take(alloc)
    }

    /// Holds this from now on.
    pub(crate) fn put(&mut self, held: Box<LentRecorder>)
        ensures { (self.new.handle.held ≡ Some held.entry.value) × (self.new.opened ≡ true) }
    {
        self.handle.put(held);
        self.opened = true;
    }
}
