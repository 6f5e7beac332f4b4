//! The receiving end of a lane, as a caller of another language keeps it: a handle, and whether it is open.

ghost use Rattle.std.specs.Prelude.{◌≡◌, false, is_some, true, None};

use crate::carrier::Carrier;
use crate::outlet_handle::OutletHandle;
use std::alloc::Global;

/// The receiving end of a lane, or none where it is not open. A caller keeps it, zero at first, and never reads it.
#[repr(C)]
#[derive(Drop)]
pub struct OutletEnd {
    pub handle: OutletHandle,
    pub opened: bool,
    ghost leads: { opened ≡ is_some handle.held },
}

impl OutletEnd {
    ghost use Rattle.std.specs.Prelude.{true, false, None, Some};

    /// Whether it is open.
    pub fn is_open(&self) -> bool
        ensures { result ≡ self.now.opened }
    {
        self.opened
    }

    /// Takes what it holds, and leaves none.
    #[tactic(auto, using(crate::proofs::There::there))]
    pub fn take(&mut self, alloc: Global) -> Box<Carrier>
        requires { self.old.opened ≡ true }
        ensures taken { self.old.handle.held ≡ Some result.value }
        ensures left { (self.new.handle.held ≡ None) × (self.new.opened ≡ false) }
    {
        self.opened = false;
        self.handle.take(alloc)
    }

    /// Holds this from now on.
    pub fn put(&mut self, held: Box<Carrier>)
        ensures { (self.new.handle.held ≡ Some held.value) × (self.new.opened ≡ true) }
    {
        self.handle.put(held);
        self.opened = true;
    }
}

impl OutletEnd {
    /// Closes it: its memory is given back, with what was not carried. A closed one stays closed.
    pub fn close(&mut self, alloc: Global)
        ensures closes { self.new.opened ≡ false }
        ensures gone { self.old.opened ≡ true → self.new.handle.held ≡ None }
        ensures closed { self.old.opened ≡ false → self.new ≡ self.old }
    {
        if !self.is_open() {
            return;
        }
        let _carrier = self.take(alloc);
    }
}
