//! A pointer to an end of a lane, which a caller of another language keeps.

ghost use Rattle.std.specs.Prelude.{◌≡◌, Option, Some, None};
ghost use Rattle.r10_port.specs.Ends.{Sending};
ghost use Rattle.r10_ends.specs.Owning.{IsThere};

use crate::loose::Loose;
use crate::sender::PortSender;
use std::alloc::Global;
use std::marker::Model;

/// An end of a lane, or none: a pointer that the caller keeps, and never reads. Only a call of this library makes one that is an
/// end.
#[repr(C)]
#[derive(Drop)]
pub struct PortHandle {
    at: *mut u8,
    alloc: Global,
    ghost held: { Option Sending },
}

impl Model for PortHandle {
    ghost use Rattle.std.specs.Box.Ownership.{box_owns};
    ghost use Rattle.std.specs.contracts.impls.GlobalAllocator.TheImpl.{ghosts};
    ghost use Rattle.r10_ends.specs.contracts.sender.PortSender.{the_row};
    ghost use Rattle.r10_ends.specs.Owning.{owns_some};

    ghost also_owns = { λ h. owns_some (box_owns (ghosts.dealloc_token h.alloc) the_row h.at) h.held };
}

impl PortHandle {
    /// Takes what it holds, and leaves none.
    pub(crate) fn take(&mut self, alloc: Global) -> Box<PortSender>
        requires { IsThere self.old.held }
        ensures taken { self.old.held ≡ Some result.value }
        ensures left { self.new.held ≡ None }
    {
        std::mem::replace(self, PortHandle::none(alloc))
            .into_loose()
            .into_box()
    }

    /// Holds this from now on.
    pub(crate) fn put(&mut self, held: Box<PortSender>)
        ensures { self.new.held ≡ Some held.value }
    {
        *self = PortHandle::from_loose(Loose::of(held));
    }

    // The pointer and the right to it, from a loose box into a handle.
    fn from_loose(loose: Loose<PortSender, Global>) -> PortHandle
        ensures { result.held ≡ Some loose.value }
    {
        let Loose { at, alloc } = loose;
        PortHandle {
            at: at as *mut u8,
            alloc,
        }
    }

    // The same, back.
    fn into_loose(self) -> Loose<PortSender, Global>
        requires { IsThere self.held }
        ensures { self.held ≡ Some result.value }
    {
        let PortHandle { at, alloc } = self;
        Loose {
            at: at as *mut PortSender,
            alloc,
        }
    }

    // One that is no end.
    fn none(alloc: Global) -> PortHandle
        ensures { result.held ≡ None }
    {
        PortHandle {
            at: std::ptr::null_mut(),
            alloc,
        }
    }
}
