//! What a caller of another language holds of a recorder.

ghost use Rattle.std.specs.Prelude.{◌≡◌, Option, Some, None};
ghost use Rattle.r10_ffi.specs.declared.held.LentRecorder.{LentRecorder};
ghost use Rattle.r10_ends.specs.Owning.{IsThere};

use crate::held::LentRecorder;
use r10_ends::Loose;
use std::alloc::Global;
use std::marker::Model;

/// A recorder, or none: a pointer that the caller keeps, and never reads. Only a call of this library makes one that is a recorder.
#[repr(C)]
#[derive(Drop)]
pub struct Handle {
    at: *mut u8,
    alloc: Global,
    ghost held: { Option LentRecorder },
}

impl Model for Handle {
    ghost use Rattle.std.specs.Box.Ownership.{box_owns};
    ghost use Rattle.std.specs.contracts.impls.GlobalAllocator.TheImpl.{ghosts};
    ghost use Rattle.r10_ffi.specs.contracts.held.LentRecorder.{the_row};
    ghost use Rattle.r10_ends.specs.Owning.{owns_some};

    ghost also_owns = { λ h. owns_some (box_owns (ghosts.dealloc_token h.alloc) the_row h.at) h.held };
}

impl Handle {
    /// Takes what it holds, and leaves none.
    pub(crate) fn take(&mut self, alloc: Global) -> Box<LentRecorder>
        requires { IsThere self.old.held }
        ensures taken { self.old.held ≡ Some result.value }
        ensures left { self.new.held ≡ None }
    {
        std::mem::replace(self, Handle::none(alloc))
            .into_loose()
            .into_box()
    }

    /// Holds this from now on.
    pub(crate) fn put(&mut self, held: Box<LentRecorder>)
        ensures { self.new.held ≡ Some held.entry.value }
    {
        *self = Handle::from_loose(Loose::of(held));
    }

    // The pointer and the right to it, from a loose box into a handle.
    fn from_loose(loose: Loose<LentRecorder, Global>) -> Handle
        ensures { result.held ≡ Some loose.entry.value }
    {
        let Loose { at, alloc } = loose;
        Handle {
            at: at as *mut u8,
            alloc,
        }
    }

    // The same, back.
    fn into_loose(self) -> Loose<LentRecorder, Global>
        requires { IsThere self.held }
        ensures { self.held ≡ Some result.value }
    {
        let Handle { at, alloc } = self;
        Loose {
            at: at as *mut LentRecorder,
            alloc,
        }
    }

    // One that is no recorder.
    fn none(alloc: Global) -> Handle
        ensures { result.held ≡ None }
    {
        Handle {
            at: std::ptr::null_mut(),
            alloc,
        }
    }
}
