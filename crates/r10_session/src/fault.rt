//! Why a session gives up.

use r10_body::Refusal;
use std::alloc::AllocError;
use thiserror::Error;

/// Why a session gives up.
#[derive(Debug, Drop, Error)]
pub enum SessionFault {
    /// A growth was refused.
    #[error("out of memory")]
    Memory(#[from(alloc)] AllocError),
    /// The medium could not be formatted, or the recorder failed.
    #[error("the recorder gave up: {0}")]
    Refused(Refusal),
}

impl SessionFault {
    /// The fault of a call that was refused.
    pub(crate) fn of(refusal: Refusal) -> SessionFault {
        match refusal {
            Refusal::OutOfMemory => SessionFault::Memory(AllocError),
            other => SessionFault::Refused(other),
        }
    }
}
