//! Why a command can't go on with its input or its output.

use std::alloc::AllocError;
use std::io;
use thiserror::Error;

/// Why a command can't go on with its input or its output.
#[derive(Debug, Drop, Error)]
pub enum StreamFault {
    /// A growth was refused.
    #[error("out of memory")]
    Memory(#[from(alloc)] AllocError),
    /// The reader failed.
    #[error("cannot read: {0}")]
    Read(io::Error),
    /// The reader was called so often, as often as a command may, and had not ended.
    #[error("cannot read: the input does not end")]
    Endless { calls: u64 },
    /// The writer failed.
    #[error("cannot write: {0}")]
    Write(io::Error),
}
