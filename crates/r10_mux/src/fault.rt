//! What keeps an entry out of a file.

use r10_builder::Builders;
use r10_medium::MediumFault;
use thiserror::Error;

/// Why a file was not begun.
#[derive(Debug, Drop, Error)]
pub enum BeginFault {
    /// There is no memory for it. The builders come back, and nothing has changed.
    #[error("out of memory")]
    Memory(Builders),
    /// The medium failed.
    #[error("{0}")]
    Medium(MediumFault),
}

/// Why a sample or an event was not taken in.
#[derive(Clone, Copy, Debug, Error)]
pub enum TakeFault {
    /// There is no memory for it, and the file is as it was.
    #[error("out of memory")]
    Memory,
    /// The medium failed. The file can't go on.
    #[error("{0}")]
    Medium(MediumFault),
}

/// What an entry has no room in.
#[derive(Clone, Copy, Debug)]
pub enum Full {
    /// The file's part of the medium: the file with the entry would cost more.
    Medium,
}
