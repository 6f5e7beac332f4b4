//! What keeps a file from beginning.

use r10_builder::Builders;
use r10_medium::MediumFault;
use thiserror::Error;

/// Why no file was begun.
#[derive(Debug, Drop, Error)]
pub enum BeginFault {
    /// The medium has no room for the setup text and a time. The builders come back, and nothing has changed.
    #[error("the medium has no room for the setup text and a time")]
    Full(Builders),
    /// There is no memory for it. The builders come back, and nothing has changed.
    #[error("out of memory")]
    Memory(Builders),
    /// The medium failed.
    #[error("{0}")]
    Medium(MediumFault),
}
