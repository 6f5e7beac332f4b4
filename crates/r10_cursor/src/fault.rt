//! Why entries can't be read.

use thiserror::Error;

/// Entries weren't read.
#[derive(Clone, Copy, Debug, Drop, Error)]
pub enum ReplayFault {
    /// The medium failed in a read.
    #[error("a read of the medium failed")]
    Medium,
    /// The growth of a buffer or of an answer was refused.
    #[error("out of memory")]
    OutOfMemory,
    /// No packet of this recorder's stands where one is named.
    #[error("no packet of this recorder's stands where one is named")]
    NoPacket,
}
