//! Why bytes can't be read.

use thiserror::Error;

/// Bytes weren't read.
#[derive(Clone, Copy, Debug, Drop, Error)]
pub enum ReadFault {
    /// The medium failed in a read.
    #[error("a read of the medium failed")]
    Medium,
    /// The buffer's growth was refused, before any read.
    #[error("out of memory")]
    OutOfMemory,
}
