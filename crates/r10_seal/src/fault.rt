//! Why a file isn't closed.

use r10_packet_rules::FirstFault;
use thiserror::Error;

/// Why a last file that was left open isn't closed.
#[derive(Clone, Copy, Debug, Drop, Error)]
pub enum SealFault {
    /// It is not strict: the first fault of its bytes.
    #[error("{0}")]
    BadFile(FirstFault),
    /// It costs more than there is of the medium after its first block.
    #[error("the closed file has no room on the medium")]
    MediumFull,
    /// A call of the medium failed.
    #[error("a call of the medium failed")]
    Medium,
    /// Memory was refused.
    #[error("out of memory")]
    OutOfMemory,
}
