//! Why a file isn't read.

ghost use Rattle.std.specs.Prelude.{◌≡◌};
ghost use Rattle.r10_blockout.specs.declared.fault.ReadFault.TheVariants as read_faults;
ghost use Rattle.r10_cursor.specs.declared.fault.ReplayFault.TheVariants as replay_faults;
ghost use Rattle.r10_cursor.specs.Refusals.{of_read, of_replay};

use crate::ReplayFault;
use r10_blockout::ReadFault;
use r10_body::FileFault;
use r10_packet_rules::FirstFault;
use thiserror::Error;

/// A file wasn't read.
#[derive(Clone, Copy, Debug, Drop, Error)]
pub enum ReadRefusal {
    /// No file has this number.
    #[error("no file has this number")]
    NoSuchFile,
    /// The file isn't strict, or its closing isn't that of its directory entry: the packet at this offset is at fault, the
    /// first one that is.
    #[error("{0}")]
    BadFile(FirstFault),
    /// The medium failed in a read.
    #[error("a read of the medium failed")]
    Medium,
    /// A growth was refused, or the medium has more than 2^62 bytes of the file.
    #[error("out of memory")]
    OutOfMemory,
}

/// Why a file wasn't judged.
pub(crate) fn of_judging(fault: ReadFault) -> ReadRefusal
    ensures { result ≡ of_read fault }
{
    match fault {
        ReadFault::Medium => ReadRefusal::Medium,
        ReadFault::OutOfMemory => ReadRefusal::OutOfMemory,
    }
}

/// Why packets weren't read.
pub(crate) fn of_reading(fault: ReplayFault) -> ReadRefusal
    ensures { result ≡ of_replay fault }
{
    match fault {
        ReplayFault::Medium => ReadRefusal::Medium,
        ReplayFault::OutOfMemory => ReadRefusal::OutOfMemory,
        ReplayFault::NoPacket => ReadRefusal::BadFile(FirstFault {
            offset: 0,
            fault: FileFault::Truncated,
        }),
    }
}
