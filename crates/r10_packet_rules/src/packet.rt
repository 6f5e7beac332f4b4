//! The packet that stands first in bytes, whoever wrote it.

ghost use Rattle.std.specs.Prelude.{◌≡◌, IfOk, IfErr};
ghost use Rattle.r10_packet.specs.Framing.{framing_fault};
ghost use Rattle.r10_body.specs.Faults.{HasFault};
ghost use Rattle.r10_packet_rules.specs.Tracks.{IsFirst, named};

use crate::foreign_body::is_foreign_body;
use r10_body::{FileFault, is_opaque};
use r10_packet::{DataSum, Packet, PacketFault};

/// A packet that any recorder may have written.
#[derive(Clone, Copy)]
pub struct ForeignPacket {
    /// It is separated from the next one, and passed over unread.
    pub opaque: bool,
    /// How many bytes it has.
    pub length: usize,
}

/// The fault of a file where a packet has this fault of framing.
pub(crate) fn fault_of(fault: PacketFault) -> FileFault
    ensures { result ≡ named fault }
{
    match fault {
        PacketFault::Truncated => FileFault::Truncated,
        PacketFault::Sync => FileFault::Sync,
        PacketFault::HeaderSum => FileFault::HeaderSum,
        PacketFault::Length => FileFault::Length,
    }
}

/// Judges the packet that stands first in these bytes. An opaque packet's data checksum and body
/// are not looked at. It takes no memory.
pub fn read_foreign(bytes: &[u8]) -> Result<ForeignPacket, FileFault>
    ensures found { IfOk result (IsFirst bytes.now) }
    ensures fault { IfErr result (HasFault bytes.now) }
{
    let (view, length) = match Packet::read(bytes) {
        Ok(read) => read,
        Err(fault) => return Err(fault_of(fault)),
    };
    if is_opaque(&view.header, view.body) {
        return Ok(ForeignPacket {
            opaque: true,
            length,
        });
    }
    if view.data_sum != DataSum::Right {
        return Err(FileFault::DataSum);
    }
    if !is_foreign_body(view.header.data_type, view.body) {
        return Err(FileFault::Body);
    }
    Ok(ForeignPacket {
        opaque: false,
        length,
    })
}
