//! The packet that stands first in bytes, whoever wrote it, with what its strict reading finds.

ghost use Rattle.std.specs.Prelude.{◌≡◌, ◌≤◌, true, take, length, None, IfOk, IfErr, IfSome, IfNone};
ghost use Rattle.r10_packet.specs.Framing.{framing_fault, has_data_checksum, header_at, body_at};
ghost use Rattle.r10_body.specs.Faults.{HasFault};
ghost use Rattle.r10_body.specs.Foreign.{IsForeignBody};
ghost use Rattle.r10_packet_rules.specs.Strict.{FindsPacket};
ghost use Rattle.r10_packet_rules.specs.Tracks.{IsFirst};

use crate::filler::is_least;
use crate::foreign_body::is_foreign_body;
use crate::packet::{ForeignPacket, fault_of};
use crate::strict::{StrictReading, find, read_strict};
use r10_body::{FileFault, is_opaque};
use r10_packet::{DataSum, Header, Packet};

/// A packet that any recorder may have written.
#[derive(Clone, Copy)]
pub struct AnyPacket {
    pub packet: ForeignPacket,
    /// What its strict reading finds.
    pub reading: StrictReading,
}

/// What the strict reading finds of the packet that stands first and has this header, this body and the right data
/// checksum; `None` where its body is no recorder's. A body of this recorder's isn't read a second time.
fn find_any(header: &Header, body: &[u8], bytes: &[u8]) -> Option<StrictReading>
    requires { length body.now ≤ header.now.packet_len }
    ensures found { header.now ≡ header_at bytes.now → body.now ≡ body_at bytes.now → framing_fault bytes.now ≡ None
        → has_data_checksum bytes.now ≡ true → IfSome result (FindsPacket bytes.now) }
    ensures foreign { header.now ≡ header_at bytes.now → body.now ≡ body_at bytes.now → framing_fault bytes.now ≡ None
        → has_data_checksum bytes.now ≡ true → IfSome result (λ _. IsForeignBody header.now.data_type body.now) }
    ensures none { IfNone result (IsForeignBody header.now.data_type body.now → ⊥) }
{
    match find(header, body, is_least(header, bytes), bytes) {
        StrictReading::Strict(facts) => Some(StrictReading::Strict(facts)),
        StrictReading::Breaks(rule) => {
            if !is_foreign_body(header.data_type, body) {
                return None;
            }
            Some(StrictReading::Breaks(rule))
        }
    }
}

/// Judges the packet that stands first in these bytes as `read_foreign` does, and reads it as `read_strict` does, each
/// of this recorder's bodies once. It takes no memory.
pub fn read_any(bytes: &[u8]) -> Result<AnyPacket, FileFault>
    ensures found { IfOk result (λ any. IsFirst bytes.now any.packet) }
    ensures reading { IfOk result (λ any. FindsPacket (take any.packet.length bytes.now) any.reading) }
    ensures fault { IfErr result (HasFault bytes.now) }
{
    let (view, length) = match Packet::read(bytes) {
        Ok(read) => read,
        Err(fault) => return Err(fault_of(fault)),
    };
    let whole = &bytes[..length];
    let opaque = is_opaque(&view.header, view.body);
    let packet = ForeignPacket { opaque, length };
    if opaque {
        let reading = read_strict(whole);
        return Ok(AnyPacket { packet, reading });
    }
    if view.data_sum != DataSum::Right {
        return Err(FileFault::DataSum);
    }
    match find_any(&view.header, view.body, whole) {
        Some(reading) => Ok(AnyPacket { packet, reading }),
        None => Err(FileFault::Body),
    }
}
