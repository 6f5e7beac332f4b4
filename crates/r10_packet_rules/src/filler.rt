//! Filler.

ghost use Rattle.std.specs.Prelude.{◌≡◌, ◌↔◌, ◌+◌, ◌-◌, ◌≤◌, true, IfSome, IfNone, IsTrue, None, length, slice_range};
ghost use Rattle.r10_packet.specs.Framing.{framing_fault, has_data_checksum, header_at};
ghost use Rattle.r10_body.specs.Faults.{KeepsFiller};

use r10_packet::{Check, Header};

/// What stands between the body and the data checksum, which has so many bytes; `None` where there is no room for both.
fn filler<'a>(header: &Header, width: usize, bytes: &'a [u8]) -> Option<&'a [u8]>
    requires { width ≤ 4 }
    ensures some { IfSome result
        (λ filler. filler.now ≡ slice_range bytes.now (24 + header.now.data_len) (header.now.packet_len - width)) }
    ensures none { IfNone result
        (24 + header.now.data_len + width ≤ header.now.packet_len → header.now.packet_len ≤ length bytes.now → ⊥) }
{
    let size = header.packet_len as usize;
    let start = 24 + header.data_len as usize;
    if bytes.len() < size {
        return None;
    }
    if size < start + width {
        return None;
    }
    Some(&bytes[start..size - width])
}

/// Whether nothing but the least filler of zeros stands between the body and the data checksum of the
/// packet that stands first, if it has this header, no fault of framing and the right data checksum.
pub(crate) fn is_least(header: &Header, bytes: &[u8]) -> bool
    ensures { header.now ≡ header_at bytes.now → framing_fault bytes.now ≡ None → has_data_checksum bytes.now ≡ true
        → (IsTrue result ↔ KeepsFiller bytes.now) }
{
    let width = Check::of_flags(header.flags).width();
    let least = (4 - (header.data_len as usize + width) % 4) % 4;
    match filler(header, width, bytes) {
        Some(filler) => filler == &[0, 0, 0][..least],
        None => false,
    }
}
