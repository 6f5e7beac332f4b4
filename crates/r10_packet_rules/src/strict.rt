//! Strict packets.

ghost use Rattle.std.specs.Prelude.{◌≡◌, ◌↔◌, ◌≤◌, true, length, IsTrue, IsSomeAnd, IfSome, None};
ghost use Rattle.r10_packet.specs.Framing.{framing_fault, has_data_checksum, header_at, body_at, data_sum_of};
ghost use Rattle.r10_body.specs.Faults.{KeepsFiller, first_packet};
ghost use Rattle.r10_body.specs.Foreign.{IsForeignPacket};
ghost use Rattle.r10_packet_rules.specs.Header.{IsCheckedRight, IsOwnHeader, goes_unchecked as has_no_checksum};
ghost use Rattle.r10_packet_rules.specs.Strict.{FindsPacket};

use crate::body::read_body;
use crate::facts::Facts;
use crate::filler::is_least;
use r10_body::is_opaque;
use r10_packet::{
    DataSum, Header, LONGEST_PACKET, Packet, PacketView, TYPE_EVENT, TYPE_INDEX, TYPE_SETUP,
    TYPE_TIME, TYPE_USER, decode_header,
};

/// What the strict reading of the packet that stands first finds.
#[derive(Clone, Copy)]
pub enum StrictReading {
    /// A packet of this recorder's.
    Strict(Facts),
    /// None of this recorder's. The number is that of the least rule that it breaks: 1 version, flags
    /// and length, 2 filler, 3 body.
    Breaks(u8),
}

/// Whether the version, the flags and the length are ones that this recorder writes.
fn is_own(header: &Header) -> bool
    ensures { IsTrue result ↔ IsOwnHeader header.now }
{
    header.version == 8 && header.flags & 0xEC == 0 && header.packet_len <= LONGEST_PACKET
}

/// Whether packets of this data type have no data checksum: setup, time, event and index packets, and loss reports.
fn goes_unchecked(data_type: u8) -> bool
    ensures { result ≡ has_no_checksum data_type }
{
    data_type == TYPE_SETUP
        || data_type == TYPE_TIME
        || data_type == TYPE_EVENT
        || data_type == TYPE_INDEX
        || data_type == TYPE_USER
}

/// Whether there is no data checksum where this recorder writes none.
fn keeps_checksum(header: &Header) -> bool
    ensures { IsTrue result ↔ IsCheckedRight header.now }
{
    header.flags % 4 == 0 || !goes_unchecked(header.data_type)
}

/// Whether the data checksum is right, and stands after the least filler.
fn is_filled(view: &PacketView<'_>, bytes: &[u8]) -> bool
    requires header { view.now.header ≡ header_at bytes.now }
    requires framed { framing_fault bytes.now ≡ None }
    requires data_sum { view.now.data_sum ≡ data_sum_of (header_at bytes.now) bytes.now }
    ensures { IsTrue result ↔ ((has_data_checksum bytes.now ≡ true) × KeepsFiller bytes.now) }
{
    match view.data_sum {
        DataSum::Right => is_least(&view.header, bytes),
        DataSum::Wrong | DataSum::NoRoom => false,
    }
}

/// The header and the body of the packet that stands first. Its data checksum isn't looked at.
fn parts(bytes: &[u8]) -> Option<(Header, &[u8])>
    ensures whole { framing_fault bytes.now ≡ None
        → IsSomeAnd result (λ x. (x.0 ≡ header_at bytes.now) × (x.1.now ≡ body_at bytes.now)) }
    ensures short { IfSome result (λ x. length x.1.now ≤ x.0.packet_len) }
{
    let Some((front, rest)) = bytes.split_first_chunk::<24>() else {
        return None;
    };
    let Ok(header) = decode_header(front) else {
        return None;
    };
    let length = header.data_len as usize;
    if rest.len() < length {
        return None;
    }
    Some((header, &rest[..length]))
}

/// What the strict reading finds of the packet that stands first and has this header and this body. It is reported whether the
/// data checksum is right, and stands after the least filler.
pub(crate) fn find(header: &Header, body: &[u8], filled: bool, bytes: &[u8]) -> StrictReading
    requires short { length body.now ≤ header.now.packet_len }
    ensures { header.now ≡ header_at bytes.now → body.now ≡ body_at bytes.now → framing_fault bytes.now ≡ None
        → (IsTrue filled ↔ ((has_data_checksum bytes.now ≡ true) × KeepsFiller bytes.now)) → FindsPacket bytes.now result }
{
    if !is_own(header) {
        return StrictReading::Breaks(1);
    }
    if !filled {
        let rule = if is_opaque(header, body) { 3 } else { 2 };
        return StrictReading::Breaks(rule);
    }
    if !keeps_checksum(header) {
        return StrictReading::Breaks(3);
    }
    match read_body(header, body) {
        Some(facts) => StrictReading::Strict(facts),
        None => StrictReading::Breaks(3),
    }
}

/// Reads the packet that stands first in bytes: what it says to the rules of a file, if it is as this
/// recorder writes it, else the least of the first three rules that it breaks. Where the bytes begin
/// with no packet of any recorder's, the number says nothing. It takes no memory.
pub fn read_strict(bytes: &[u8]) -> StrictReading
    ensures { FindsPacket bytes.now result }
{
    match Packet::read(bytes) {
        Ok((view, _)) => {
            let filled = is_filled(&view, bytes);
            find(&view.header, view.body, filled, bytes)
        }
        Err(_) => StrictReading::Breaks(3),
    }
}

/// Reads the packet that stands first in bytes and that any recorder may have written, as `read_strict` does. Where it
/// isn't opaque its data checksum is known to be right, and isn't computed again.
pub fn read_checked(bytes: &[u8]) -> StrictReading
    ensures { IsForeignPacket (first_packet bytes.now) → FindsPacket bytes.now result }
{
    let Some((header, body)) = parts(bytes) else {
        return read_strict(bytes);
    };
    if is_opaque(&header, body) {
        return read_strict(bytes);
    }
    find(&header, body, is_least(&header, bytes), bytes)
}
