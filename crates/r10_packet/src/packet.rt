//! Whole packets.

ghost use Rattle.std.specs.Prelude.{◌≡◌, ◌+◌, ◌/◌, ◌≤◌, ◌++◌, ◌↔◌, Some, None, length, drop, IfOk, OnOk, IfErr, IsTrue};
ghost use Rattle.r10_packet.specs.Sums.{data_checksum};
ghost use Rattle.r10_packet.specs.Header.{check_bits_of, checksum_bits};
ghost use Rattle.r10_packet.specs.Limits.{longest_body};
ghost use Rattle.r10_packet.specs.Packet.{framed, framed_bytes, IsPacket};
ghost use Rattle.r10_packet.specs.Framing.{has_lengths, framing_fault, header_at, body_at, data_sum_of, has_data_checksum};

use crate::check::Check;
use crate::fault::PacketFault;
use crate::header::{Header, encode_header, read_header};
use crate::sums::{sum8, sum16, sum32};
use crate::view::{DataSum, PacketView};
use std::alloc::{AllocError, Global};

/// Frames bodies, and reads packets.
pub struct Packet;

impl Packet {
    /// The packet of a body. Its lengths are those of the body, and not the header's; its data
    /// checksum is the one that the header's flags tell. No secondary header is added: where bit 7 of
    /// the flags tells one, it is the first bytes of `body`, which stand right after the header.
    pub fn frame(alloc: Global, header: &Header, body: &[u8]) -> Result<Vec<u8>, AllocError>
        requires short { length body.now + checksum_bits header.now.flags / 8 ≤ longest_body }
        ensures bytes { IfOk result (λ v. v.items ≡ framed_bytes header.now body.now) }
        ensures sentence { IfOk result (λ v. IsPacket v.items (framed header.now body.now) body.now) }
        ensures lengths { IsTrue (has_lengths (framed header.now body.now)) }
    {
        let check = Check::of_flags(header.flags);
        let size = (body.len() + check.width() + 27) / 4 * 4;
        let header = Header {
            packet_len: size as u32,
            data_len: body.len() as u32,
            ..*header
        };
        let mut out = Vec::with_capacity(alloc, size)?;
        out.extend_from_slice(&encode_header(&header))?;
        out.extend_from_slice(body)?;
        out.resize(size - check.width(), 0)?;
        push_checksum(&mut out, check)?;
        Ok(out)
    }

    /// The packet that stands first in bytes, and how many bytes it has.
    pub fn read(bytes: &[u8]) -> Result<(PacketView<'_>, usize), PacketFault>
        ensures sound { IfOk result (λ r. framing_fault bytes.now ≡ None) }
        ensures header { IfOk result (λ r. r.0.header ≡ header_at bytes.now) }
        ensures body { IfOk result (λ r. r.0.body.now ≡ body_at bytes.now) }
        ensures data_sum { IfOk result (λ r. r.0.data_sum ≡ data_sum_of (header_at bytes.now) bytes.now) }
        ensures right { IfOk result (λ r. (r.0.data_sum ≡ DataSum.Right) ↔ IsTrue (has_data_checksum bytes.now)) }
        ensures size { IfOk result (λ r. (r.1 ≡ (header_at bytes.now).packet_len) × (r.1 ≤ length bytes.now)) }
        ensures fault { IfErr result (λ f. framing_fault bytes.now ≡ Some f) }
    {
        if bytes.len() < 24 {
            return Err(PacketFault::Truncated);
        }
        let header = read_header(bytes)?;
        let size = header.packet_len as usize;
        if bytes.len() < size {
            return Err(PacketFault::Truncated);
        }
        let view = PacketView {
            header,
            body: &bytes[24..24 + header.data_len as usize],
            data_sum: data_sum(&header, bytes),
        };
        Ok((view, size))
    }
}

/// Adds the data checksum of all bytes after the header.
fn push_checksum(out: &mut Vec<u8>, check: Check) -> Result<(), AllocError>
    requires { 24 ≤ length out.old.items }
    ensures { OnOk result (out.new.items ≡ out.old.items ++ data_checksum (check_bits_of check) (drop 24 out.old.items)) }
{
    match check {
        Check::Nothing => {}
        Check::Sum8 => {
            let sum = sum8(&out[24..]);
            out.extend_from_slice(&sum.to_le_bytes())?;
        }
        Check::Sum16 => {
            let sum = sum16(&out[24..]);
            out.extend_from_slice(&sum.to_le_bytes())?;
        }
        Check::Sum32 => {
            let sum = sum32(&out[24..]);
            out.extend_from_slice(&sum.to_le_bytes())?;
        }
    }
    Ok(())
}

/// How the data checksum is, of the packet with this header that stands first in bytes.
fn data_sum(header: &Header, bytes: &[u8]) -> DataSum
    requires least { 24 ≤ header.now.packet_len }
    requires whole { header.now.packet_len ≤ length bytes.now }
    ensures { result ≡ data_sum_of header.now bytes.now }
{
    let check = Check::of_flags(header.flags);
    let size = header.packet_len as usize;
    let start = size - check.width();
    if start < 24 + header.data_len as usize {
        return DataSum::NoRoom;
    }
    let sum = &bytes[start..size];
    let covered = &bytes[24..start];
    let is_right = match check {
        Check::Nothing => sum.is_empty(),
        Check::Sum8 => sum == sum8(covered).to_le_bytes().as_slice(),
        Check::Sum16 => sum == sum16(covered).to_le_bytes().as_slice(),
        Check::Sum32 => sum == sum32(covered).to_le_bytes().as_slice(),
    };
    if is_right {
        DataSum::Right
    } else {
        DataSum::Wrong
    }
}
