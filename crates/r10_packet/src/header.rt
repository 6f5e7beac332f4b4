//! The primary header.

ghost use Rattle.std.specs.Prelude.{◌≡◌, ◌<◌, ◌≤◌, ◌^◌, Some, None, Ok, IfOk, IfErr, IsTrue, length};
ghost use Rattle.r10_count.specs.Bytes.{le_bytes};
ghost use Rattle.r10_packet.specs.Header.{FitsHeader, header_bytes};
ghost use Rattle.r10_packet.specs.Framing.{header_at, has_lengths as lengths_hold, header_fault};

use crate::fault::PacketFault;
use crate::limits::LONGEST_PACKET;
use crate::sums::sum16;
use crate::types::TYPE_SETUP;
use r10_count::Count;

/// A packet's primary header, without its sync pattern and its checksum.
///
/// Source: IRIG 106-17 chapter 11.
#[derive(Clone, Copy, Debug, PartialEq, Eq)]
pub struct Header {
    /// The channel ID.
    pub channel: u16,
    /// The length of the whole packet in bytes.
    pub packet_len: u32,
    /// The length of the body in bytes, without filler and data checksum.
    pub data_len: u32,
    /// The data type version.
    pub version: u8,
    /// The sequence number on the channel.
    pub sequence: u8,
    /// The packet flags; the two low bits tell the data checksum.
    pub flags: u8,
    pub data_type: u8,
    /// The relative time counter of the packet's first data.
    pub counter: Count,
}

impl Header {
    /// Whether a packet may have these lengths.
    fn has_lengths(&self) -> bool
        ensures { result ≡ lengths_hold self.now }
    {
        24 <= self.packet_len
            && self.packet_len % 4 == 0
            && (self.packet_len <= LONGEST_PACKET || self.data_type == TYPE_SETUP)
            && self.data_len <= self.packet_len - 24
    }
}

/// The bytes of a number; for the proof, that it has 32 bits.
fn four_bytes(number: u32) -> [u8; 4]
    ensures bytes { result ≡ le_bytes 4 number }
    ensures range { number < 2 ^ 32 }
{
    number.to_le_bytes()
}

/// The 24 bytes of a header.
#[tactic(auto, unfolding(crate::specs::Header::header_bytes))]
pub fn encode_header(header: &Header) -> [u8; 24]
    ensures bytes { result ≡ header_bytes header.now }
    // What the types of the fields say.
    ensures fits { FitsHeader header.now }
{
    let [c0, c1] = header.channel.to_le_bytes();
    let [p0, p1, p2, p3] = four_bytes(header.packet_len);
    let [d0, d1, d2, d3] = four_bytes(header.data_len);
    let [t0, t1, t2, t3, t4, t5, _, _] = header.counter.get().to_le_bytes();
    let [version] = header.version.to_le_bytes();
    let [sequence] = header.sequence.to_le_bytes();
    let [flags] = header.flags.to_le_bytes();
    let [data_type] = header.data_type.to_le_bytes();
    let fields = [
        0x25, 0xEB, c0, c1, p0, p1, p2, p3, d0, d1, d2, d3, version, sequence, flags, data_type,
        t0, t1, t2, t3, t4, t5,
    ];
    let [s0, s1] = sum16(&fields).to_le_bytes();
    [
        0x25, 0xEB, c0, c1, p0, p1, p2, p3, d0, d1, d2, d3, version, sequence, flags, data_type,
        t0, t1, t2, t3, t4, t5, s0, s1,
    ]
}

/// The header that these bytes are, or its first fault.
pub fn decode_header(bytes: &[u8; 24]) -> Result<Header, PacketFault>
    // What is read is spelled so.
    ensures found { IfOk result (λ h. FitsHeader h × IsTrue (lengths_hold h) × (bytes.now ≡ header_bytes h)) }
    // What is spelled so is read.
    ensures only { (h : Header) → FitsHeader h → IsTrue (lengths_hold h) → bytes.now ≡ header_bytes h → result ≡ Ok h }
    ensures fault { IfErr result (λ f. header_fault bytes.now ≡ Some f) }
{
    read_header(bytes)
}

/// The header at the front of bytes, or its first fault.
pub(crate) fn read_header(bytes: &[u8]) -> Result<Header, PacketFault>
    requires { 24 ≤ length bytes.now }
    ensures ok { IfOk result (λ h. (h ≡ header_at bytes.now) × (header_fault bytes.now ≡ None)) }
    ensures fault { IfErr result (λ f. header_fault bytes.now ≡ Some f) }
{
    if u16::from_le_bytes([bytes[0], bytes[1]]) != 0xEB25 {
        return Err(PacketFault::Sync);
    }
    if u16::from_le_bytes([bytes[22], bytes[23]]) != sum16(&bytes[..22]) {
        return Err(PacketFault::HeaderSum);
    }
    let header = fields(bytes);
    if header.has_lengths() {
        Ok(header)
    } else {
        Err(PacketFault::Length)
    }
}

/// What stands where a header has its fields.
fn fields(bytes: &[u8]) -> Header
    requires { 24 ≤ length bytes.now }
    ensures { result ≡ header_at bytes.now }
{
    let time = u64::from_le_bytes([
        bytes[16], bytes[17], bytes[18], bytes[19], bytes[20], bytes[21], bytes[22], bytes[23],
    ]);
    Header {
        channel: u16::from_le_bytes([bytes[2], bytes[3]]),
        packet_len: u32::from_le_bytes([bytes[4], bytes[5], bytes[6], bytes[7]]),
        data_len: u32::from_le_bytes([bytes[8], bytes[9], bytes[10], bytes[11]]),
        version: bytes[12],
        sequence: bytes[13],
        flags: bytes[14],
        data_type: bytes[15],
        counter: Count::of(time % 281_474_976_710_656).unwrap(),
    }
}
