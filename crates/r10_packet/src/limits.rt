//! How long a packet may be.

/// The most bytes that a packet has, but for another recorder's setup packet.
/// Source: IRIG 106-17 chapter 11.
pub const LONGEST_PACKET: u32 = 524_288;

/// The most bytes that its body, filler and data checksum have together.
pub const LONGEST_BODY: usize = LONGEST_PACKET as usize - 24;
