//! What a builder hands out.

use r10_body::Gap;
use r10_packet::Header;

/// Why a packet was closed.
#[derive(Clone, Copy, Debug)]
pub enum Reason {
    /// Messages were lost before the next one.
    Gap,
    /// The next word of the ARINC bus came more than a tenth of a second after the last one.
    BusGap,
    /// The packet's first message is more than a tenth of a second old.
    Age,
    /// The packet has as many messages as it may have.
    Number,
    /// The packet with the next message would be longer than it may be.
    Size,
    /// It was asked for.
    Flush,
}

/// A packet that is complete but for its sequence number.
#[derive(Drop)]
pub struct Closed {
    /// The packet's header. Its sequence number is 0.
    pub header: Header,
    /// The channel specific data word, and the messages.
    pub body: Vec<u8>,
    /// How many messages the packet has.
    pub entries: usize,
    /// What was lost before the first of them.
    pub gap: Gap,
    pub reason: Reason,
}
