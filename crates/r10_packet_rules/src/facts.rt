//! What a packet says to the rules of a file.

use r10_count::{Civil, Count};
use r10_indexbody::LossBody;

/// What a packet carries, as far as the rules of a file ask.
#[derive(Clone, Copy)]
pub enum PacketKind {
    Setup,
    Time {
        /// The civil time of the packet's counter.
        civil: Civil,
    },
    Event {
        number: u16,
        /// How many events of this number came before it, modulo 65,536.
        occurrence: u16,
    },
    /// Messages of a channel.
    Data,
    /// An index packet that names packets.
    Node,
    /// An index packet that names nodes.
    Root,
    /// How many messages were lost before the packet after it.
    Report {
        loss: LossBody,
    },
}

/// The counts of a packet's entries, of which there is one at least.
#[derive(Clone, Copy)]
pub struct Spread {
    pub first: Count,
    pub last: Count,
    pub greatest: Count,
    /// No count is below the one before it.
    pub rise: bool,
}

/// What a packet of this recorder says to the rules of a file.
#[derive(Clone, Copy)]
pub struct Facts {
    /// The channel ID.
    pub channel: u16,
    /// The sequence number on the channel.
    pub sequence: u8,
    /// Messages were lost before this packet.
    pub flagged: bool,
    /// The counter of the packet's header.
    pub counter: Count,
    pub data_type: u8,
    pub kind: PacketKind,
    /// The length of the whole packet in bytes.
    pub length: usize,
    /// How many entries it has: none where it is a setup or an index packet or a loss report.
    pub entries: usize,
    /// What its entries cost in a file, without a report before it.
    pub cost: u64,
    /// The counts of its entries, where it has any.
    pub counts: Option<Spread>,
}
