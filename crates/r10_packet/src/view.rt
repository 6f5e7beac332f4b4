//! A packet as it stands in bytes.

use crate::header::Header;

/// How a packet's data checksum is.
#[derive(Clone, Copy, Debug, PartialEq, Eq)]
pub enum DataSum {
    /// It has no room after the body.
    NoRoom,
    Wrong,
    Right,
}

/// A packet that stands first in bytes. Where bit 7 of the header's flags tells a secondary
/// header, the packet is only separated from the next: the body after that header is not looked at.
#[derive(Clone, Copy)]
pub struct PacketView<'a> {
    pub header: Header,
    /// As many bytes as the header's data length tells, right after the primary header. Of a
    /// packet with a secondary header they begin with that header.
    pub body: &'a [u8],
    pub data_sum: DataSum,
}
