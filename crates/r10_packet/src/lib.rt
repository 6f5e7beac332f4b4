//! Packets: primary header, body, filler and data checksum. What is framed is a packet sentence, and
//! what is read is exactly what such sentences say.
#![tactic(auto)]

mod check;
mod fault;
mod header;
mod limits;
mod packet;
mod sums;
mod types;
mod view;

pub use check::Check;
pub use fault::PacketFault;
pub use header::{Header, decode_header, encode_header};
pub use limits::{LONGEST_BODY, LONGEST_PACKET};
pub use packet::Packet;
pub use sums::{sum8, sum16, sum32};
pub use types::{
    TYPE_ARINC, TYPE_BUS, TYPE_DISCRETE, TYPE_EVENT, TYPE_INDEX, TYPE_MESSAGE, TYPE_SETUP,
    TYPE_TIME, TYPE_UART, TYPE_USER,
};
pub use view::{DataSum, PacketView};
