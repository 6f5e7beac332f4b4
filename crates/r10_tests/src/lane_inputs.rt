// What the tests send.

use r10_body::{ChannelSpec, Kind, Message, UartMessage};
use r10_count::{Bytes, Count};
use std::alloc::Global;

/// A UART channel that has room for two.
pub const CHANNEL: ChannelSpec = ChannelSpec {
    id: 5,
    kind: Kind::Uart,
    capacity: 2,
    check: 0,
    bytes: 524_288,
    number: 65_535,
    bits: 0,
};

/// A message without bytes, which takes no memory.
pub fn empty(alloc: Global) -> Message {
    Message::Uart(UartMessage {
        parity: false,
        sub: 0,
        bytes: Bytes::of(Vec::new(alloc)),
    })
}

/// The count of the lowest 32 bits.
pub fn count(units: u32) -> Count {
    let Some(count) = Count::of(u64::from(units)) else {
        unreachable!()
    };
    count
}
