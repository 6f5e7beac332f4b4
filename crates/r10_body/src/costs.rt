//! What an entry costs.

ghost use Rattle.std.specs.Prelude.{◌≡◌, ◌+◌, ◌^◌, ◌<◌};
ghost use Rattle.r10_body.specs.Cost.{lost_cost, message_cost};

use crate::gap::Gap;
use crate::message::Message;
use r10_message::DataMessage;
use r10_uart::UartMessage;

/// What every entry costs in bytes, whatever its message: a packet of its own has no more besides
/// the message, and no more for its part of the index.
pub const ENTRY_COST: u64 = 104;

/// What every file costs in bytes before its setup text and its entries.
pub const FILE_COST: u64 = 152;

/// What an entry after a loss whose number is reported costs more in bytes: the report, and no more for its part of the index.
pub const LOSS_COST: u64 = 68;

/// What a message and the gap before it add to the cost of their entry, in bytes: this recorder's own measure of room.
#[inline(always)]
pub fn cost(message: &Message, gap: Gap) -> u64
    ensures { result ≡ message_cost message.now + lost_cost gap }
{
    let own = match message {
        Message::Uart(UartMessage { bytes, .. }) | Message::Message(DataMessage { bytes, .. }) => 12
            + bytes.as_slice().len() as u64,
        _ => of_any(message),
    };
    let lost = match gap {
        Gap::Lost(_) => LOSS_COST,
        Gap::Whole | Gap::Unknown => 0,
    };
    own + lost
}

/// What a message adds, in a call of its own, so that bytes are asked above without a jump through a table.
#[inline(never)]
fn of_any(message: &Message) -> u64
    ensures is { result ≡ message_cost message.now }
    ensures small { result < 2 ^ 63 + 2 ^ 20 }
{
    match message {
        Message::Uart(UartMessage { bytes, .. }) | Message::Message(DataMessage { bytes, .. }) => {
            let bytes = bytes.as_slice();
            12 + bytes.len() as u64
        }
        Message::Bus1553(message) => 14 + 2 * message.words.as_slice().len() as u64,
        Message::Discrete(_) | Message::Event { .. } => 12,
        Message::Arinc(_) | Message::Time { .. } => 8,
    }
}
