//! UART packets: a body is written as exactly the bytes of its messages, and read as exactly the messages that this recorder writes
//! so, as another recorder's, or as no body.
#![tactic(auto)]

mod body;
mod entry;
mod header;
mod message;

pub use body::UartBody;
pub use entry::{UartEntry, channel_word, push_entry};
pub use header::UartHeader;
pub use message::UartMessage;
