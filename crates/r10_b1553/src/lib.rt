//! MIL-STD-1553 packets: a body is written as exactly the bytes of its bus messages, and read as exactly the messages that this
//! recorder writes so, as another recorder's, or as no body.
#![tactic(auto)]

mod body;
mod entry;
mod message;
mod words;

pub use body::BusBody;
pub use entry::{BusEntry, MOST_BYTES, MOST_WORDS, NAMED_BITS, channel_word, push_entry};
pub use message::BusMessage;
