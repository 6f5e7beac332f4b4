//! Message data packets: a body is written as exactly the bytes of its messages, and read as exactly the messages that this
//! recorder writes so, as another recorder's, or as no body.
#![tactic(auto)]

mod body;
mod data;
mod entry;
mod header;

pub use body::MessageBody;
pub use data::DataMessage;
pub use entry::{MessageEntry, channel_word, push_entry};
pub use header::MessageHeader;
