//! ARINC 429 packets: a body is written as exactly the bytes of its words, each after its gap since the word before, and read as
//! exactly the words that this recorder writes so, as another recorder's, or as no body.
#![tactic(auto)]

mod body;
mod entry;
mod message;

pub use body::ArincBody;
pub use entry::{ArincEntry, LONGEST_GAP};
pub use message::ArincMessage;
