//! Discrete packets: a body is written as exactly the bytes of its states, and read as exactly the states that this recorder writes
//! so, as another recorder's, or as no body.
#![tactic(auto)]

mod body;
mod entry;
mod message;
mod states;

pub use body::{DiscreteBody, bits_in};
pub use entry::DiscreteEntry;
pub use message::DiscreteMessage;
pub use states::has_only;
