//! Sources of messages, and the pump that offers what they give: nothing that a source gave is dropped or made up.
#![tactic(auto)]

mod pump;
mod source;

pub use pump::{Pumped, pump_source};
pub use source::{ChannelSource, Given, SourceItem};
