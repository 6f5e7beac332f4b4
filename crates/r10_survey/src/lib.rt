//! The survey of a recording: its packets by channel, the gaps in their sequence numbers, and the stretches of bytes that no
//! packet has. It takes the file in windows of any size, and keeps only a packet that is not whole yet.
#![tactic(auto)]

mod channel;
mod channels;
mod damage;
mod entries;
mod laws;
mod look;
mod survey;
mod track;

pub use channel::ChannelCount;
pub use damage::{MOST_STRETCHES, Stretch};
pub use laws::stretches_are_faults;
pub use survey::{Report, Survey, SurveyFault};
