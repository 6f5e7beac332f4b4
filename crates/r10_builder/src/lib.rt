//! The packets of a channel: samples are collected until one of five conditions closes the packet, and what is handed out is the
//! packet that says exactly these samples, within the channel's limits. What the builders of all channels hold and hand out is what
//! was taken in, in packets that may come next in the file.
#![tactic(auto)]

mod builder;
mod builders;
mod closed;
mod encode;
mod grows;
mod laws;
mod limits;
mod next;
mod open_packet;

pub use builder::Builder;
pub use builders::Builders;
pub use closed::{Closed, Reason};
pub use grows::{builders_by_channel, entries_are_kept};
pub use laws::handed_out_frames;
pub use next::{
    event_may_follow, file_begins, handed_out_may_follow, one_more_grows, report_may_follow,
    time_may_follow,
};
