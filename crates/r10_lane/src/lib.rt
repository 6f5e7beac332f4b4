//! The lanes of channels: an offer is refused by the first rule that it breaks and by nothing else,
//! and what is taken from a lane is the front of what it accepted, in order.
#![tactic(auto)]

mod lane_out;
mod losses;
mod ring_lane;
mod spent;

pub use lane_out::LaneOut;
pub use losses::Losses;
pub use ring_lane::RingLane;
pub use spent::Spent;
