//! What carries the samples of a lane between threads into a recorder's lane, one at a time. It also opens such a lane
//! for a channel of a script.
#![tactic(auto)]

mod carry;
mod carrying;
mod opening;

pub use carry::Carry;
pub use carrying::carry_one;
pub use opening::open_lane;
