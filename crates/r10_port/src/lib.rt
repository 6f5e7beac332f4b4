//! The lanes between threads: an offer is refused as in a lane of one thread, without waiting and without memory, and what
//! one end accepts is what the other gives, in order.
#![tactic(auto)]

mod item;
mod opening;
mod outlet;
mod port;
mod rest;
mod rule;

pub use opening::lane;
pub use outlet::Outlet;
pub use port::Port;
