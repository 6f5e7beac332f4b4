//! A medium over memory that a program lends, and what a disk has to do so that it holds the same.
#![tactic(auto)]

mod ahead;
mod line;
mod link;
mod operation;
mod orders;
mod queueing;
mod region;
mod spare;
mod steady;
mod strip;

pub use ahead::Ahead;
pub use line::Line;
pub use link::Link;
pub use operation::Operation;
pub use orders::{OrderOut, Orders, QueueOut, RunOut};
pub use region::Region;
pub use spare::Spare;
pub use steady::{Bound, NamesMedium, Onlooker, SteadyMedium};
pub use strip::Strip;
