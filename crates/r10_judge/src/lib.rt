//! A file's packets are judged one after the other: they keep the rules so far, or the first packet that breaks one is known,
//! and the least rule that it breaks; of a file on a medium no more is held than a window of its bytes.
#![tactic(auto)]

mod extent;
mod judge;
mod judgement;
mod laws;
mod walk;
mod window;

pub use extent::Extent;
pub use judge::Judge;
pub use judgement::{Judgement, judge_file};
pub use laws::{fault_or_strict, next_packet, one_first_fault};
pub use r10_file_rules::Tracks;
pub use walk::Walk;
pub use window::{Walked, walk_bytes, walk_file};
