//! The verdict on a recording file, in memory or on a medium: this recorder may have written it, any recorder may have, or a
//! packet at an offset is at fault.
#![tactic(auto)]

mod check;
mod laws;
mod media;
mod place;
mod verdict;

pub use check::{Verdict, check_file, end_verdict};
pub use laws::one_verdict;
pub use media::{FileVerdict, check_medium};
pub use place::{extent_of, is_inside};
