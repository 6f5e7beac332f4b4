//! The directory of a medium for one recorder: formatted, mounted, dismounted and erased, what it tells of the files, and what
//! a recorder holds by it; a power loss at any moment leaves the files from before or those that the call makes.
#![tactic(auto)]

mod formatting;
mod holding;
mod laws;
mod listing;
mod mounting;
mod steps;

pub use formatting::format;
pub use holding::found_files_stay;
pub use laws::{an_image_keeps_its_bytes, listings_tell};
pub use listing::{is_sealed, is_taken, list, next_block};
pub use mounting::mount;
pub use r10_dirchain::{count, last_file};
pub use steps::{dismount, erase};
