//! The directory on a medium: each call changes the list of files by its one step, and a power loss at
//! any moment leaves the list from before or the one that the call makes.
#![tactic(auto)]

mod chain;
mod check;
mod formatting;
mod laws;
mod listing;
mod put;
mod read;
mod room;
mod steps;

pub use chain::{ChainBlock, Directory, ListedFile};
pub use formatting::{FormatError, format};
pub use laws::{file_lists, kept_entries, one_directory, usable_directories};
pub use listing::{count, last_file};
pub use read::{ChainError, read_chain};
pub use room::Room;
