//! A block of the directory: what is written is its one spelling, what is read are exactly the
//! blocks with their fields, and what is refused is named by its first fault.
#![tactic(auto)]

mod block;
mod entries;
mod entry;
mod page;
mod read;
mod text;

pub use block::{DirBlock, encode};
pub use entries::Entries;
pub use entry::Entry;
pub use read::{DirFault, decode};
pub use text::{pad, strip};
