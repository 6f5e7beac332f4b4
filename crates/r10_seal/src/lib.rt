//! A last file that was left open is closed on the medium: its packets stay, their index stands after them, and a power loss at any
//! moment leaves the file open or closed.
#![tactic(auto)]

mod closing;
mod fault;
mod judging;
mod laws;
mod writing;

pub use closing::seal;
pub use fault::SealFault;
pub use laws::{left_files_are_strict, sealed_files_are_held, seals_leave_files, shown_files_cost};
