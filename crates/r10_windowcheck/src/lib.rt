//! The verdict on a file that is given in windows of any size: that of the whole file. What is kept of its bytes is the beginning
//! of one packet.
#![tactic(auto)]

mod check;
mod walk;

pub use check::WindowCheck;
