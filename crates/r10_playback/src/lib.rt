//! What is printed of a file: the entries of a strict one that are asked for, in the order of a replay, or why there are none;
//! and the verdict on a recording.
#![tactic(auto)]

mod check;
mod file;
mod lines;
mod play;
mod replay;
mod selection;
mod words;

pub use check::check_input;
pub use play::play_input;
pub use selection::Selection;
