//! The command line: what the words of a call ask for.
#![tactic(auto)]

mod asked;
mod options;
mod usage;

pub use asked::{Asked, FormatWords, PlayWords, WordsFault, asks_run, asks_session, read_words};
pub use options::options_are_told;
