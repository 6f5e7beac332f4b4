//! Setup packets: a body is written as exactly the bytes of its text, and read as exactly the text
//! that this recorder writes so, as another recorder's, or as no body.
#![tactic(auto)]

mod body;

pub use body::{LONGEST_TEXT, SetupBody};
