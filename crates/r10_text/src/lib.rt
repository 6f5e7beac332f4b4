//! The text of replies and scripts: the lines of each step's reply, of an entry alone and of a script's fault, and the civil
//! times in scripts.
#![tactic(auto)]

mod civil;
mod fault;
mod line;
mod locate;
mod refusal;
mod reply;

pub use civil::parts_of;
pub use fault::{KeyContent, Place, ScriptFault, Spot, Wrong};
pub use line::entry_line;
pub use refusal::fault_text;
pub use reply::reply_lines;
