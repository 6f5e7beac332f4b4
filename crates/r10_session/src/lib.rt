//! The command `run`: a session script on a recorder between threads, over a fresh medium in memory, to what came of it and the
//! lines that tell it; and with it all commands of the program.
#![tactic(auto)]

mod beginning;
mod command;
mod ended;
mod ends;
mod fault;
mod feeds;
mod list_source;
mod losses;
mod readers;
mod reports;
mod running;
mod session;
mod text;

pub use command::run;
pub use ended::{Ended, FeedEnd, Left, ReaderEnd};
pub use fault::SessionFault;
pub use running::run_script;
pub use text::session_text;
