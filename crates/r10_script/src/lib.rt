//! Reads a script: the settings and the steps of a run, in TOML, and those of a session.
#![tactic(auto)]

mod key_content;
mod limits;
mod offer;
mod script;
mod session;
mod settings;
mod step;
mod table;

pub use script::{Script, read_script};
pub use session::{FeedItem, FeedTable, ReaderTable, SessionScript, read_session};
