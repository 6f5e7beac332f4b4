//! A recorder and its readers, each of whose calls answers a number: 0, or that of its refusal.
#![tactic(auto)]

mod accounts;
mod aside;
mod carrying;
mod checking;
mod control;
mod copies;
mod desk;
mod entry_out;
mod fault;
mod hand;
mod listing;
mod losses;
mod offers;
mod opening;
mod outs;
mod place;
mod readers;
mod running;

pub use accounts::{Accepted, AccountOut, count_accepted, none_accepted};
pub use aside::set_aside;
pub use checking::{ScriptOut, check_script};
pub use desk::Desk;
pub use entry_out::EntryOut;
pub use fault::FaultOut;
pub use listing::{ChannelOut, FileOut, StatusOut};
pub use losses::{LossesOut, untold};
pub use opening::{format, open};
