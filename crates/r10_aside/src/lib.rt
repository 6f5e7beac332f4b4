//! A last file that was left open is set aside: its entry is closed as it is, unread.
#![tactic(auto)]

mod aside;

pub use aside::{close_as_it_is, set_aside};
