//! What is kept of a strict file's packets so far tells of the next packet which of the rules from 4 on it breaks first.
#![tactic(auto)]

mod channels;
mod events;
mod index;
mod kinds;
mod laws;
mod names;
mod reports;
mod times;
mod totals;
mod tracks;

pub use laws::broken_rules;
pub use times::TimeMark;
pub use tracks::Tracks;
