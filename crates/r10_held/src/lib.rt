//! What a lock keeps of a recorder that threads share, and the lock: whoever gets it knows that each channel's lane has received
//! what erases took, and then what the recorder's own files have of the channel. Beside it stand readers, which never read less
//! than they have seen published, and what they wrote down, with its audit.
#![tactic(auto)]

mod auditing;
mod cabinet;
mod directory;
mod gauged;
mod held;
mod listing;
mod parting;
mod player;
mod publishing;
mod reading;
mod recording;
mod rings;
mod sight;
mod taking;
mod transcript;

pub use auditing::{audit, audit_all};
pub use cabinet::Cabinet;
pub use gauged::Gauged;
pub use held::{Held, new_recorders_account_for_their_lanes};
pub use player::Player;
pub use r10_control::Recorder;
pub use r10_cursor::Cursor;
pub use rings::Rings;
pub use sight::Sight;
pub use transcript::{Instalment, Transcript};
