//! A recorder over any medium and any lanes: each call says what it refuses whatever files the medium has, and where
//! the small machine represents the recorder, each call is a step of it.
#![tactic(auto)]

mod clock;
mod keeping;
mod lifted;
mod listing;
mod mounting;
mod numbers;
mod offering;
mod own_laws;
mod parting;
mod pumping;
mod reading;
mod recorder;
mod recording;
mod sealing;
mod standing;
mod starting;
mod status;
mod stopping;
mod waiting;
mod work;
mod written_laws;

pub use lifted::Lifted;
pub use own_laws::{own_entries_are_meant, own_entries_stay};
pub use r10_machine::{
    ChannelStatus, FileInfo, Found, Mode, Settings, SettingsFault, Status, Stopped,
};
pub use recorder::Recorder;
pub use status::{LaneStatus, RecorderStatus};
pub use written_laws::what_is_written_is_shown;
