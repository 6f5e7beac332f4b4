//! The run theorem: a recorder over a medium and the cursors of its readers, in one thread, to which events are given; each event
//! is a step of the small machine, and what is done to a list of events is a run of it.
#![tactic(auto)]

mod control;
mod laws;
mod readers;
mod running;
mod whole;
mod world;

pub use laws::{
    a_new_recorder_stands, recorders_calls_are_steps, refusals_change_nothing,
    tables_calls_are_steps,
};
pub use r10_machine::{
    ChannelStatus, Event, FileInfo, Found, Mode, Reply, Settings, SettingsFault, Status, Stopped,
};
pub use running::{run, run_one};
pub use whole::{format_and_record, record_all, run_over_any_medium};
pub use world::{LiftedWorld, World};
