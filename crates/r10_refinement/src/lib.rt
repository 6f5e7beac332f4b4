//! Which machines a recorder represents, and the steps between them: where a call does to the files what it does, and to what is
//! kept, the machine takes its step. And what a power loss at any moment leaves of a recorder's files, over whole runs, and how a
//! new recorder finds them again.
#![tactic(auto)]

mod laws;
mod power_loss;
mod reports;

pub use laws::{
    commits_are_steps, dismounts_are_steps, erases_are_steps, events_are_steps, failures_are_steps,
    idle_ticks_are_steps, lacks_of_memory_are_steps, mounts_are_steps, own_entries_count_for_none,
    pumps_are_led, refusals_are_steps, seals_are_steps, starts_are_steps, stops_are_led,
    ticks_are_steps,
};
pub use power_loss::{
    an_image_is_found_again, other_events_show_no_more, shown_parts_are_said, synced_media_are_safe,
};
pub use reports::{losses_are_steps, offers_are_steps, reports_are_steps};
