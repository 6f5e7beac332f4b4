//! The packets of a file that is being written: their bytes on a medium, numbered on each channel, with the index after them
//! at the close; and what such a file carries, in packets and in builders, as a relation with its laws.
#![tactic(auto)]

mod ending;
mod index;
mod laws;
mod numbers;
mod output;
mod parts;

pub use index::put_index;
pub use laws::{
    closed_files_say, costs_cover, events_are_carried, files_begin, flushed_files_say,
    none_is_later, packets_are_carried, packets_have_room, samples_are_carried,
    samples_are_no_events, times_are_carried,
};
pub use output::PacketOut;
pub use r10_index::IndexBook;
