//! The file that is recorded, over any medium and its directory, from its begin to its close, and what waits in lanes goes into it:
//! the first of a lane, in order, up to one that has no room. Each call puts the file's data first, and then at most one entry of
//! the directory, so that a power loss at any moment leaves the files that there were or those that the call makes.
#![tactic(auto)]

mod channels;
mod data;
mod fault;
mod file;
mod file_listing;
mod laws;
mod moving;
mod opening;
mod pump_end;
mod pump_laws;
mod pumping;
mod start_laws;
mod stop;

pub use channels::builders_of;
pub use fault::BeginFault;
pub use file::OpenFile;
pub use file_listing::list_file;
pub use laws::channels_end_apart;
pub use opening::{begin, has_room_to_begin};
pub use pump_end::PumpStop;
pub use pump_laws::{
    failed_pumps_take_few, full_pumps_are_refused, pumps_are_steps, pumps_end_alike,
    stops_are_whole_steps,
};
pub use start_laws::{begun_files_are_held, files_in_front_stay};
