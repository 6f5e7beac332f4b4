//! Where the accepted messages of a channel are: over every run of the small machine erases took the first of them, those after
//! them are in the files that the recorder began, and the last wait.
#![tactic(auto)]

mod laws;

pub use laws::{
    a_recording_accounts, a_run_goes_over, files_tell_losses, found_files_stay, losses_add_up,
    offers_add_up,
};
