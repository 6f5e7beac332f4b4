//! The commands of the program over any reader and writers: what the words ask for is done, and the exit status is answered.
#![tactic(auto)]

mod command;
mod fault;
mod image;
mod play;

pub use command::{report, run};
pub use fault::Fault;
pub use image::sim_image;
pub use play::{run_script, sim};
