//! Images of a medium: what is written is the image that formatting leaves, and what is listed are
//! the files of the directory that an image has.
#![tactic(auto)]

mod fault;
mod formatting;
mod held;
mod input;
mod laws;
mod limits;
mod listing;
mod writing;

pub use fault::StreamFault;
pub use formatting::write_formatted;
pub use held::Image;
pub use input::read_whole;
pub use laws::formatted_images;
pub use limits::{Limit, check_format};
pub use listing::{Outcome, list_files, write_refusal};
pub use writing::write_image;
