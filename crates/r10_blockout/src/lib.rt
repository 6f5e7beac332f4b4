//! The end of a file that is being written: its full blocks on the medium, and in memory the block that its last bytes
//! fill; what is appended is what both say, and any run of a file's bytes is read back from the blocks that hold it.
#![tactic(auto)]

mod fault;
mod filling;
mod laws;
mod output;
mod read;

pub use fault::ReadFault;
pub use laws::shown_run;
pub use output::BlockOut;
pub use read::{read_bytes, ready};
