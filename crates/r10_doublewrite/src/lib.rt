//! A medium of blocks over a device whose sectors tear: what is written goes to a journal first, and then in place.
#![tactic(auto)]

mod finding;
mod layer;
mod place;
mod read;
mod recovery;

pub use layer::DoubleWrite;
pub use recovery::{Recovered, recover};
