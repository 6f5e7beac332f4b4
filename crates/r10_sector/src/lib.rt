//! A device of sectors that tear: what a power loss leaves of a sector amid its write may be anything.
#![tactic(auto)]

mod device;
mod side;
mod stored;

pub use device::{SectorDevice, SectorFault, SlotFault};
pub use side::Side;
pub use stored::Stored;
