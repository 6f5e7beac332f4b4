//! The two ends of a lane between threads, as callers of other languages keep them: one offers, and answers numbers; of the other a
//! crate above takes what it carries.
#![tactic(auto)]

mod carrier;
mod loose;
mod opening;
mod outlet_end;
mod outlet_handle;
mod port_end;
mod port_handle;
mod port_out;
mod sender;

pub use carrier::Carrier;
pub use loose::Loose;
pub use opening::open_ends;
pub use outlet_end::OutletEnd;
pub use port_end::PortEnd;
pub use port_out::PortOut;
