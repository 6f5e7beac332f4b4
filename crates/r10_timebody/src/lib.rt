//! Time packets: a body is written as exactly the bytes of its civil time, and read as exactly the
//! civil time that this recorder writes so, as another recorder's, or as no body.
#![tactic(auto)]

mod body;
mod digits;

pub use body::TimeBody;
