//! The receiving end of a lane between threads, and what was taken out of it.

use r10_body::Sample;
use r10_port::Outlet;

/// The receiving end of a lane between threads, the place of its channel among a recorder's, and the sample that was taken out and
/// is not carried yet.
#[derive(Drop)]
pub struct Carrier {
    pub outlet: Outlet,
    pub place: usize,
    pub hand: Option<Sample>,
}
