//! Why a run over trials ends early.

use r10_images::StreamFault;
use std::fmt;

/// Why a run over trials ends early.
#[derive(Drop)]
pub enum TrialFault {
    /// A growth was refused.
    Memory,
    /// The trials can't be read, or what they came to can't be written.
    Stream(StreamFault),
    /// What stands in this place among the trials, or in this line of the sessions, from 1, is none.
    NoTrial { place: usize },
}

impl fmt::Display for TrialFault {
    fn fmt<W: fmt::Write>(&self, f: &mut fmt::Formatter<W>) -> fmt::Result {
        match self {
            TrialFault::Memory => f.write_str("out of memory"),
            TrialFault::Stream(fault) => fmt::Display::fmt(fault, f),
            TrialFault::NoTrial { place } => write!(f, "no trial in place {place}"),
        }
    }
}
