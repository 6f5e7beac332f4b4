//! Why there are no figures.

use r10_body::Refusal;
use std::alloc::AllocError;
use std::{fmt, io};
use thiserror::Error;

/// Why there are no figures.
#[derive(Drop, Error)]
pub enum BenchFault {
    #[error("out of memory")]
    Memory(#[from] AllocError),
    /// The command line or the output failed.
    #[error("{0}")]
    System(#[from] io::Error),
    /// A lane refused a message, or the recorder a call.
    #[error("{0}")]
    Refused(#[from] Refusal),
    /// A recorder can't be set up so.
    #[error("the settings are out of their limits")]
    Settings,
    #[error("the clock failed")]
    Clock,
    #[error("messages were lost, or an account does not add up")]
    Lost,
}

/// As it is displayed.
impl fmt::Debug for BenchFault {
    fn fmt<W: fmt::Write>(&self, f: &mut fmt::Formatter<W>) -> fmt::Result {
        fmt::Display::fmt(self, f)
    }
}
