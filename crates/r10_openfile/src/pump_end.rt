//! What ends a pump.

use r10_medium::MediumFault;
use r10_mux::Full;
use thiserror::Error;

/// Why a pump moved nothing, or could not go on.
#[derive(Clone, Copy, Debug, Error)]
pub enum PumpStop {
    /// The first sample has no room. It waits on, and nothing has changed.
    #[error("the medium has no room for the first sample that waits")]
    Full(Full),
    /// The medium failed. What was taken from the lane until then is lost to it, and the file can't go on.
    #[error("{0}")]
    Medium(MediumFault),
}

/// What a lane shows first, before it is taken.
#[derive(Clone, Copy)]
pub(crate) enum Next {
    /// Nothing waits.
    Nothing,
    /// A sample that the file has room for.
    Fits,
    /// A sample that has no room.
    Full(Full),
}

/// How many samples were moved, and what the next one has no room in, where that ended it.
#[derive(Clone, Copy)]
pub(crate) struct Moved {
    pub number: usize,
    pub full: Option<Full>,
}

/// How many samples of a channel were moved and how many are left, and what the next one has no room in,
/// where that ended it.
#[derive(Clone, Copy)]
pub(crate) struct Share {
    pub number: usize,
    pub left: usize,
    pub full: Option<Full>,
}
