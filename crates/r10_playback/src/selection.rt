//! What is asked for, and why it isn't given.

/// The entries of an image's file that are asked for.
#[derive(Clone, Copy)]
pub struct Selection {
    /// The file's number, from 0.
    pub file: usize,
    /// The channel, or 0 for all.
    pub channel: u16,
    /// The first count.
    pub from: u64,
    /// The last count.
    pub to: u64,
}

/// Why entries are refused.
#[derive(Clone, Copy, Drop)]
pub(crate) enum PlayRefusal {
    /// A count doesn't fit 48 bits.
    CountRange,
    /// The directory can't be taken, first for this block.
    BadDirectory(u64),
    /// No file has this number.
    NoSuchFile,
    /// The file isn't strict, or is closed where its directory entry isn't, or the other way round.
    NotStrict,
}

/// Why there are no entries.
#[derive(Clone, Copy, Drop)]
pub(crate) enum PlayFault {
    /// The image refuses them.
    Refused(PlayRefusal),
    /// The medium failed in a read.
    Medium,
    /// A growth was refused.
    OutOfMemory,
}
