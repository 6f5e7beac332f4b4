//! A file that was judged.

use r10_judge::Tracks;

/// What is kept of a file that was judged.
#[derive(Drop)]
pub struct JudgedFile {
    /// The file's number.
    pub file: usize,
    /// The number of its first block.
    pub first: usize,
    /// What is kept of its packets.
    pub tracks: Tracks,
}
