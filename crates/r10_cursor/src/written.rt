//! The file that is written.

use r10_index::IndexBook;
use r10_indexbody::NodeEntry;

/// What the medium shows of the file that is written.
#[derive(Clone, Copy)]
pub struct Written<'a> {
    /// The file's number.
    pub file: usize,
    /// The number of its first block.
    pub first: usize,
    /// What nodes say of the packets that the medium shows.
    pub named: &'a [NodeEntry],
    /// What they say of all its packets, of which these are the first.
    pub book: &'a IndexBook,
}

/// Where a file's packets stand that the medium shows.
#[derive(Clone, Copy)]
pub(crate) struct Shown<'a> {
    /// The number of the file's first block.
    pub first: usize,
    /// What nodes say of the packets.
    pub named: &'a [NodeEntry],
    /// A book that has them first.
    pub book: &'a IndexBook,
}
