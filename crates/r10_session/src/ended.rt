//! What came of a session.

use r10_body::Refusal;
use r10_machine::Reply;
use r10_medium::Memory;

/// What became of the messages of a feed: how many were accepted, refused and lost, and of the accepted ones how many
/// erases took, the recorder's own files have, and the recorder did not take in.
#[derive(Drop)]
pub struct FeedEnd {
    pub channel: u16,
    pub accepted: u64,
    pub refused: u64,
    /// the messages that were lost: refused because the lane was full, or lost before they were offered
    pub lost: u64,
    pub erased: u64,
    pub filed: u64,
    pub rest: usize,
}

/// What came of a reader: its cursor was refused, or it read so many entries.
#[derive(Drop)]
pub enum ReaderEnd {
    Refused(Refusal),
    Read(usize),
}

/// What came of a session: the reply to each step, the end of each feed and of each reader, and what an audit answers.
#[derive(Drop)]
pub struct Ended {
    pub replies: Vec<Reply>,
    pub feeds: Vec<FeedEnd>,
    pub readers: Vec<ReaderEnd>,
    pub audit: Result<bool, Refusal>,
}

/// What a session left: what came of it, and its medium.
#[derive(Drop)]
pub struct Left {
    pub ended: Ended,
    pub medium: Memory,
}
