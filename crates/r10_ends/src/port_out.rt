//! What a sending end tells of itself.

/// How the sending end of a channel's lane is.
#[repr(C)]
#[derive(Clone, Copy)]
pub struct PortOut {
    /// the messages that it accepted, up to 2^64 - 1
    pub accepted: u64,
    /// the messages that were refused for an overflow, or lost before they were offered, up to 2^64 - 1
    pub lost: u64,
    /// how many messages may wait
    pub capacity: usize,
    pub channel: u16,
}
