//! How a recorder is between threads.

use r10_count::Count;
use r10_held::{Held, Rings};
use r10_machine::Mode;
use r10_medium::BlockMedium;

/// The channels of the two feeds.
pub const CHANNELS: [u16; 2] = [5, 6];

/// How a recorder is, without what other threads change: what waits in its lanes.
#[derive(Clone, Copy, PartialEq, Eq)]
pub struct RecorderState {
    pub mode: Option<Mode>,
    pub tick: Option<Count>,
    pub files: usize,
    pub free: u64,
    /// Of each of the two channels how many messages were taken in, and how many of these erases took.
    pub taken: [Option<u64>; 2],
    pub erased: [Option<u64>; 2],
    /// How often was published what the files show, and of the last file how much it shows.
    pub commits: u64,
    pub shown: Option<(usize, u64)>,
}

/// How the recorder is under its lock. Its status is asked again where memory is refused.
pub fn standing_of<M: BlockMedium, N: Rings>(held: &mut Held<M, N>) -> RecorderState {
    let status = match held.status() {
        Ok(status) => Ok(status),
        Err(_) => held.status(),
    };
    let (mode, tick, files, free) = match status {
        Ok(status) => (Some(status.mode), status.tick, status.files, status.free),
        Err(_) => (None, None, 0, 0),
    };
    let [five, six] = CHANNELS;
    RecorderState {
        mode,
        tick,
        files,
        free,
        taken: [held.taken(five), held.taken(six)],
        erased: [held.erased(five), held.erased(six)],
        commits: held.commits(),
        shown: held.last_shown(),
    }
}
