//! The numbers that a call of the library answers, besides 0 where it was done and those of the other refusals.

/// A channel of this ID is not there.
pub const NO_CHANNEL: u32 = 6;

/// As many messages wait in a lane as it may hold.
pub const OVERFLOW: u32 = 12;

/// No recorder of these settings can use the medium's directory.
pub const DIRECTORY: u32 = 26;

/// The medium failed.
pub const MEDIUM: u32 = 28;

/// Memory was refused.
pub const OUT_OF_MEMORY: u32 = 30;

/// The script can't be taken.
pub const SCRIPT: u32 = 40;

/// The medium has another number of blocks than the script says.
pub const BLOCKS: u32 = 41;

/// Less memory was lent than the call needs.
pub const ROOM: u32 = 42;

/// A list has no such place.
pub const PLACE: u32 = 43;

/// A handle is not open.
pub const CLOSED: u32 = 44;

/// A handle is open already.
pub const OPEN: u32 = 45;
