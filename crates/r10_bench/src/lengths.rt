//! How long a recording takes by the length of its messages: the whole recorder, as in `whole`, with messages of one length each
//! time.

use crate::fault::BenchFault;
use crate::whole;
use std::alloc::Global;
use std::time::CpuClock;

/// The lengths of messages that are measured, in bytes: short ones, which stand in the value, odd ones, and ones in memory of
/// their own.
const LENGTHS: [u16; 9] = [8, 16, 32, 39, 64, 255, 256, 1000, 60_000];

/// The least number of messages.
const LEAST: u64 = 1024;

/// Records messages of each length in a file of their own: as many as have as many bytes together as so many of 64, or that many,
/// where they are shorter.
pub(crate) fn run<R: Print + CpuClock>(
    rt: &R,
    alloc: Global,
    number: u32,
) -> Result<(), BenchFault> {
    for length in LENGTHS {
        let same = u64::from(number) * 64 / u64::from(length).max(64);
        let messages = same.clamp(LEAST, 4_294_967_295) as u32;
        let mut text = Vec::new(alloc);
        text.resize(usize::from(length), 0x55)?;
        let _recorder = whole::run(rt, alloc, messages, length, text.as_slice())?;
    }
    Ok(())
}
