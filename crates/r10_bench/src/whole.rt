//! How long a recording through the public recorder takes: offers, pumps, commits and the stop, in processor time. Making the
//! messages, and beginning the file, is not timed.

use crate::fault::BenchFault;
use crate::figures::{lap, show};
use crate::messages::make;
use crate::mounted::{CHANNELS, InMemory, WAITING, begin, channel_of};
use r10_body::{Refusal, Timed};
use std::alloc::Global;
use std::ops::Range;
use std::time::CpuClock;

/// How many messages are offered before each channel is pumped.
pub(crate) const ROUND: u32 = 1024;

/// How many messages there are to a commit.
const SHOWN: u32 = 64 * ROUND;

/// The most entries of a packet that a channel may ask for.
pub(crate) const NUMBER: usize = 65_535;

/// The bytes of each message, unless a measure is of other lengths.
pub(crate) const TEXT: [u8; 32] = [0x55; 32];

/// How many these are.
pub(crate) const LENGTH: u16 = 32;

/// Records messages, each so many counts after the one before it. Each is offered to the channel that its number says, and then
/// each channel is pumped.
fn record(recorder: &mut InMemory, messages: Vec<Timed>, step: u64) -> Result<(), Refusal> {
    for Timed { count, message } in messages {
        let number = count.get();
        recorder.offer(channel_of(number), number.wrapping_mul(step), message)?;
    }
    for channel in CHANNELS {
        recorder.pump(channel, WAITING)?;
    }
    Ok(())
}

/// Records the messages of these numbers, round by round, with these bytes and so many counts apart, and commits then if that is
/// asked for. Answers the processor time of both.
pub(crate) fn fill<R: CpuClock>(
    rt: &R,
    alloc: Global,
    recorder: &mut InMemory,
    numbers: Range<u32>,
    text: &[u8],
    step: u64,
    commits: bool,
) -> Result<u64, BenchFault> {
    let Range { start, end } = numbers;
    let (mut last, mut recording) = (0, 0u64);
    for first in (start..end).step_by(ROUND as usize) {
        let messages = make(alloc, first..end.min(first.saturating_add(ROUND)), text)?;
        lap(rt, &mut last);
        record(recorder, messages, step)?;
        recording = recording.saturating_add(lap(rt, &mut last));
    }
    if commits {
        recorder.commit()?;
    }
    Ok(recording.saturating_add(lap(rt, &mut last)))
}

/// The bytes of the file.
pub(crate) fn size_of_file(recorder: &InMemory) -> Result<u64, Refusal> {
    let files = recorder.files()?;
    match files.last() {
        Some(file) => Ok(file.size),
        None => Ok(0),
    }
}

/// Records so many messages of so many bytes each in a file, which is closed then. The bytes are the front of this text.
pub(crate) fn run<R: Print + CpuClock>(
    rt: &R,
    alloc: Global,
    number: u32,
    length: u16,
    text: &[u8],
) -> Result<InMemory, BenchFault> {
    let (mut last, mut recording, mut commits) = (0, 0u64, 0u64);
    let mut recorder = begin(alloc, number, length, NUMBER)?;
    for first in (0..number).step_by(SHOWN as usize) {
        let next = number.min(first.saturating_add(SHOWN));
        let all = next.saturating_sub(first) > SHOWN - ROUND;
        let time = fill(rt, alloc, &mut recorder, first..next, text, 1, all)?;
        recording = recording.saturating_add(time);
        commits = commits.saturating_add(u64::from(all));
    }
    lap(rt, &mut last);
    let stopped = recorder.stop_file()?;
    recording = recording.saturating_add(lap(rt, &mut last));
    let bytes = size_of_file(&recorder)?;
    let figures = [
        ("recorder-length", u64::from(length), "bytes", 0),
        ("recorder-commits", commits, "commits", 0),
        ("recorder-file", bytes, "bytes", 0),
        ("recorder", u64::from(number), "messages", recording),
    ];
    show(rt, stopped.left == 0, &figures)?;
    Ok(recorder)
}
