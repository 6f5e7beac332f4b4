//! How long it takes to find an entry in a file of many packets that is still recorded, in processor time.

use crate::fault::BenchFault;
use crate::figures::{lap, show};
use crate::mounted::{InMemory, begin, channel_of};
use crate::whole::{LENGTH, TEXT, fill};
use r10_body::Refusal;
use r10_machine::Found;
use std::alloc::Global;
use std::time::CpuClock;

/// How many packets a file has at most.
const MOST: u32 = 10_000_000;

/// How often an entry is looked for.
const SEARCHES: u32 = 10_000;

/// How many counts a message comes after the one before it, which is on another of the four channels: 2 ms and 200 us. And what the
/// figures are called.
pub(crate) const STEPS: [(u64, &str, &str); 2] = [
    (20_000, "packets-20000", "find-20000"),
    (2_000, "packets-2000", "find-2000"),
];

/// Whether something was found, and at this count.
fn is_at(found: &Option<Found>, count: u64) -> bool {
    match found {
        Some(found) => found.entry.count.get() == count,
        None => false,
    }
}

/// Looks for messages here and there in the file by their channel and count, and answers how many were found.
fn find_all(recorder: &mut InMemory, packets: u32, step: u64) -> Result<u32, Refusal> {
    let mut seen = 0u32;
    for search in 0..SEARCHES {
        let number = u64::from(search.wrapping_mul(7919) % packets.max(1));
        let count = number.saturating_mul(step);
        let found = recorder.find(0, channel_of(number), count)?;
        if is_at(&found, count) {
            seen = seen.wrapping_add(1);
        }
    }
    Ok(seen)
}

/// Records so many packets with a message each, so many counts apart, and finds messages of them.
pub(crate) fn run<R: Print + CpuClock>(
    rt: &R,
    alloc: Global,
    step: &(u64, &'static str, &'static str),
    number: u32,
) -> Result<(), BenchFault> {
    let (step, packets_name, find_name) = *step;
    let packets = number.clamp(1, MOST);
    let mut recorder = begin(alloc, packets, LENGTH, 1)?;
    let recording = fill(rt, alloc, &mut recorder, 0..packets, &TEXT, step, true)?;
    let mut last = 0;
    lap(rt, &mut last);
    let found = find_all(&mut recorder, packets, step)?;
    let finding = lap(rt, &mut last);
    let figures = [
        (packets_name, u64::from(packets), "packets", recording),
        (find_name, u64::from(SEARCHES), "searches", finding),
    ];
    show(rt, found == SEARCHES, &figures)
}
