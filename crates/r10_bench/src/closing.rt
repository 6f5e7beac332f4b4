//! How long it takes to close a file of many packets, in processor time: the index is written, in groups of 32,765 nodes.

use crate::fault::BenchFault;
use crate::figures::{lap, show};
use crate::mounted::begin;
use crate::whole::{LENGTH, TEXT, fill, size_of_file};
use std::alloc::Global;
use std::time::CpuClock;

/// How many packets a file has at most.
const MOST: u32 = 10_000_000;

/// How many counts a message comes after the one before it, which is on another of the four channels.
const STEP: u64 = 2_000;

/// Records so many packets with a message each, all of which the directory shows then, and closes the file: what it has more is its
/// index.
pub(crate) fn run<R: Print + CpuClock>(
    rt: &R,
    alloc: Global,
    number: u32,
) -> Result<(), BenchFault> {
    let packets = number.min(MOST);
    let mut recorder = begin(alloc, packets, LENGTH, 1)?;
    fill(rt, alloc, &mut recorder, 0..packets, &TEXT, STEP, true)?;
    let shown = size_of_file(&recorder)?;
    let mut last = 0;
    lap(rt, &mut last);
    let stopped = recorder.stop_file()?;
    let closing = lap(rt, &mut last);
    let bytes = size_of_file(&recorder)?.saturating_sub(shown);
    let figures = [
        ("close-packets", u64::from(packets), "packets", 0),
        ("close-index", bytes, "bytes", 0),
        ("close", bytes, "bytes", closing),
    ];
    show(rt, stopped.left == 0, &figures)
}
