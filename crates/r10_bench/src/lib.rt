//! What the program `r10_bench` measures, run by hand: how many small UART messages a second go through a lane and a builder,
//! beside a plain copy of the same bytes; how many a recorder records onto a medium in memory; how many entries a second it
//! replays, how long it takes to find one in a file of many packets, how many bytes of index a second it writes where it closes
//! one, and how many bytes of a file are judged in a second.
#![tactic(auto)]

mod bench;
mod check;
mod closing;
mod copy;
mod fault;
mod figures;
mod finding;
mod lengths;
mod messages;
mod mounted;
mod path;
mod replay;
mod whole;

pub use fault::BenchFault;
use std::alloc::Global;
use std::io;
use std::process::ExitCode;
use std::rt::Env;
use std::time::CpuClock;

/// What is measured.
#[derive(Clone, Copy)]
enum Part {
    All,
    /// Only the end of a file, of so many packets.
    Close,
    /// Only the whole recorder, with messages of several lengths: so many of 64 bytes, of others as many bytes together.
    Lengths,
}

/// The part that a word names.
fn part_of(word: &str) -> Part {
    match word {
        "close" => Part::Close,
        "lengths" => Part::Lengths,
        _ => Part::All,
    }
}

/// The part and the number that the command line asks for.
fn read_words<R: Env + AllocGlobal>(rt: &R) -> io::Result<Option<(Part, u32)>> {
    let mut words = std::env::args(rt)?;
    let Some(first) = words.nth(1) else {
        return Ok(None);
    };
    let part = part_of(first.as_str());
    let number = match part {
        Part::All => first.parse().ok(),
        Part::Close | Part::Lengths => match words.next() {
            Some(second) => second.parse().ok(),
            None => None,
        },
    };
    match number {
        Some(number) => Ok(Some((part, number))),
        None => Ok(None),
    }
}

/// All parts, of so many messages.
fn measure_all<R: Print + CpuClock>(rt: &R, alloc: Global, number: u32) -> Result<(), BenchFault> {
    bench::run(rt, alloc, number)?;
    let recorder = whole::run(rt, alloc, number, whole::LENGTH, &whole::TEXT)?;
    replay::run(rt, alloc, recorder, number)?;
    replay::follow(rt, alloc, number)?;
    for step in &finding::STEPS {
        finding::run(rt, alloc, step, number)?;
    }
    closing::run(rt, alloc, number)?;
    for shape in &check::SHAPES {
        check::run(rt, alloc, shape, number)?;
    }
    Ok(())
}

/// Measures what the command line asks for, and prints it. `scripts/build/build.py` makes a program of this crate, whose `main` is
/// this call: so the gate proves it, and builds none.
pub fn measure<R: Env + AllocGlobal + Print + CpuClock>(rt: &R) -> Result<ExitCode, BenchFault> {
    let alloc = rt.alloc();
    match read_words(rt)? {
        Some((Part::All, number)) => measure_all(rt, alloc, number)?,
        Some((Part::Close, number)) => closing::run(rt, alloc, number)?,
        Some((Part::Lengths, number)) => lengths::run(rt, alloc, number)?,
        None => {
            println!(rt; "usage: r10_bench MESSAGES | close PACKETS | lengths MESSAGES")?;
            return Ok(ExitCode::from(2));
        }
    }
    Ok(ExitCode::SUCCESS)
}
