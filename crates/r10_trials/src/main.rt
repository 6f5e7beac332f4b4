//! Trials of what no contract can say: a recorder is stopped after each call of its medium and has each call fail, in the runs
//! whose scripts stand in standard input one after the other. After them stand sessions between threads, which are run and ended,
//! whichever of their allocations was refused. It prints how often a new recorder finds the files from before the step that was
//! met, how often those after it, and whether all came as it is to.
#![tactic(auto)]

mod apparatus;
mod course;
mod each;
mod fault;
mod list_source;
mod medium_content;
mod notes;
mod one_stop;
mod plan;
mod recovered;
mod scene;
mod session;
mod sessions;
mod settled;
mod standing;
mod tally;
mod title;
mod trial;

use crate::fault::TrialFault;
use r10_images::StreamFault;
use std::alloc::Global;
use std::process::ExitCode;
use std::sync::Wait;
use std::thread::Threads;

/// The line that stands before the sessions.
const SESSIONS: &str = "== sessions\n";

/// Room for all that is printed. So what is printed asks for memory once, before the first trial, and no trial ends for want of
/// room: what finds none is missing.
const ROOM: usize = 32_768;

/// Makes the trials and the sessions of the input, and prints what they came to, also where one of them ended early.
fn run<R: Input + Print + AllocGlobal + Threads + Wait + Sync>(rt: &R) -> Result<(), TrialFault> {
    let alloc: Global = rt.alloc();
    let input = match r10_images::read_whole(alloc, &mut rt.reader()) {
        Ok(input) => input,
        Err(fault) => return Err(TrialFault::Stream(fault)),
    };
    let Ok(mut text) = String::with_capacity(alloc, ROOM) else {
        return Err(TrialFault::Memory);
    };
    let tried = try_input(rt, alloc, input.as_slice(), &mut text);
    match rt.write_all(text.as_bytes()) {
        Ok(()) => tried,
        Err(error) => Err(TrialFault::Stream(StreamFault::Write(error))),
    }
}

/// Makes the trials and the sessions of the input, and adds what they came to.
fn try_input<R: Threads + Wait + Sync>(
    rt: &R,
    alloc: Global,
    input: &[u8],
    text: &mut String,
) -> Result<(), TrialFault> {
    let Ok(input) = str::from_utf8(input) else {
        return Err(TrialFault::NoTrial { place: 1 });
    };
    let (trials, sessions) = match input.split_once(SESSIONS) {
        Some(parts) => parts,
        None => (input, ""),
    };
    if !trials.is_empty() {
        trial::try_all(alloc, trials, text)?;
    }
    sessions::try_all(rt, alloc, sessions, text)
}

fn main(rt: HostRuntime) -> ExitCode {
    match run(&rt) {
        Ok(()) => ExitCode::from(0),
        Err(fault) => {
            let _ = rt.eprintln(&fault);
            ExitCode::from(2)
        }
    }
}
