//! Sessions in order.

use crate::apparatus::{Apparatus, Ready, apparatus_image, over};
use crate::fault::TrialFault;
use crate::list_source::source;
use crate::notes::Notes;
use crate::plan::Plan;
use crate::session::{EndedSession, gauged_of, run_over};
use crate::settled::{audit_and_close, settle};
use crate::title::number_of;
use std::alloc::{AllocError, Global};
use std::marker::Brand;
use std::sync::Wait;
use std::thread::Threads;

/// A session makes fewer calls of its medium.
const MOST: u64 = 1000;

/// So many sessions fail at least: one for each call that comes before the first file.
const FEWEST: u64 = 9;

/// What a line asks for: `NAME ASKS`.
fn task_of(line: &str) -> Option<(Plan, u32)> {
    let (name, asks) = line.split_once(' ')?;
    Some((Plan::of(name)?, number_of(asks)?))
}

/// Runs a session over a formatted medium of which the call of this number, from 1, fails, or none, where it is 0. It ends the
/// session, and looks at what a recorder leaves that has not failed.
fn try_once<R: Threads + Wait + Sync>(
    rt: &R,
    alloc: Global,
    plan: Plan,
    call: u64,
    notes: &mut Notes,
) -> Result<EndedSession, AllocError> {
    let image = apparatus_image(alloc)?;
    let first = source(alloc)?;
    let second = source(alloc)?;
    let Apparatus {
        recorder,
        five,
        six,
    } = over(alloc, image.as_slice(), call)?;
    let gauged = gauged_of(alloc, recorder, notes)?;
    let made = Ready { gauged, five, six };
    run_over::<Brand, _>(rt, alloc, made, first, second, plan, call, notes)
}

/// Runs a session over a medium that never fails, after so many asks for memory, and settles it. It is run once more from its
/// beginning where memory was refused to what is made before.
fn try_behind<R: Threads + Wait + Sync>(
    rt: &R,
    alloc: Global,
    plan: Plan,
    asks: u32,
    notes: &mut Notes,
) -> Result<(), AllocError> {
    notes.ask_before(alloc, asks);
    let ended = match try_once(rt, alloc, plan, 0, notes) {
        Ok(ended) => Ok(ended),
        Err(_) => {
            notes.do_again("all was made again");
            try_once(rt, alloc, plan, 0, notes)
        }
    };
    let mut ended = ended?;
    notes.want(!ended.has_failed, "the recorder failed");
    audit_and_close(alloc, &mut ended.report, plan, notes);
    notes.ask_behind(alloc);
    settle(alloc, ended, plan, 0, notes)
}

/// Runs the session of a plan over a medium whose first call fails, over one whose second call fails, and so on, until one does not
/// fail.
fn try_calls<R: Threads + Wait + Sync>(
    rt: &R,
    alloc: Global,
    plan: Plan,
    notes: &mut Notes,
) -> Result<(), AllocError> {
    for call in 1..MOST {
        let ended = try_once(rt, alloc, plan, call, notes)?;
        if !ended.has_failed {
            notes.want(call > FEWEST, "a session passed over a failed call");
            return Ok(());
        }
        settle(alloc, ended, plan, call, notes)?;
    }
    notes.want(false, "a session makes more calls of its medium");
    Ok(())
}

/// Runs the session of the line in this place, from 1, and adds the line and what came of it.
fn try_line<R: Threads + Wait + Sync>(
    rt: &R,
    alloc: Global,
    place: usize,
    line: &str,
    text: &mut String,
) -> Result<(), TrialFault> {
    let mut notes = Notes::default();
    let tried = match line.strip_prefix("each-call-fails ") {
        Some(name) => match Plan::of(name) {
            Some(plan) => try_calls(rt, alloc, plan, &mut notes),
            None => return Err(TrialFault::NoTrial { place }),
        },
        None => match task_of(line) {
            Some((plan, asks)) => try_behind(rt, alloc, plan, asks, &mut notes),
            None => return Err(TrialFault::NoTrial { place }),
        },
    };
    let Ok(()) = tried else {
        return Err(TrialFault::Memory);
    };
    let _ = text.push_str(line);
    let _ = text.push_str("\n");
    notes.push(alloc, text);
    Ok(())
}

/// Runs the session of each line in turn, and adds the line and what came of it.
pub fn try_all<R: Threads + Wait + Sync>(
    rt: &R,
    alloc: Global,
    lines: &str,
    text: &mut String,
) -> Result<(), TrialFault> {
    for (place, line) in lines.lines().enumerate() {
        try_line(rt, alloc, place.saturating_add(1), line, text)?;
    }
    Ok(())
}
