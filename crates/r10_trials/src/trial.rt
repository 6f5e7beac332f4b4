//! Trials in order.

use crate::course::Course;
use crate::each::try_each;
use crate::fault::TrialFault;
use crate::one_stop::{fail_at, judge_spoilt, spoil_byte, stop_after};
use crate::scene::{image_behind, image_recorded};
use crate::tally::{Counts, Row, join, push_number, push_row};
use crate::title::{Task, task_of};
use r10_machine::{Event, Reply};
use r10_script::{Script, read_script};
use std::alloc::{AllocError, Global};

/// Makes each trial of the input in turn, and adds its title and what it came to, and at the end what all together came to.
pub fn try_all(alloc: Global, input: &str, text: &mut String) -> Result<(), TrialFault> {
    let Some(trials) = input.strip_prefix("== ") else {
        return Err(TrialFault::NoTrial { place: 1 });
    };
    let mut whole = [0; 15];
    let mut place: usize = 0;
    for lines in trials.split("\n== ") {
        place = place.saturating_add(1);
        try_one(alloc, place, lines, &mut whole, text)?;
    }
    push_row(alloc, "all trials", &whole, text);
    Ok(())
}

/// Makes the trial in this place, from 1, and adds its title and what it came to.
fn try_one(
    alloc: Global,
    place: usize,
    lines: &str,
    whole: &mut Counts,
    text: &mut String,
) -> Result<(), TrialFault> {
    let Some((title, script)) = lines.split_once('\n') else {
        return Err(TrialFault::NoTrial { place });
    };
    let Some(task) = task_of(title) else {
        return Err(TrialFault::NoTrial { place });
    };
    match read_script(alloc, script.as_bytes()) {
        Ok(script) => match try_script(alloc, script, title, &task, whole, text) {
            Ok(()) => Ok(()),
            Err(_) => Err(TrialFault::Memory),
        },
        Err(fault) => {
            if let Ok(line) = format!(in alloc; "{title}: {fault}\n") {
                let _ = text.push_str(line.as_str());
            }
            Err(TrialFault::NoTrial { place })
        }
    }
}

/// Adds the title of a trial and what it came to with this script. A recorder that another one follows has the first so many steps,
/// on a formatted medium. Any other has those after them, on the medium that these leave, with a status at its end.
fn try_script(
    alloc: Global,
    script: Script,
    title: &str,
    task: &Task<'_>,
    whole: &mut Counts,
    text: &mut String,
) -> Result<(), AllocError> {
    let mut script = script;
    for part in &["== ", title, "\n"] {
        let _ = text.push_str(part);
    }
    let is_followed = matches!(task.act, "fails" | "stops" | "spoils" | "judges");
    if !is_followed {
        script.events.push(Event::Status)?;
    }
    let events = script.events.as_slice();
    let (first, rest) = events.split_at(task.first.min(events.len()));
    let (done, steps) = if is_followed {
        (&events[..0], first)
    } else {
        (first, rest)
    };
    let image = image_recorded(alloc, &script.settings, done)?;
    let mut replies = Vec::new(alloc);
    let _image = image_behind(
        alloc,
        &script.settings,
        image.as_slice(),
        steps,
        &mut replies,
    )?;
    let course = Course {
        settings: &script.settings,
        image: image.as_slice(),
        events: steps,
        replies: replies.as_slice(),
        rest,
    };
    try_task(alloc, task, &course, whole, text)
}

/// Adds the lines of what a task came to.
fn try_task(
    alloc: Global,
    task: &Task<'_>,
    course: &Course<'_>,
    whole: &mut Counts,
    text: &mut String,
) -> Result<(), AllocError> {
    let number = u64::from(task.number);
    match task.act {
        "each" => push_each(alloc, course, number, whole, text),
        "fails" => fail_at(alloc, course, number, text),
        "stops" => stop_after(alloc, course, number, text),
        "spoils" => spoil_byte(alloc, course, task.place, (number % 256) as u8, text),
        "judges" => judge_spoilt(alloc, course, task.place, (number % 256) as u8, text),
        _ => {
            let _ = text.push_str("no such trial\n");
            Ok(())
        }
    }
}

/// Tries each call of a course after the first so many, adds the lines of each word of a step, and of all, and what all came to to
/// the whole.
fn push_each(
    alloc: Global,
    course: &Course<'_>,
    calls: u64,
    whole: &mut Counts,
    text: &mut String,
) -> Result<(), AllocError> {
    let mut rows = Vec::new(alloc);
    try_each(alloc, course, calls, &mut rows)?;
    push_rows(alloc, course.replies, rows.as_slice(), whole, text);
    Ok(())
}

/// Adds the line of a course with these replies, and the lines of these rows, and of all in one.
fn push_rows(
    alloc: Global,
    replies: &[Reply],
    rows: &[Row],
    whole: &mut Counts,
    text: &mut String,
) {
    let mut refused = 0u64;
    for reply in replies {
        if let Reply::Refused(_) = reply {
            refused = refused.saturating_add(1);
        }
    }
    push_number(alloc, replies.len() as u64, " steps, ", text);
    let behind = " of them refused over a medium that never fails\n";
    push_number(alloc, refused, behind, text);
    let mut all = [0; 15];
    for (word, row) in rows {
        push_row(alloc, word, row, text);
        join(&mut all, row);
    }
    join(whole, &all);
    push_row(alloc, "all", &all, text);
}
