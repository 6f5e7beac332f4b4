//! One stop, or one failure, and what a new recorder answers then.

use crate::course::{Course, run_to_failure, run_to_stop};
use crate::each::changed_block;
use crate::medium_content::judge;
use crate::scene::{image_behind, image_left, medium_of};
use crate::tally::push_number;
use r10_body::Refusal;
use r10_machine::Reply;
use r10_medium::{BlockMedium, Choice, Faulty};
use r10_text::reply_lines;
use std::alloc::{AllocError, Global};

/// More calls of the medium than any judgement here makes.
const MOST: u64 = 1000;

/// What a power loss may leave, and the lines before what a new recorder does on it.
const LEFT: [(Choice, &str); 4] = [
    (Choice::Synced, "a new recorder, on what was synced\n"),
    (Choice::Read, "a new recorder, on what was read\n"),
    (
        Choice::LowestSynced,
        "a new recorder, on what was read but for the lowest block\n",
    ),
    (
        Choice::LowestRead,
        "a new recorder, on what was synced but for the lowest block\n",
    ),
];

/// Adds the lines of replies, of which the first is to the step after the first `done` ones; none of one to whose lines memory is
/// refused.
fn push_replies(alloc: Global, done: usize, replies: &[Reply], text: &mut String) {
    let mut number = done;
    for reply in replies {
        number = number.saturating_add(1);
        if let Ok(lines) = reply_lines(alloc, number, reply) {
            let _ = text.push_str(lines.as_str());
        }
    }
}

/// Adds the line that says what the call of this number changes, counted from 1.
fn push_call(
    alloc: Global,
    course: &Course<'_>,
    call: u64,
    text: &mut String,
) -> Result<(), AllocError> {
    let before = image_after(alloc, course, call.saturating_sub(1))?;
    let behind = image_after(alloc, course, call)?;
    let _ = text.push_str("call ");
    match changed_block(before.as_slice(), behind.as_slice()) {
        Some(block) => {
            push_number(alloc, call, " changes block ", text);
            push_number(alloc, block as u64, "\n", text);
        }
        None => push_number(alloc, call, " changes no block\n", text),
    }
    Ok(())
}

/// What is read after so many calls.
fn image_after(alloc: Global, course: &Course<'_>, calls: u64) -> Result<Vec<u8>, AllocError> {
    let mut replies = Vec::new(alloc);
    let medium = run_to_stop(alloc, course, calls, &mut replies)?;
    image_left(alloc, &medium, Choice::Read)
}

/// Adds the lines of a course whose call of this number fails, from 1, and of a new recorder that does the rest on the medium as it
/// stands then.
pub fn fail_at(
    alloc: Global,
    course: &Course<'_>,
    call: u64,
    text: &mut String,
) -> Result<(), AllocError> {
    push_call(alloc, course, call, text)?;
    let mut replies = Vec::new(alloc);
    let medium = run_to_failure(alloc, course, call, &mut replies)?;
    let image = medium.into_medium().image(alloc)?;
    push_replies(alloc, 0, replies.as_slice(), text);
    push_rest(alloc, course, "a new recorder\n", image.as_slice(), text)
}

/// Adds the lines of a course that is stopped after so many calls, and of a new recorder that does the rest on each image that the
/// stop may leave.
pub fn stop_after(
    alloc: Global,
    course: &Course<'_>,
    calls: u64,
    text: &mut String,
) -> Result<(), AllocError> {
    push_call(alloc, course, calls, text)?;
    let mut replies = Vec::new(alloc);
    let medium = run_to_stop(alloc, course, calls, &mut replies)?;
    push_replies(alloc, 0, replies.as_slice(), text);
    for (choice, line) in &LEFT {
        let image = image_left(alloc, &medium, *choice)?;
        push_rest(alloc, course, line, image.as_slice(), text)?;
    }
    Ok(())
}

/// What a course leaves, with another byte in this place; a line where there is no such byte.
fn spoilt_image(
    alloc: Global,
    course: &Course<'_>,
    place: usize,
    byte: u8,
    text: &mut String,
) -> Result<Vec<u8>, AllocError> {
    let (settings, events) = (course.settings, course.events);
    let mut replies = Vec::new(alloc);
    let mut image = image_behind(alloc, settings, course.image, events, &mut replies)?;
    match image.get_mut(place) {
        Some(spoilt) => *spoilt = byte,
        None => {
            let _ = text.push_str("no such byte\n");
        }
    }
    Ok(image)
}

/// Adds the lines of a new recorder that does the rest where one byte of what a course leaves is another.
pub fn spoil_byte(
    alloc: Global,
    course: &Course<'_>,
    place: usize,
    byte: u8,
    text: &mut String,
) -> Result<(), AllocError> {
    let image = spoilt_image(alloc, course, place, byte, text)?;
    push_rest(alloc, course, "", image.as_slice(), text)
}

/// Adds how many files there are where one byte of what a course leaves is another, and how many are strict, or what the judgement
/// is refused for. Then each call of the medium fails once, until none does: how many fail, and how many of these judgements are
/// refused as Medium.
pub fn judge_spoilt(
    alloc: Global,
    course: &Course<'_>,
    place: usize,
    byte: u8,
    text: &mut String,
) -> Result<(), AllocError> {
    let image = spoilt_image(alloc, course, place, byte, text)?;
    match judge(alloc, &mut medium_of(alloc, image.as_slice())?) {
        Ok((files, strict)) => {
            push_number(alloc, strict, " of ", text);
            push_number(alloc, files, " files strict\n", text);
        }
        Err(refusal) => push_replies(alloc, course.events.len(), &[Reply::Refused(refusal)], text),
    }
    let (mut failed, mut reported) = (0u64, 0u64);
    for call in 1..MOST {
        let mut medium = Faulty::new(medium_of(alloc, image.as_slice())?, call);
        let said = judge(alloc, &mut medium);
        if medium.failures() == 0 {
            break;
        }
        failed = failed.saturating_add(1);
        if matches!(said, Err(Refusal::Medium)) {
            reported = reported.saturating_add(1);
        }
    }
    push_number(alloc, failed, " calls fail, ", text);
    push_number(alloc, reported, " are told as Medium\n", text);
    Ok(())
}

/// Adds this line, and those of a new recorder that does the rest on a medium of these bytes.
fn push_rest(
    alloc: Global,
    course: &Course<'_>,
    line: &str,
    image: &[u8],
    text: &mut String,
) -> Result<(), AllocError> {
    let _ = text.push_str(line);
    let mut replies = Vec::new(alloc);
    let _image = image_behind(alloc, course.settings, image, course.rest, &mut replies)?;
    push_replies(alloc, course.events.len(), replies.as_slice(), text);
    Ok(())
}
