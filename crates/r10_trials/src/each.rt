//! A stop after each call of the medium, and a failure of each.

use crate::course::{Course, run_to_failure, run_to_stop};
use crate::medium_content::{MediumContent, content_of, judged_on};
use crate::scene::{image_behind, image_left};
use crate::tally::{
    CALLS, Counts, DATA, DIRECTORY, FAILED, FILES, IMAGES, Row, STOPPED, STRICT, WRONG, place_in,
    raise, word_of,
};
use r10_body::Refusal;
use r10_machine::{Event, Mode, Reply};
use r10_medium::{BlockMedium, Choice, Crashing};
use std::alloc::{AllocError, Global};

/// More calls of the medium than any run here makes.
const MOST: u64 = 10_000;

const CHOICES: [Choice; 4] = [
    Choice::Synced,
    Choice::Read,
    Choice::LowestSynced,
    Choice::LowestRead,
];

/// What is known when a call more is stopped.
#[derive(Drop)]
struct StopWalk {
    /// The place of the step that the call before met.
    place: usize,
    /// What a new recorder finds before that step and after it, on a medium that never fails.
    before: MediumContent,
    behind: MediumContent,
    /// What was read after the calls before; nothing before the first.
    image: Vec<u8>,
    /// The place of the row of the last of these calls.
    row: usize,
}

/// Stops the course after so many calls, and after each one more, and has each call after the first so many fail. It adds a row
/// for each word of a step that calls the medium.
pub fn try_each(
    alloc: Global,
    course: &Course<'_>,
    from: u64,
    rows: &mut Vec<Row>,
) -> Result<(), AllocError> {
    let mut walk = StopWalk {
        place: usize::MAX,
        before: MediumContent::nothing(alloc),
        behind: MediumContent::nothing(alloc),
        image: Vec::new(alloc),
        row: 0,
    };
    for calls in from..MOST {
        if is_over_after(alloc, course, calls, &mut walk, rows)? {
            return Ok(());
        }
    }
    raise_in(rows.as_mut_slice(), 0, WRONG);
    Ok(())
}

/// One more of a kind in the row in this place.
fn raise_in(rows: &mut [Row], place: usize, kind: usize) {
    if let Some(row) = rows.get_mut(place) {
        raise(&mut row.1, kind, 1);
    }
}

/// Stops the course after so many calls, and has the one after them fail. It answers whether the course has no more.
fn is_over_after(
    alloc: Global,
    course: &Course<'_>,
    calls: u64,
    walk: &mut StopWalk,
    rows: &mut Vec<Row>,
) -> Result<bool, AllocError> {
    let mut replies = Vec::new(alloc);
    let medium = run_to_stop(alloc, course, calls, &mut replies)?;
    add_stop(
        alloc,
        course,
        calls,
        replies.as_slice(),
        &medium,
        walk,
        rows,
    )
}

/// Counts what the last call changed, and a stop after it and a failure of the call that is next. It answers whether there is
/// none.
fn add_stop(
    alloc: Global,
    course: &Course<'_>,
    calls: u64,
    replies: &[Reply],
    medium: &Crashing,
    walk: &mut StopWalk,
    rows: &mut Vec<Row>,
) -> Result<bool, AllocError> {
    let image = image_left(alloc, medium, Choice::Read)?;
    if let Some(block) = changed_block(walk.image.as_slice(), image.as_slice()) {
        let is_directory = block <= course.settings.directory();
        let kind = if is_directory { DIRECTORY } else { DATA };
        raise_in(rows.as_mut_slice(), walk.row, kind);
    }
    walk.image = image;
    let Some(place) = failed_at(replies) else {
        return Ok(true);
    };
    let Some(event) = course.events.get(place) else {
        return Ok(true);
    };
    if walk.place != place {
        walk.place = place;
        walk.before = content_behind(alloc, course, place)?;
        walk.behind = content_behind(alloc, course, place.saturating_add(1))?;
    }
    walk.row = place_in(rows, word_of(event))?;
    match rows.get_mut(walk.row) {
        Some(row) => {
            note_stop(alloc, &mut row.1, course, replies, medium, walk)?;
            note_failure(alloc, &mut row.1, course, walk, calls.saturating_add(1))?;
            Ok(false)
        }
        None => Ok(true),
    }
}

/// What a new recorder finds after the first so many steps.
fn content_behind(
    alloc: Global,
    course: &Course<'_>,
    steps: usize,
) -> Result<MediumContent, AllocError> {
    let events = &course.events[..steps.min(course.events.len())];
    let mut replies = Vec::new(alloc);
    let image = image_behind(alloc, course.settings, course.image, events, &mut replies)?;
    content_of(alloc, course.settings, image.as_slice())
}

/// The place of the first reply that says Medium.
fn failed_at(replies: &[Reply]) -> Option<usize> {
    for (place, reply) in replies.iter().enumerate() {
        if matches!(reply, Reply::Refused(Refusal::Medium)) {
            return Some(place);
        }
    }
    None
}

/// The number of the first block that differs.
pub fn changed_block(old: &[u8], new: &[u8]) -> Option<usize> {
    for (place, byte) in old.iter().enumerate() {
        if let Some(other) = new.get(place) {
            if *other != *byte {
                return Some(place / 512);
            }
        }
    }
    None
}

/// Counts a run with other replies than those of the step in this place that met a failure.
fn note_replies(row: &mut Counts, course: &Course<'_>, replies: &[Reply], failed: usize) {
    let mut right = replies.len() == course.events.len();
    for (place, reply) in replies.iter().enumerate() {
        right = right && is_right(course, place, reply, failed);
    }
    if !right {
        raise(row, WRONG, 1);
    }
}

/// Whether the step in this place may answer so where that in another place met a failure. A recorder that failed answers offers,
/// losses, and what a cursor has queued, as before.
fn is_right(course: &Course<'_>, place: usize, reply: &Reply, failed: usize) -> bool {
    if place < failed {
        return match course.replies.get(place) {
            Some(wanted) => *reply == *wanted,
            None => false,
        };
    }
    if place == failed {
        return matches!(reply, Reply::Refused(Refusal::Medium));
    }
    match course.events.get(place) {
        Some(Event::Offer { .. } | Event::Lose { .. } | Event::Next { .. } | Event::Close { .. }) =>
            { true }
        Some(Event::Status) => match reply {
            Reply::Status(status) => status.mode == Mode::Failed,
            _ => false,
        },
        _ => matches!(reply, Reply::Refused(Refusal::Failed)),
    }
}

/// Counts a stop: its replies, and what is found on each image that it may leave.
fn note_stop(
    alloc: Global,
    row: &mut Counts,
    course: &Course<'_>,
    replies: &[Reply],
    medium: &Crashing,
    walk: &StopWalk,
) -> Result<(), AllocError> {
    raise(row, CALLS, 1);
    note_replies(row, course, replies, walk.place);
    for choice in &CHOICES {
        let image = image_left(alloc, medium, *choice)?;
        let (files, strict) = note_image(alloc, row, STOPPED, course, walk, image.as_slice())?;
        raise(row, IMAGES, 1);
        raise(row, FILES, files);
        raise(row, STRICT, strict);
    }
    Ok(())
}

/// Has the call of this number fail, from 1, and counts what is found on the medium then, whose files are to be strict.
fn note_failure(
    alloc: Global,
    row: &mut Counts,
    course: &Course<'_>,
    walk: &StopWalk,
    call: u64,
) -> Result<(), AllocError> {
    let mut replies = Vec::new(alloc);
    let medium = run_to_failure(alloc, course, call, &mut replies)?;
    note_replies(row, course, replies.as_slice(), walk.place);
    let failures = medium.failures();
    let image = medium.into_medium().image(alloc)?;
    let (files, strict) = note_image(alloc, row, FAILED, course, walk, image.as_slice())?;
    if failures != 1 || files != strict {
        raise(row, WRONG, 1);
    }
    Ok(())
}

/// Counts what a new recorder finds on an image, from this kind on. It answers how many files are on it, and how many are strict.
fn note_image(
    alloc: Global,
    row: &mut Counts,
    first: usize,
    course: &Course<'_>,
    walk: &StopWalk,
    image: &[u8],
) -> Result<(u64, u64), AllocError> {
    let found = content_of(alloc, course.settings, image)?;
    let kind = match (found.is(&walk.before), found.is(&walk.behind)) {
        (true, false) => 0,
        (false, true) => 1,
        (true, true) => 2,
        (false, false) => 3,
    };
    raise(row, first.saturating_add(kind), 1);
    judged_on(alloc, image)
}
