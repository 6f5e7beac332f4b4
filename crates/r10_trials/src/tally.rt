//! What was seen, counted.

use r10_machine::Event;
use std::alloc::{AllocError, Global};

/// How often each of the following was seen in the steps of one word, or in all steps.
pub type Counts = [u64; 15];

/// The word of a step, and what was seen in the steps of this word.
pub type Row = (&'static str, Counts);

/// The calls of the medium, each of which was stopped and failed.
pub const CALLS: usize = 0;
/// Those that change a block of the directory.
pub const DIRECTORY: usize = 1;
/// Those that change another block.
pub const DATA: usize = 2;
/// Runs with another answer than is wanted, images with files at fault that a failure left, and runs without an end.
pub const WRONG: usize = 3;
/// The images that the stops left.
pub const IMAGES: usize = 4;
/// What was found on these images, from here on in this order: the files from before the step; those after it; those from before
/// it, which are those after it too; and others.
pub const STOPPED: usize = 5;
/// The files on these images that are strict.
pub const STRICT: usize = 9;
/// The files on these images.
pub const FILES: usize = 10;
/// What was found on the media of which a call failed, in the order of `STOPPED`.
pub const FAILED: usize = 11;

/// What stands after each of the counts.
const LABELS: [&str; 15] = [
    " calls, ",
    " change the directory, ",
    " a file; ",
    " wrong\n  stops: ",
    " images, ",
    " old, ",
    " new, ",
    " same, ",
    " neither; ",
    " of ",
    " files strict\n  failures: ",
    " old, ",
    " new, ",
    " same, ",
    " neither\n",
];

/// So many more of a kind, up to the greatest number.
pub fn raise(counts: &mut Counts, kind: usize, more: u64) {
    if let Some(count) = counts.get_mut(kind) {
        *count = count.saturating_add(more);
    }
}

/// Adds what one row has to the whole.
pub fn join(whole: &mut Counts, row: &Counts) {
    for (kind, number) in row.iter().enumerate() {
        raise(whole, kind, *number);
    }
}

/// Adds the lines of a row under this word.
pub fn push_row(alloc: Global, word: &str, row: &Counts, text: &mut String) {
    let _ = text.push_str(word);
    let _ = text.push_str(": ");
    for (kind, number) in row.iter().enumerate() {
        if let Some(after) = LABELS.get(kind) {
            push_number(alloc, *number, after, text);
        }
    }
}

/// Adds a number, and what stands after it; neither where memory is refused.
pub fn push_number(alloc: Global, number: u64, after: &str, text: &mut String) {
    if let Ok(part) = format!(in alloc; "{number}{after}") {
        let _ = text.push_str(part.as_str());
    }
}

/// The place of a word's row, which is added where there is none.
pub fn place_in(rows: &mut Vec<Row>, word: &'static str) -> Result<usize, AllocError> {
    for (place, row) in rows.iter().enumerate() {
        if row.0 == word {
            return Ok(place);
        }
    }
    let place = rows.len();
    rows.push((word, [0; 15]))?;
    Ok(place)
}

/// The word of a step.
pub fn word_of(event: &Event) -> &'static str {
    match event {
        Event::Mount => "mount",
        Event::Dismount => "dismount",
        Event::Tick { .. } => "tick",
        Event::Start { .. } => "start",
        Event::Offer { .. } => "offer",
        Event::Lose { .. } => "lose",
        Event::Pump { .. } => "pump",
        Event::Event { .. } => "event",
        Event::Commit => "commit",
        Event::Stop => "stop",
        Event::Seal => "seal",
        Event::Erase => "erase",
        Event::Files => "files",
        Event::Status => "status",
        Event::Cursor { .. } => "cursor",
        Event::Advance { .. } => "advance",
        Event::Next { .. } => "next",
        Event::Close { .. } => "close",
        Event::Find { .. } => "find",
        Event::CountAt { .. } => "count_at",
    }
}
