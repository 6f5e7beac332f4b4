//! Recorders over media in memory. A medium of another size than the settings say, which no caller has, counts as refused memory.

use r10_machine::{Event, Reply, Settings};
use r10_medium::{BlockMedium, Choice, Crashing, Memory};
use r10_world::{format_and_record, record_all};
use std::alloc::{AllocError, Global};

/// The same settings once more.
fn copy_of(alloc: Global, settings: &Settings) -> Result<Settings, AllocError> {
    let volume = Vec::from_slice(alloc, settings.volume())?;
    let channels = Vec::from_slice(alloc, settings.channels())?;
    let copy = Settings::of(
        settings.blocks(),
        settings.directory(),
        volume,
        settings.nodes(),
        settings.time(),
        settings.event(),
        channels,
    );
    copy.ok().ok_or(AllocError)
}

/// A medium that reads as these bytes, which are whole blocks.
pub fn medium_of(alloc: Global, image: &[u8]) -> Result<Memory, AllocError> {
    if image.len() % 512 != 0 {
        return Err(AllocError);
    }
    Memory::of_image(alloc, image)
}

/// Tells events to a new recorder over this medium, adds what it answers, and gives the medium after them.
pub fn run_events<M: BlockMedium + Drop>(
    alloc: Global,
    settings: &Settings,
    medium: M,
    events: &[Event],
    replies: &mut Vec<Reply>,
) -> Result<M, AllocError> {
    let settings = copy_of(alloc, settings)?;
    if medium.blocks() != settings.blocks() {
        return Err(AllocError);
    }
    match record_all(alloc, settings, medium, events, replies) {
        Ok((done, medium)) if done == events.len() => Ok(medium),
        _ => Err(AllocError),
    }
}

/// The bytes that a new recorder leaves after events, on a medium of these bytes that never fails. Its replies are added.
pub fn image_behind(
    alloc: Global,
    settings: &Settings,
    image: &[u8],
    events: &[Event],
    replies: &mut Vec<Reply>,
) -> Result<Vec<u8>, AllocError> {
    let medium = medium_of(alloc, image)?;
    let medium = run_events(alloc, settings, medium, events, replies)?;
    medium.image(alloc)
}

/// The bytes that a new recorder leaves after events, on a medium that was formatted for it and never fails.
pub fn image_recorded(
    alloc: Global,
    settings: &Settings,
    events: &[Event],
) -> Result<Vec<u8>, AllocError> {
    let settings = copy_of(alloc, settings)?;
    let medium = Memory::new(alloc, settings.blocks())?;
    let mut replies = Vec::new(alloc);
    match format_and_record(alloc, settings, medium, events, &mut replies) {
        Ok((done, medium)) if done == events.len() => medium.image(alloc),
        _ => Err(AllocError),
    }
}

/// The bytes of an image that a power loss may leave.
pub fn image_left(alloc: Global, medium: &Crashing, choice: Choice) -> Result<Vec<u8>, AllocError> {
    let left = medium.image(alloc, choice)?;
    left.image(alloc)
}
