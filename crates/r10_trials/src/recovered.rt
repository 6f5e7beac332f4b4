//! What a new recorder finds on a medium.

use crate::apparatus::{Apparatus, LAST, over};
use crate::medium_content::judged_on;
use crate::notes::Notes;
use crate::standing::CHANNELS;
use r10_body::{Entry, Refusal};
use r10_control::Recorder;
use r10_count::Items;
use r10_medium::{Faulty, Memory};
use r10_port::Outlet;
use std::alloc::{AllocError, Global};

/// Mounts the medium and closes a file that was cut off, if there is one.
fn seal_last(recorder: &mut Recorder<Faulty<Memory>, Outlet>) -> Result<(), Refusal> {
    recorder.mount()?;
    match recorder.seal() {
        Ok(()) | Err(Refusal::NoSuchFile) => recorder.dismount(),
        Err(refusal) => Err(refusal),
    }
}

/// Seals the last file, mounts the medium anew, and adds the messages of all files.
fn seal_and_read(
    alloc: Global,
    recorder: &mut Recorder<Faulty<Memory>, Outlet>,
    entries: &mut Vec<Entry>,
) -> Result<(), Refusal> {
    seal_last(recorder)?;
    recorder.mount()?;
    let files = recorder.files()?.len();
    for file in 0..files {
        let Ok(channels) = Vec::from_slice(alloc, &CHANNELS) else {
            return Err(Refusal::OutOfMemory);
        };
        let mut cursor = recorder.cursor(file, Items::of(channels), 0, LAST)?;
        recorder.advance(&mut cursor)?;
        let Ok(()) = entries.append(&mut cursor.rest(alloc)) else {
            return Err(Refusal::OutOfMemory);
        };
    }
    Ok(())
}

/// What a new recorder finds on a medium, once it has closed a file that was cut off: the messages of both channels, in the order
/// of the files, which are to be strict.
pub fn found_on(
    alloc: Global,
    medium: &Memory,
    notes: &mut Notes,
) -> Result<Vec<Entry>, AllocError> {
    let image = medium.image(alloc)?;
    let Apparatus { recorder, .. } = over(alloc, image.as_slice(), 0)?;
    let mut recorder = recorder;
    let mut entries = Vec::new(alloc);
    let found = seal_and_read(alloc, &mut recorder, &mut entries);
    notes.want(found.is_ok(), "a new recorder was refused");
    let image = recorder.into_medium().into_medium().image(alloc)?;
    let (files, strict) = judged_on(alloc, image.as_slice())?;
    notes.want(files == strict, "a file is not strict");
    Ok(entries)
}
