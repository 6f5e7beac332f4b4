//! What a medium shows.

use crate::scene::{image_behind, medium_of};
use r10_body::Refusal;
use r10_checker::{Verdict, check_medium};
use r10_dirchain::{ChainError, ListedFile, read_chain};
use r10_machine::{Event, Reply, Settings};
use r10_medium::BlockMedium;
use std::alloc::{AllocError, Global};

/// What a new recorder finds on a medium.
#[derive(Drop)]
pub struct MediumContent {
    /// The replies to a mount and a listing.
    pub replies: Vec<Reply>,
    /// The bytes of the listed files, end to end.
    pub bytes: Vec<u8>,
}

impl MediumContent {
    /// Nothing.
    pub fn nothing(alloc: Global) -> MediumContent {
        MediumContent {
            replies: Vec::new(alloc),
            bytes: Vec::new(alloc),
        }
    }

    /// Whether the same is found on another medium.
    pub fn is(&self, other: &MediumContent) -> bool {
        *self.replies.as_slice() == *other.replies.as_slice()
            && *self.bytes.as_slice() == *other.bytes.as_slice()
    }
}

/// What a new recorder finds on a medium of these bytes.
pub fn content_of(
    alloc: Global,
    settings: &Settings,
    image: &[u8],
) -> Result<MediumContent, AllocError> {
    let mut content = MediumContent::nothing(alloc);
    push_files(alloc, image, &mut content.bytes)?;
    let events = [Event::Mount, Event::Files];
    let _image = image_behind(alloc, settings, image, &events, &mut content.replies)?;
    Ok(content)
}

/// Adds the bytes of the listed files, none where there is no directory.
fn push_files(alloc: Global, image: &[u8], bytes: &mut Vec<u8>) -> Result<(), AllocError> {
    let mut medium = medium_of(alloc, image)?;
    match read_chain(alloc, &mut medium) {
        Ok(directory) => {
            for file in &directory.listing(alloc)? {
                bytes.extend_from_slice(file_bytes(file, image))?;
            }
            Ok(())
        }
        Err(ChainError::OutOfMemory) => Err(AllocError),
        Err(_) => Ok(()),
    }
}

/// The bytes of one file, none where they don't lie inside the medium.
fn file_bytes<'a>(file: &ListedFile, image: &'a [u8]) -> &'a [u8] {
    let from = file.entry.first_block.saturating_mul(512);
    let to = from.saturating_add(file.entry.size);
    if to <= image.len() as u64 {
        &image[from as usize..to as usize]
    } else {
        &[]
    }
}

/// How many files there are on a medium of these bytes, and how many are strict. A directory at fault counts as one file that is
/// not.
pub fn judged_on(alloc: Global, image: &[u8]) -> Result<(u64, u64), AllocError> {
    match judge(alloc, &mut medium_of(alloc, image)?) {
        Ok(counts) => Ok(counts),
        Err(Refusal::OutOfMemory) => Err(AllocError),
        Err(_) => Ok((1, 0)),
    }
}

/// How many files there are on a medium, and how many are strict, or what the judgement was refused for.
pub fn judge<M: BlockMedium>(alloc: Global, medium: &mut M) -> Result<(u64, u64), Refusal> {
    let files = check_medium(alloc, medium)?;
    let mut strict = 0u64;
    for file in &files {
        if file.verdict == Verdict::Strict {
            strict = strict.saturating_add(1);
        }
    }
    Ok((files.len() as u64, strict))
}
