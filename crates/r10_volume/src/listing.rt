//! What a directory tells of its files.

ghost use Rattle.std.specs.Prelude.{◌≡◌, ◌-◌, ◌^◌, map, min, IfOk};
ghost use Rattle.r10_dirchain.specs.Chain.{listed_files};
ghost use Rattle.r10_volume.specs.Listing.{block_behind, has_name, info_in, is_last_closed};

use r10_count::Items;
use r10_dirblock::Entry;
use r10_dirchain::{Directory, last_file};
use r10_machine::FileInfo;
use std::alloc::{AllocError, Global};

/// The files in order, each with its name, size, blocks and whether it is closed.
pub fn list(alloc: Global, directory: &Directory) -> Result<Vec<FileInfo>, AllocError>
    ensures { IfOk result (λ v. v.items ≡ map info_in (listed_files directory.now)) }
{
    let entries = directory.files(alloc)?;
    let mut infos = Vec::new(alloc);
    for entry in &entries {
        infos.push(info_of(alloc, entry)?)?;
    }
    Ok(infos)
}

fn info_of(alloc: Global, entry: &Entry) -> Result<FileInfo, AllocError>
    ensures { IfOk result (λ info. info ≡ info_in entry.now) }
{
    let name = Vec::from_slice(alloc, entry.stripped_name())?;
    Ok(FileInfo {
        name: Items::of(name),
        size: entry.size,
        blocks: entry.block_count,
        closed: entry.is_closed(),
    })
}

/// The first block of a next file: the one after the last file, or after so many reserved ones.
pub fn next_block(directory: &Directory, reserved: usize) -> usize
    ensures { result ≡ min (block_behind reserved (listed_files directory.now)) (2 ^ 64 - 1) }
{
    match last_file(directory) {
        Some(entry) => entry.first_block.saturating_add(entry.block_count) as usize,
        None => reserved.saturating_add(1),
    }
}

/// Whether a file has this name.
pub fn is_taken(directory: &Directory, name: &[u8]) -> bool
    ensures { result ≡ has_name name.now (listed_files directory.now) }
{
    for link in directory.blocks() {
        if has_name(link.block.entries.as_slice(), name) {
            return true;
        }
    }
    false
}

fn has_name(entries: &[Entry], name: &[u8]) -> bool
    ensures { result ≡ has_name name.now entries.now }
{
    entries.iter().any(|entry| entry.stripped_name() == name)
}

/// Whether the last file is closed, or there is none.
pub fn is_sealed(directory: &Directory) -> bool
    ensures { result ≡ is_last_closed (listed_files directory.now) }
{
    match last_file(directory) {
        Some(entry) => entry.is_closed(),
        None => true,
    }
}
