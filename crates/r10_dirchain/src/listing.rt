// What a directory lists.
ghost use Rattle.std.specs.Prelude.{◌≡◌, ◌-◌, ◌^◌, None, length, min};
ghost use Rattle.std.specs.List.{last_or};
ghost use Rattle.r10_dirchain.specs.Chain.{listed_files};

use crate::Directory;
use r10_dirblock::Entry;

/// How many files there are.
pub fn count(directory: &Directory) -> usize
    ensures { result ≡ min (length (listed_files directory.now)) (2 ^ 64 - 1) }
{
    let mut files = 0_usize;
    for link in directory.blocks() {
        files = files.saturating_add(link.block.entries.len());
    }
    files
}

/// The last file's entry.
pub fn last_file(directory: &Directory) -> Option<Entry>
    ensures { result ≡ last_or None (listed_files directory.now) }
{
    let mut last = None;
    for link in directory.blocks() {
        if let Some(entry) = link.block.entries.as_slice().last() {
            last = Some(*entry);
        }
    }
    last
}
