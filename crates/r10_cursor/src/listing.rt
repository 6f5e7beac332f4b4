//! Files by number.

ghost use Rattle.std.specs.Prelude.{◌≡◌, slice_get};
ghost use Rattle.r10_dirchain.specs.Chain.{listed_files};
ghost use Rattle.r10_cursor.specs.Files.{finished_file};

use crate::written::Written;
use r10_dirblock::Entry;
use r10_dirchain::Directory;

/// The directory's entry of a file, by the file's number; `None` where there are not so many files.
pub fn entry_at(directory: &Directory, file: usize) -> Option<Entry>
    ensures { result ≡ slice_get (listed_files directory.now) file }
{
    let mut left = file;
    for link in directory.blocks() {
        let entries = link.block.entries.as_slice();
        if left < entries.len() {
            return Some(entries[left]);
        }
        left -= entries.len();
    }
    None
}

/// The entry of a file that isn't being written.
pub(crate) fn finished_entry(
    directory: &Directory,
    written: Option<Written<'_>>,
    file: usize,
) -> Option<Entry>
    ensures { result ≡ finished_file written.entry directory.now file }
{
    if let Some(w) = written {
        if w.file <= file {
            return None;
        }
    }
    entry_at(directory, file)
}
