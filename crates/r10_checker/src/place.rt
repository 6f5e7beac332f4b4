//! Where files lie.

ghost use Rattle.std.specs.Prelude.{◌≡◌, ◌+◌, ◌*◌, ◌<◌, ◌≤◌, ◌^◌, true, map, IfNone, IfSome};
ghost use Rattle.r10_count.specs.Checks.{first_broken};
ghost use Rattle.r10_dirblock.specs.Block.{has_room_for_size};
ghost use Rattle.r10_checker.specs.Place.{inside_rule, is_inside};

use r10_dirblock::Entry;
use r10_dirchain::ListedFile;
use r10_judge::Extent;

/// How many bytes of a file can be read: more than any medium has.
const MOST_BYTES: u64 = 1 << 62;

/// Whether a file's blocks lie inside a medium of so many.
pub fn is_inside(entry: &Entry, blocks: usize) -> bool
    ensures { result ≡ is_inside blocks entry.now }
{
    u128::from(entry.first_block) + u128::from(entry.block_count) <= blocks as u128
}

/// The number of the block that lists the first file which does not lie inside a medium of so many blocks.
pub(crate) fn first_outside(files: &[ListedFile], blocks: usize) -> Option<u64>
    ensures { result ≡ first_broken (map (inside_rule blocks) files.now) }
{
    for file in files {
        if !is_inside(&file.entry, blocks) {
            return Some(file.number);
        }
    }
    None
}

/// Where a file stands that lies inside its medium. `None` for one of more bytes than any medium has.
pub fn extent_of(entry: &Entry) -> Option<Extent>
    ensures fields { IfSome result (λ extent. extent ≡ record { first = entry.now.first_block; size = entry.now.size }) }
    ensures size { IfSome result (λ extent. extent.size ≤ 2 ^ 62) }
    ensures none { IfNone result (2 ^ 62 < entry.now.size) }
{
    if entry.size > MOST_BYTES {
        return None;
    }
    Some(Extent {
        first: entry.first_block as usize,
        size: entry.size as usize,
    })
}
