//! Entries as the writer spells them.

ghost use Rattle.std.specs.Prelude.{◌≡◌, List, IfOk, IfSome};
ghost use Rattle.r10_count.specs.Form.{IsSpelled};

use crate::Items;
use crate::entry::BodyEntry;
use crate::split::first_entry;
use std::alloc::{AllocError, Global};

/// The entries that the writer spells with these bytes after an entry at a count, if there are such.
pub fn read_entries<E: BodyEntry + Drop>(
    alloc: Global,
    before: u64,
    bytes: &[u8],
) -> Result<Option<Items<E>>, AllocError>
    ensures found { IfOk result (λ read. IfSome read (λ entries. IsSpelled E.form before entries bytes.now)) }
    ensures only { (entries : List E) → IsSpelled E.form before entries bytes.now → IfOk result (λ read. read ≡ Some entries) }
{
    let mut entries = Vec::new(alloc);
    let mut rest = bytes;
    let mut count = before;
    while !rest.is_empty() {
        let Some((first, after)) = first_entry::<E>(rest) else {
            return Ok(None);
        };
        let Some(entry) = E::read(alloc, count, first)? else {
            return Ok(None);
        };
        count = entry.count();
        rest = after;
        entries.push(entry)?;
    }
    Ok(Some(Items::of(entries)))
}
