//! Entries written end to end.

ghost use Rattle.r10_count.specs.Append.{Appends};
ghost use Rattle.r10_count.specs.Form.{FitsAll, spelled_all};

use crate::entry::BodyEntry;
use std::alloc::AllocError;

/// Adds the entries after one at a count.
pub fn write_entries<E: BodyEntry>(
    before: u64,
    entries: &[E],
    out: &mut Vec<u8>,
) -> Result<(), AllocError>
    requires { FitsAll E.form before entries.now }
    ensures { Appends (spelled_all E.form before entries.now) out.old out.new result }
{
    let length = out.len();
    let mut count = before;
    for entry in entries {
        if let Err(error) = entry.encode_into(count, out) {
            out.truncate(length);
            return Err(error);
        }
        count = entry.count();
    }
    Ok(())
}
