//! Entries of any recorder, counted where they stand.

ghost use Rattle.std.specs.Prelude.{◌↔◌, IsTrue};
ghost use Rattle.r10_count.specs.Form.{IsForeign};

use r10_count::{BodyEntry, count_entries, split_u32};

/// Whether a body is a word and exactly the entries that go with it.
pub(crate) fn has_entries<E: BodyEntry>(body: &[u8]) -> bool
    ensures { IsTrue result ↔ IsForeign E.form body.now }
{
    let Some((word, rest)) = split_u32(body) else {
        return false;
    };
    let Some(count) = count_entries::<E>(rest) else {
        return false;
    };
    E::agrees(word, count)
}
