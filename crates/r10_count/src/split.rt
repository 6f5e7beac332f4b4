//! Entries separated by their lengths, whoever wrote them.

ghost use Rattle.std.specs.Prelude.{◌≡◌, ◌++◌, ℕ, List, length, IfSome, IfNone};
ghost use Rattle.r10_count.specs.Form.{IsEntryBytes, IsSplit};

use crate::entry::BodyEntry;

/// The bytes of the first entry, and those after it.
#[inline(always)]
pub fn first_entry<E: BodyEntry>(bytes: &[u8]) -> Option<(&[u8], &[u8])>
    ensures some { IfSome result (λ x. IsEntryBytes E.form.front E.form.reported x.0.now × (bytes.now ≡ x.0.now ++ x.1.now)) }
    ensures none { IfNone result
        ((entry rest : List ℕ) → IsEntryBytes E.form.front E.form.reported entry → bytes.now ≡ entry ++ rest → ⊥) }
{
    let front = E::front();
    if bytes.len() < front {
        return None;
    }
    let Some(reported) = E::entry_length(&bytes[..front]) else {
        return None;
    };
    if bytes.len() < reported {
        return None;
    }
    Some(bytes.split_at(reported))
}

/// How many entries the bytes are, if they are entries.
pub fn count_entries<E: BodyEntry>(bytes: &[u8]) -> Option<usize>
    ensures some { IfSome result (λ n. (parts : List (List ℕ)) × IsSplit E.form parts bytes.now × (length parts ≡ n)) }
    ensures only { (parts : List (List ℕ)) → IsSplit E.form parts bytes.now → result ≡ Some (length parts) }
{
    let mut rest = bytes;
    let mut count = 0;
    while !rest.is_empty() {
        let (_, after) = first_entry::<E>(rest)?;
        rest = after;
        count += 1;
    }
    Some(count)
}
