//! Entries of one length that stand first.

ghost use Rattle.std.specs.Prelude.{◌≡◌, ◌++◌, ◌^◌, ◌<◌, ℕ, List, length, IfSome, IfNone};
ghost use Rattle.r10_count.specs.Bytes.{le_bytes};
ghost use Rattle.r10_count.specs.Count.{IsCount, stamp};

use r10_count::{Count, split_u32};

/// The header and the word of the ARINC 429 word that stands first, and what stands after it.
#[inline(always)]
pub(crate) fn split_word(bytes: &[u8]) -> Option<(u32, u32, &[u8])>
    ensures found { IfSome result (λ x. bytes.now ≡ le_bytes 4 x.0 ++ le_bytes 4 x.1 ++ x.2.now) }
    ensures none { IfNone result (length bytes.now < 8) }
{
    if bytes.len() < 8 {
        return None;
    }
    let Some((header, rest)) = split_u32(bytes) else {
        return None;
    };
    let Some((word, rest)) = split_u32(rest) else {
        return None;
    };
    Some((header, word, rest))
}

/// A change of discretes, and what stands after it.
#[derive(Clone, Copy)]
pub(crate) struct Change<'a> {
    pub(crate) count: Count,
    pub(crate) states: u32,
    /// What stands after the change.
    pub(crate) rest: &'a [u8],
}

/// The stamp and the states of the change of discretes that stands first, and what stands after it.
#[inline(always)]
pub(crate) fn split_states(bytes: &[u8]) -> Option<Change<'_>>
    ensures found { IfSome result (λ c. bytes.now ≡ stamp c.count ++ le_bytes 4 c.states ++ c.rest.now) }
    ensures none { IfNone result ((count states : ℕ) (rest : List ℕ) → IsCount count → states < 2 ^ 32
        → bytes.now ≡ stamp count ++ le_bytes 4 states ++ rest → ⊥) }
{
    if bytes.len() < 12 {
        return None;
    }
    let Some((count, rest)) = Count::of_stamp(bytes) else {
        return None;
    };
    let Some((states, rest)) = split_u32(rest) else {
        return None;
    };
    Some(Change {
        count,
        states,
        rest,
    })
}
