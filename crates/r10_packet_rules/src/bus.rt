//! The entry of a bus message that stands first: a stamp, the block status, the gap times, the number of bytes that its words have,
//! and the words.

ghost use Rattle.std.specs.Prelude.{◌≡◌, ◌++◌, ◌^◌, ◌<◌, ℕ, List, length, slice_index, IfSome, IfNone};
ghost use Rattle.r10_count.specs.Bytes.{le_bytes};
ghost use Rattle.r10_count.specs.Count.{IsCount, stamp};

use r10_count::{Count, split_u16};

/// What stands in front of the words of a bus message, and after them.
#[derive(Clone, Copy)]
pub(crate) struct BusFront<'a> {
    pub(crate) count: Count,
    pub(crate) status: u16,
    pub(crate) gap: u16,
    /// How many bytes the words have.
    pub(crate) size: u16,
    /// What stands after the words.
    pub(crate) rest: &'a [u8],
}

/// What stands in front of the words of the message that stands first, and after them.
#[inline(always)]
pub(crate) fn split_bus(bytes: &[u8]) -> Option<BusFront<'_>>
    ensures found { IfSome result (λ f. (words : List ℕ) × (length words ≡ f.size) × ((i : ℕ) → slice_index words i < 2 ^ 8)
        × (bytes.now ≡ stamp f.count ++ le_bytes 2 f.status ++ le_bytes 2 f.gap ++ le_bytes 2 f.size ++ words ++ f.rest.now)) }
    ensures none { IfNone result ((count status gap size : ℕ) (words rest : List ℕ)
        → IsCount count → status < 2 ^ 16 → gap < 2 ^ 16 → size < 2 ^ 16 → length words ≡ size
        → bytes.now ≡ stamp count ++ le_bytes 2 status ++ le_bytes 2 gap ++ le_bytes 2 size ++ words ++ rest → ⊥) }
{
    if bytes.len() < 14 {
        return None;
    }
    let Some((count, rest)) = Count::of_stamp(bytes) else {
        return None;
    };
    let Some((status, rest)) = split_u16(rest) else {
        return None;
    };
    let Some((gap, rest)) = split_u16(rest) else {
        return None;
    };
    let Some((size, rest)) = split_u16(rest) else {
        return None;
    };
    if rest.len() < usize::from(size) {
        return None;
    }
    let (_words, rest) = rest.split_at(usize::from(size));
    Some(BusFront {
        count,
        status,
        gap,
        size,
        rest,
    })
}
