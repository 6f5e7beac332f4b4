//! The entries of index packets, which are only separated where they stand.

ghost use Rattle.std.specs.Prelude.{◌≡◌, ◌↔◌, ◌++◌, ℕ, List, length, IfSome, IfNone, IsTrue};
ghost use Rattle.r10_count.specs.Form.{IsBody};
ghost use Rattle.r10_packet_rules.specs.Glance.{AreEntries, StandsFirst};

use r10_count::{BodyEntry, Count, split_u32, split_u64};
use r10_indexbody::{NodeEntry, RootEntry};

/// The word of a node's entry is below this number: a data type of 8 bits stands above a channel ID of 16.
const WORD_END: u32 = 0x100_0000;

/// An entry of a body that is spelled alike in any body, whatever stands before it.
pub(crate) trait PlainEntry: BodyEntry {
    /// The bytes after the entry that stands first, if the writer spells one so.
    fn behind(bytes: &[u8]) -> Option<&[u8]>
        ensures found { IfSome result (λ rest. (e : Self) × StandsFirst Self.form e bytes.now rest.now) }
        ensures none { IfNone result ((before : ℕ) (e : Self) (rest : List ℕ) → Self.form.Fits before e
            → bytes.now ≡ Self.form.spelled before e ++ rest → ⊥) };
}

impl PlainEntry for NodeEntry {
    #[inline(always)]
    fn behind(bytes: &[u8]) -> Option<&[u8]> {
        if bytes.len() < 20 {
            return None;
        }
        let Some((_counter, rest)) = Count::of_stamp(bytes) else {
            return None;
        };
        let Some((packet, rest)) = split_u32(rest) else {
            return None;
        };
        if packet >= WORD_END {
            return None;
        }
        let Some((_offset, rest)) = split_u64(rest) else {
            return None;
        };
        Some(rest)
    }
}

impl PlainEntry for RootEntry {
    #[inline(always)]
    fn behind(bytes: &[u8]) -> Option<&[u8]> {
        if bytes.len() < 16 {
            return None;
        }
        let Some((_counter, rest)) = Count::of_stamp(bytes) else {
            return None;
        };
        let Some((_offset, rest)) = split_u64(rest) else {
            return None;
        };
        Some(rest)
    }
}

/// How many entries the writer makes these bytes of, after the word of a body, if there are such. It is a function of its own in
/// the program too.
#[inline(never)]
fn count_standing<E: PlainEntry>(bytes: &[u8]) -> Option<usize>
    ensures found { IfSome result (λ n. (entries : List E) × AreEntries E.form 0 0 entries bytes.now × (n ≡ length entries)) }
    ensures none { IfNone result ((entries : List E) → AreEntries E.form 0 0 entries bytes.now → ⊥) }
{
    let Some(behind) = E::behind(bytes) else {
        return None;
    };
    let mut rest = behind;
    let mut count = 1;
    while let Some(after) = E::behind(rest) {
        rest = after;
        count += 1;
    }
    if !rest.is_empty() {
        return None;
    }
    Some(count)
}

/// Whether the writer makes the body of some entries.
pub(crate) fn is_body<E: PlainEntry>(body: &[u8]) -> bool
    ensures { IsTrue result ↔ ((entries : List E) × IsBody E.form 0 0 entries body.now) }
{
    let Some((word, rest)) = split_u32(body) else {
        return false;
    };
    let Some(count) = count_standing::<E>(rest) else {
        return false;
    };
    if word != E::word(0, count) {
        return false;
    }
    E::agrees(word, count)
}
