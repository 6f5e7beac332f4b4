//! An entry of bytes that stands first: a stamp, a header that has the number of its bytes in its low half, and the bytes in
//! whole words of two.

ghost use Rattle.std.specs.Prelude.{◌≡◌, ◌++◌, ◌%◌, ◌^◌, ◌<◌, ℕ, List, length, IfSome, IfNone};
ghost use Rattle.r10_count.specs.Bytes.{le_bytes};
ghost use Rattle.r10_count.specs.Count.{IsCount, stamp};
ghost use Rattle.r10_count.specs.Padding.{padded};

use r10_count::{Count, split_u32};

/// So many bytes, and what stands after them and their padding.
#[inline(always)]
fn split_bytes(bytes: &[u8], size: usize) -> Option<(&[u8], &[u8])>
    ensures found { IfSome result (λ x. (length x.0.now ≡ size) × (bytes.now ≡ padded x.0.now ++ x.1.now)) }
    ensures none { IfNone result ((text rest : List ℕ) → length text ≡ size → bytes.now ≡ padded text ++ rest → ⊥) }
{
    if bytes.len() < size {
        return None;
    }
    let (text, behind) = bytes.split_at(size);
    if size % 2 == 0 {
        return Some((text, behind));
    }
    let Some((padding, rest)) = behind.split_first() else {
        return None;
    };
    if *padding != 0 {
        return None;
    }
    Some((text, rest))
}

/// An entry of bytes that stands first.
#[derive(Clone, Copy)]
pub struct TextEntry<'a> {
    pub count: Count,
    /// Flags and subchannel, and in the low half the number of its bytes.
    pub header: u32,
    /// Its bytes, without their padding.
    pub text: &'a [u8],
    /// What stands after the entry.
    pub rest: &'a [u8],
}

/// The stamp, the header and the bytes of the entry that stands first, and what stands after it; `None` where no such entry does.
#[inline(always)]
pub fn split_text(bytes: &[u8]) -> Option<TextEntry<'_>>
    ensures found { IfSome result (λ f. (length f.text.now ≡ f.header % 65536)
        × (bytes.now ≡ stamp f.count ++ le_bytes 4 f.header ++ padded f.text.now ++ f.rest.now)) }
    ensures none { IfNone result ((count header : ℕ) (text rest : List ℕ) → IsCount count → header < 2 ^ 32
        → length text ≡ header % 65536 → bytes.now ≡ stamp count ++ le_bytes 4 header ++ padded text ++ rest → ⊥) }
{
    if bytes.len() < 12 {
        return None;
    }
    let Some((count, rest)) = Count::of_stamp(bytes) else {
        return None;
    };
    let Some((header, rest)) = split_u32(rest) else {
        return None;
    };
    let Some((text, rest)) = split_bytes(rest, (header % 0x1_0000) as usize) else {
        return None;
    };
    Some(TextEntry {
        count,
        header,
        text,
        rest,
    })
}
