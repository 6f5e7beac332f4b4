//! Bytes added all or none.

ghost use Rattle.std.specs.Prelude.{◌≡◌, ◌+◌, ◌≤◌, ◌++◌, length, map, take, vec_capacity};
ghost use Rattle.std.specs.List.{concat};
ghost use Rattle.r10_count.specs.Append.{Appends};
ghost use Rattle.r10_count.specs.Padding.{padded};

use crate::bytes::Bytes;
use std::alloc::AllocError;

/// Adds all parts, or none where memory is refused.
#[inline(always)]
pub fn append_all(out: &mut Vec<u8>, parts: &[&[u8]]) -> Result<(), AllocError>
    ensures { Appends (concat (map (λ part. part.now) parts.now)) out.old out.new result }
{
    let before = out.len();
    for part in parts {
        if let Err(error) = out.extend_from_slice(part) {
            out.truncate(before);
            return Err(error);
        }
    }
    Ok(())
}

/// Adds the stamp and the header of a message, its bytes, and a zero byte where their number is odd; or nothing where memory
/// is refused.
///
/// Of bytes that stand in the value itself all places are copied, and those after the bytes cut off again: a copy of as many
/// bytes each time is no call of the C library. All others are copied where this is called, too.
#[inline(always)]
pub fn append_text(
    out: &mut Vec<u8>,
    stamp: [u8; 8],
    header: [u8; 4],
    bytes: &Bytes,
) -> Result<(), AllocError>
    ensures { Appends (stamp ++ header ++ padded bytes.now) out.old out.new result }
{
    let mut front = [0; 12];
    front[..8].copy_from_slice(&stamp);
    front[8..].copy_from_slice(&header);
    if let Some((places, len)) = bytes.places() {
        if len % 2 == 0 && out.capacity() - out.len() >= 50 {
            return append_first(out, &front, places, len);
        }
    }
    let text = bytes.as_slice();
    if text.len() % 2 == 0 {
        append_all(out, &[&front, text])
    } else {
        append_all(out, &[&front, text, &[0]])
    }
}

/// Adds a front and the first of the places, so many.
#[inline(always)]
fn append_first(
    out: &mut Vec<u8>,
    front: &[u8; 12],
    places: &[u8; 38],
    len: usize,
) -> Result<(), AllocError>
    requires room { length out.old.items + 50 ≤ vec_capacity out.old }
    requires within { len ≤ 38 }
    ensures adds { Appends (front.now ++ take len places.now) out.old out.new result }
    ensures long { length (take len places.now) ≡ len }
{
    let before = out.len();
    append_all(out, &[front, places])?;
    out.truncate(before + 12 + len);
    Ok(())
}
