//! The 16-bit words of a bus message as bytes.

ghost use Rattle.std.specs.Prelude.{◌≡◌, ◌%◌, ◌^◌, ◌<◌, length, IfOk};
ghost use Rattle.std.specs.List.{AllByRecursion};
ghost use Rattle.r10_count.specs.Append.{Appends};
ghost use Rattle.r10_b1553.specs.Bus.{words_low_first};

use r10_count::split_u16;
use std::alloc::{AllocError, Global};

/// Adds the words, the low byte of each first. Where memory is refused, nothing is added.
pub fn append_words(out: &mut Vec<u8>, words: &[u16]) -> Result<(), AllocError>
    ensures { Appends (words_low_first words.now) out.old out.new result }
{
    let length = out.len();
    for word in words {
        if let Err(error) = out.extend_from_slice(&word.to_le_bytes()) {
            out.truncate(length);
            return Err(error);
        }
    }
    Ok(())
}

/// The words that an even number of bytes are.
pub fn words_of(alloc: Global, bytes: &[u8]) -> Result<Vec<u16>, AllocError>
    requires { length bytes.now % 2 ≡ 0 }
    ensures bytes { IfOk result (λ words. bytes.now ≡ words_low_first words.items) }
    ensures fit { IfOk result (λ words. AllByRecursion (λ w. w < 2 ^ 16) words.items) }
{
    let mut words = Vec::new(alloc);
    let mut rest = bytes;
    while let Some((word, after)) = split_u16(rest) {
        words.push(word)?;
        rest = after;
    }
    Ok(words)
}
