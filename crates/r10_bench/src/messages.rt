//! The messages.

ghost use Rattle.std.specs.Prelude.{◌≡◌, ◌-◌, length, IfOk};

use r10_body::{Message, Timed, UartMessage};
use r10_count::{Bytes, Count};
use std::alloc::{AllocError, Global};
use std::ops::Range;

/// The messages of these numbers: each at the count that is its number, with these bytes.
pub fn make(alloc: Global, numbers: Range<u32>, bytes: &[u8]) -> Result<Vec<Timed>, AllocError>
    ensures { IfOk result (λ messages. length messages.items ≡ numbers.end - numbers.start) }
{
    let mut messages = Vec::with_capacity(alloc, numbers.len())?;
    for number in numbers {
        let Some(count) = Count::of(u64::from(number)) else {
            unreachable!()
        };
        let message = Message::Uart(UartMessage {
            parity: false,
            sub: 0,
            bytes: Bytes::copy_of(alloc, bytes)?,
        });
        messages.push(Timed { count, message })?;
    }
    Ok(messages)
}
