//! The plain copy.

ghost use Rattle.std.specs.Prelude.{◌≡◌, ◌≤◌, ◌-◌, ◌++◌, [], length, vec_capacity, nat_lt, if◌then◌else◌};

use r10_body::{Message, Timed, UartMessage};

/// Copies bytes to the end of a buffer, which is emptied first where they lack room.
pub fn copy(bytes: &[u8], copied: &mut Vec<u8>)
    ensures copied { length bytes.now ≤ vec_capacity copied.old → copied.new.items
        ≡ (if nat_lt (vec_capacity copied.old - length copied.old.items) (length bytes.now) then [] else copied.old.items)
        ++ bytes.now }
    ensures room { vec_capacity copied.old ≤ vec_capacity copied.new }
{
    if copied.capacity() - copied.len() < bytes.len() {
        copied.clear();
    }
    let _ = copied.extend_from_slice(bytes);
}

/// Copies the bytes of each message.
pub fn copy_all(messages: &[Timed], copied: &mut Vec<u8>)
    ensures { vec_capacity copied.old ≤ vec_capacity copied.new }
{
    for timed in messages {
        if let Message::Uart(UartMessage { bytes, .. }) = &timed.message {
            copy(bytes.as_slice(), copied);
        }
    }
}
