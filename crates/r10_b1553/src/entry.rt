//! Bus messages as entries of a body.

ghost use Rattle.std.specs.Prelude.{◌≡◌, ◌↔◌, ◌*◌, ◌^◌, ◌<◌, ◌≤◌, ◌++◌, IsTrue, IfSome, IfNone, length};
ghost use Rattle.r10_count.specs.Bytes.{le_bytes};
ghost use Rattle.r10_count.specs.Append.{Appends};
ghost use Rattle.r10_b1553.specs.Bus.{FitsBus, bus_at, bus_entry, bus_word, most_words};

use crate::message::BusMessage;
use crate::words::{append_words, words_of};
use r10_count::{BodyEntry, Count, Items, append_all, split_u16};
use std::alloc::{AllocError, Global};

/// The bits of the block status that have a name. Their places are this recorder's own choice.
pub const NAMED_BITS: u16 = 0x3E38;

/// How many words a message has at most: two commands, two statuses and 32 data words.
pub const MOST_WORDS: usize = 36;

/// How many bytes these are.
pub const MOST_BYTES: u16 = 2 * MOST_WORDS as u16;

/// A message of the bus with its time.
#[derive(Drop)]
pub struct BusEntry {
    /// The count of its first data, in units of 100 ns.
    pub count: Count,
    pub message: BusMessage,
}

impl BusEntry {
    /// Whether the fields are in their ranges.
    pub fn check(&self) -> bool
        ensures { IsTrue result ↔ FitsBus self.now }
    {
        let _ = self.count.get();
        let _gap = self.message.gap;
        let words = self.message.words.as_slice();
        self.message.status & NAMED_BITS == self.message.status && words.len() <= MOST_WORDS
    }
}

/// The channel specific data word of so many messages.
/// Source: IRIG 106-17 chapter 11, MIL-STD-1553 bus data packets, format 1.
pub fn channel_word(messages: u32) -> [u8; 4]
    requires { messages < 2 ^ 24 }
    ensures { result ≡ bus_word messages }
{
    messages.to_le_bytes()
}

/// Adds the bytes of one message at a count: a stamp of 8 bytes, the block status, the gap times and the length in
/// bytes in two bytes each, and the words. Where memory is refused, nothing is added.
/// Source: IRIG 106-17 chapter 11, MIL-STD-1553 bus data packets, format 1; the places of the bits in the block
/// status are this recorder's own choice.
pub fn push_entry(out: &mut Vec<u8>, count: Count, message: &BusMessage) -> Result<(), AllocError>
    requires { length message.now.words ≤ most_words }
    ensures { Appends (bus_entry (bus_at count message.now)) out.old out.new result }
{
    let before = out.len();
    let stamp = count.stamp();
    let status = message.status.to_le_bytes();
    let gap = message.gap.to_le_bytes();
    let words = message.words.as_slice();
    let length = (2 * words.len() as u16).to_le_bytes();
    append_all(out, &[&stamp, &status, &gap, &length])?;
    if let Err(error) = append_words(out, words) {
        out.truncate(before);
        return Err(error);
    }
    Ok(())
}

/// The block status, the gap times and the length at the front of the bytes, and the bytes after them.
fn split_fields(bytes: &[u8]) -> Option<(u16, u16, u16, &[u8])>
    ensures found { IfSome result (λ x. bytes.now ≡ le_bytes 2 x.0 ++ le_bytes 2 x.1 ++ le_bytes 2 x.2 ++ x.3.now) }
    ensures none { IfNone result (length bytes.now < 6) }
{
    let (status, rest) = split_u16(bytes)?;
    let (gap, rest) = split_u16(rest)?;
    let (size, rest) = split_u16(rest)?;
    Some((status, gap, size, rest))
}

impl BodyEntry for BusEntry {
    ghost use Rattle.r10_b1553.specs.Entry.{bus_form};

    ghost form = { bus_form };

    fn front() -> usize {
        14
    }

    fn entry_length(front: &[u8]) -> Option<usize> {
        let size = u16::from_le_bytes([front[12], front[13]]);
        if size % 2 == 0 {
            Some(14 + usize::from(size))
        } else {
            None
        }
    }

    fn word(setting: u32, count: usize) -> u32 {
        let _ = setting;
        (count % 0x100_0000) as u32
    }

    fn agrees(word: u32, count: usize) -> bool {
        (word % 0x100_0000) as usize == count
    }

    fn count(&self) -> u64 {
        self.count.get()
    }

    fn opens(&self, counter: u64) -> bool {
        let _ = counter;
        true
    }

    fn suits(&self, setting: u32) -> bool {
        let _ = setting;
        true
    }

    fn size(&self, before: u64) -> usize {
        let _ = before;
        14 + 2 * self.message.words.len()
    }

    fn encode_into(&self, before: u64, out: &mut Vec<u8>) -> Result<(), AllocError> {
        let _ = before;
        push_entry(out, self.count, &self.message)
    }

    fn read(alloc: Global, before: u64, bytes: &[u8]) -> Result<Option<BusEntry>, AllocError> {
        let _ = before;
        let Some((count, rest)) = Count::of_stamp(bytes) else {
            return Ok(None);
        };
        let Some((status, gap, size, rest)) = split_fields(rest) else {
            return Ok(None);
        };
        if status & NAMED_BITS != status
            || size % 2 == 1
            || size > MOST_BYTES
            || rest.len() != usize::from(size)
        {
            return Ok(None);
        }
        let words = words_of(alloc, rest)?;
        let message = BusMessage {
            status,
            gap,
            words: Items::of(words),
        };
        Ok(Some(BusEntry { count, message }))
    }
}
