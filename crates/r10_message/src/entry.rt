//! Messages as entries of a body.

ghost use Rattle.std.specs.Prelude.{◌≡◌, ◌↔◌, ◌^◌, ◌<◌, IsTrue, length};
ghost use Rattle.r10_count.specs.Append.{Appends};
ghost use Rattle.r10_message.specs.Message.{FitsMessage, message_at, message_entry, message_word};

use crate::data::DataMessage;
use crate::header::MessageHeader;
use r10_count::{BodyEntry, Bytes, Count, append_text, split_u32, strip_padding};
use std::alloc::{AllocError, Global};

/// A message with its time.
#[derive(Drop)]
pub struct MessageEntry {
    /// The count of its first data, in units of 100 ns.
    pub count: Count,
    pub message: DataMessage,
}

impl MessageEntry {
    /// Whether the fields are in their ranges.
    pub fn check(&self) -> bool
        ensures { IsTrue result ↔ FitsMessage self.now }
    {
        let _ = self.count.get();
        self.message.sub < 0x4000 && self.message.bytes.len() < 0x1_0000
    }
}

/// The channel specific data word of so many messages: each of them is whole.
/// Source: IRIG 106-17 chapter 11, message data packets, format 0.
pub fn channel_word(messages: u16) -> [u8; 4]
    ensures { result ≡ message_word messages }
{
    u32::from(messages).to_le_bytes()
}

/// Adds the bytes of one message at a count: a stamp of 8 bytes, a header of 4, the bytes, and
/// a zero byte where their number is odd. Where memory is refused, nothing is added.
/// Source: IRIG 106-17 chapter 11, message data packets, format 0.
#[inline(always)]
pub fn push_entry(out: &mut Vec<u8>, count: Count, message: &DataMessage) -> Result<(), AllocError>
    requires sub { message.now.sub < 2 ^ 14 }
    requires bytes { length message.now.bytes < 2 ^ 16 }
    ensures { Appends (message_entry (message_at count message.now)) out.old out.new result }
{
    let stamp = count.stamp();
    let bytes = &message.bytes;
    let length = bytes.len();
    let header = MessageHeader {
        data_error: message.data_error,
        format: message.format,
        sub: message.sub,
        length,
    };
    append_text(out, stamp, header.bits().to_le_bytes(), bytes)
}

impl BodyEntry for MessageEntry {
    ghost use Rattle.r10_message.specs.Entry.{message_form};

    ghost form = { message_form };

    fn front() -> usize {
        12
    }

    fn entry_length(front: &[u8]) -> Option<usize> {
        let header = u32::from_le_bytes([front[8], front[9], front[10], front[11]]);
        let size = (header % 0x1_0000) as usize;
        Some(12 + size + size % 2)
    }

    fn word(setting: u32, count: usize) -> u32 {
        let _ = setting;
        (count % 0x1_0000) as u32
    }

    fn agrees(word: u32, count: usize) -> bool {
        (word % 0x1_0000) as usize == count
    }

    fn count(&self) -> u64 {
        self.count.get()
    }

    fn opens(&self, counter: u64) -> bool {
        let _ = counter;
        true
    }

    fn suits(&self, setting: u32) -> bool {
        let _ = setting;
        true
    }

    fn size(&self, before: u64) -> usize {
        let _ = before;
        12 + self.message.bytes.len() + self.message.bytes.len() % 2
    }

    fn encode_into(&self, before: u64, out: &mut Vec<u8>) -> Result<(), AllocError> {
        let _ = before;
        push_entry(out, self.count, &self.message)
    }

    fn read(alloc: Global, before: u64, bytes: &[u8]) -> Result<Option<MessageEntry>, AllocError> {
        let _ = before;
        let Some((count, rest)) = Count::of_stamp(bytes) else {
            return Ok(None);
        };
        let Some((header, rest)) = split_u32(rest) else {
            return Ok(None);
        };
        let parts = MessageHeader::of(header);
        let Some(text) = strip_padding(rest, parts.length) else {
            return Ok(None);
        };
        let message = DataMessage {
            data_error: parts.data_error,
            format: parts.format,
            sub: parts.sub,
            bytes: Bytes::copy_of(alloc, text)?,
        };
        Ok(Some(MessageEntry { count, message }))
    }
}
