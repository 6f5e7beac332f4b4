//! UART messages as entries of a body.

ghost use Rattle.std.specs.Prelude.{◌≡◌, ◌↔◌, ◌^◌, ◌<◌, IsTrue, length};
ghost use Rattle.r10_count.specs.Append.{Appends};
ghost use Rattle.r10_uart.specs.Uart.{FitsUart, uart_at, uart_entry, uart_word};

use crate::header::UartHeader;
use crate::message::UartMessage;
use r10_count::{BodyEntry, Bytes, Count, append_text, split_u32, strip_padding};
use std::alloc::{AllocError, Global};

/// A UART message with its time.
#[derive(Drop)]
pub struct UartEntry {
    /// The count of its first data, in units of 100 ns.
    pub count: Count,
    pub message: UartMessage,
}

impl UartEntry {
    /// Whether the fields are in their ranges.
    pub fn check(&self) -> bool
        ensures { IsTrue result ↔ FitsUart self.now }
    {
        let _ = self.count.get();
        self.message.sub < 0x4000 && self.message.bytes.len() < 0x1_0000
    }
}

/// The channel specific data word: stamps are present.
/// Source: IRIG 106-17 chapter 11, UART data packets, format 0.
pub fn channel_word() -> [u8; 4]
    ensures { result ≡ uart_word }
{
    [0, 0, 0, 0x80]
}

/// Adds the bytes of one message at a count: a stamp of 8 bytes, a header of 4, the bytes, and
/// a zero byte where their number is odd. Where memory is refused, nothing is added.
/// Source: IRIG 106-17 chapter 11, UART data packets, format 0.
#[inline(always)]
pub fn push_entry(out: &mut Vec<u8>, count: Count, message: &UartMessage) -> Result<(), AllocError>
    requires sub { message.now.sub < 2 ^ 14 }
    requires bytes { length message.now.bytes < 2 ^ 16 }
    ensures { Appends (uart_entry (uart_at count message.now)) out.old out.new result }
{
    let bytes = &message.bytes;
    let flag = if message.parity { 0x8000_0000 } else { 0 };
    let header = flag + 0x1_0000 * u32::from(message.sub) + bytes.len() as u32;
    append_text(out, count.stamp(), header.to_le_bytes(), bytes)
}

impl BodyEntry for UartEntry {
    ghost use Rattle.r10_uart.specs.Entry.{uart_form};

    ghost form = { uart_form };

    fn front() -> usize {
        12
    }

    fn entry_length(front: &[u8]) -> Option<usize> {
        let header = u32::from_le_bytes([front[8], front[9], front[10], front[11]]);
        let size = (header % 0x1_0000) as usize;
        Some(12 + size + size % 2)
    }

    fn word(setting: u32, count: usize) -> u32 {
        let _ = (setting, count);
        0x8000_0000
    }

    fn agrees(word: u32, count: usize) -> bool {
        let _ = (word, count);
        true
    }

    fn count(&self) -> u64 {
        self.count.get()
    }

    fn opens(&self, counter: u64) -> bool {
        let _ = counter;
        true
    }

    fn suits(&self, setting: u32) -> bool {
        let _ = setting;
        true
    }

    fn size(&self, before: u64) -> usize {
        let _ = before;
        12 + self.message.bytes.len() + self.message.bytes.len() % 2
    }

    fn encode_into(&self, before: u64, out: &mut Vec<u8>) -> Result<(), AllocError> {
        let _ = before;
        push_entry(out, self.count, &self.message)
    }

    fn read(alloc: Global, before: u64, bytes: &[u8]) -> Result<Option<UartEntry>, AllocError> {
        let _ = before;
        let Some((count, rest)) = Count::of_stamp(bytes) else {
            return Ok(None);
        };
        let Some((header, rest)) = split_u32(rest) else {
            return Ok(None);
        };
        let Some(header) = UartHeader::of(header) else {
            return Ok(None);
        };
        let Some(text) = strip_padding(rest, header.length) else {
            return Ok(None);
        };
        let message = UartMessage {
            parity: header.parity,
            sub: header.sub,
            bytes: Bytes::copy_of(alloc, text)?,
        };
        Ok(Some(UartEntry { count, message }))
    }
}
