//! ARINC 429 words as entries of a body.

ghost use Rattle.std.specs.Prelude.{◌≡◌, ◌≤◌, ◌↔◌, IsTrue};
ghost use Rattle.r10_a429.specs.Arinc.{arinc_header, longest_gap};
ghost use Rattle.r10_a429.specs.Entry.{FitsBehind};

use crate::message::ArincMessage;
use r10_count::{BodyEntry, Count, append_all, split_u32};
use std::alloc::{AllocError, Global};

/// The longest gap between a word and the one before it in a packet: a tenth of a second, in units of 100 ns.
pub const LONGEST_GAP: u32 = 1_000_000;

/// A word of an ARINC 429 bus with its time.
#[derive(Clone, Copy)]
pub struct ArincEntry {
    /// The count of its first data, in units of 100 ns.
    pub count: Count,
    pub message: ArincMessage,
}

impl ArincEntry {
    /// Whether it comes no earlier than a count and at most a tenth of a second later.
    pub(crate) fn follows(&self, before: u64) -> bool
        ensures { IsTrue result ↔ FitsBehind before self.now }
    {
        let (_bus, _word) = (self.message.bus, self.message.word);
        let count = self.count.get();
        before <= count && count - before <= u64::from(LONGEST_GAP)
    }

    /// The bus, the flags and the gap since the word before.
    fn header(&self, gap: u32) -> u32
        requires { gap ≤ longest_gap }
        ensures { result ≡ arinc_header gap self.now }
    {
        let message = &self.message;
        let format = if message.format { 0x80_0000 } else { 0 };
        let parity = if message.parity { 0x40_0000 } else { 0 };
        let high = if message.high { 0x20_0000 } else { 0 };
        0x100_0000 * u32::from(message.bus) + format + parity + high + gap
    }
}

impl BodyEntry for ArincEntry {
    ghost use Rattle.r10_a429.specs.Entry.{arinc_form};

    ghost form = { arinc_form };

    fn front() -> usize {
        8
    }

    fn entry_length(front: &[u8]) -> Option<usize> {
        let _ = front;
        Some(8)
    }

    fn word(setting: u32, count: usize) -> u32 {
        let _ = setting;
        (count % 0x1_0000) as u32
    }

    fn agrees(word: u32, count: usize) -> bool {
        (word % 0x1_0000) as usize == count
    }

    fn count(&self) -> u64 {
        self.count.get()
    }

    fn opens(&self, counter: u64) -> bool {
        self.count.get() == counter
    }

    fn suits(&self, setting: u32) -> bool {
        let _ = setting;
        true
    }

    fn size(&self, before: u64) -> usize {
        let _ = before;
        8
    }

    fn encode_into(&self, before: u64, out: &mut Vec<u8>) -> Result<(), AllocError> {
        let gap = (self.count.get() - before) as u32;
        let header = self.header(gap).to_le_bytes();
        let word = self.message.word.to_le_bytes();
        append_all(out, &[&header, &word])
    }

    fn read(alloc: Global, before: u64, bytes: &[u8]) -> Result<Option<ArincEntry>, AllocError> {
        let _ = alloc;
        let Some((header, rest)) = split_u32(bytes) else {
            return Ok(None);
        };
        let Some((word, rest)) = split_u32(rest) else {
            return Ok(None);
        };
        let gap = header % 0x20_0000;
        if gap > LONGEST_GAP || !rest.is_empty() {
            return Ok(None);
        }
        let Some(count) = Count::of(before.saturating_add(u64::from(gap))) else {
            return Ok(None);
        };
        let message = ArincMessage {
            bus: (header / 0x100_0000) as u8,
            format: header / 0x80_0000 % 2 == 1,
            parity: header / 0x40_0000 % 2 == 1,
            high: header / 0x20_0000 % 2 == 1,
            word,
        };
        Ok(Some(ArincEntry { count, message }))
    }
}
