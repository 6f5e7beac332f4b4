//! Messages of a bus: what one says, whenever it came.

ghost use Rattle.std.specs.Prelude.{◌≡◌, ◌↔◌, ◌≤◌, [], ◌∷◌, IsTrue, IfOk, bit_and, length};
ghost use Rattle.r10_b1553.specs.Bus.{FitsBus, bus_at, bus_body, most_words, named_bits};

use crate::entry::{channel_word, push_entry};
use r10_count::{Count, Items};
use std::alloc::{AllocError, Global};

/// A message of a MIL-STD-1553 bus.
#[derive(Debug, Drop, PartialEq, Eq)]
pub struct BusMessage {
    /// The block status, in which no bit is set but bus B (13), message error (12), RT to RT (11), format error (10),
    /// response timeout (9), word count error (5), sync type error (4) and invalid word (3).
    pub status: u16,
    /// The gap times word.
    pub gap: u16,
    /// At most 36 words: commands, statuses and data as they stood on the bus.
    pub words: Items<u16>,
}

impl BusMessage {
    /// Whether both say the same.
    pub fn is_same(&self, other: &BusMessage) -> bool
        ensures { IsTrue result ↔ (self.now ≡ other.now) }
    {
        self.status == other.status
            && self.gap == other.gap
            && self.words.as_slice() == other.words.as_slice()
    }

    /// A copy in memory of its own.
    pub fn duplicate(&self, alloc: Global) -> Result<BusMessage, AllocError>
        ensures { IfOk result (λ copy. copy ≡ self.now) }
    {
        let words = self.words.duplicate(alloc)?;
        Ok(BusMessage { words, ..*self })
    }

    /// The body of a packet of this message alone, at a count.
    pub fn body_alone(&self, alloc: Global, count: Count) -> Result<Vec<u8>, AllocError>
        requires status { bit_and self.now.status named_bits ≡ self.now.status }
        requires words { length self.now.words ≤ most_words }
        ensures fits { FitsBus (bus_at count self.now) }
        ensures body { IfOk result (λ v. v.items ≡ bus_body (bus_at count self.now ∷ [])) }
    {
        let _ = count.get();
        let _gap = self.gap;
        let words = self.words.as_slice();
        let mut body = Vec::with_capacity(alloc, 18 + 2 * words.len())?;
        body.extend_from_slice(&channel_word(1))?;
        push_entry(&mut body, count, self)?;
        Ok(body)
    }
}
