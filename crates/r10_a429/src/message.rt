//! Words of ARINC 429 buses: what one says, whenever it came.

ghost use Rattle.std.specs.Prelude.{◌≡◌, ◌↔◌, [], ◌∷◌, IsTrue, IfOk};
ghost use Rattle.r10_a429.specs.Arinc.{FitsArincBody, arinc_at, arinc_body};

use crate::body::ArincBody;
use crate::entry::ArincEntry;
use r10_count::{Count, Items};
use std::alloc::{AllocError, Global};

/// A word of an ARINC 429 bus.
#[derive(Clone, Copy, Debug, PartialEq, Eq)]
pub struct ArincMessage {
    /// The number of the bus.
    pub bus: u8,
    /// A format error came in it.
    pub format: bool,
    /// A parity error came in it.
    pub parity: bool,
    /// The bus is a high speed bus.
    pub high: bool,
    /// The word of the bus.
    pub word: u32,
}

impl ArincMessage {
    /// Whether both say the same.
    pub fn is_same(&self, other: &ArincMessage) -> bool
        ensures { IsTrue result ↔ (self.now ≡ other.now) }
    {
        self.bus == other.bus
            && self.format == other.format
            && self.parity == other.parity
            && self.high == other.high
            && self.word == other.word
    }

    /// The body of a packet of this word alone, at a count.
    pub fn body_alone(&self, alloc: Global, count: Count) -> Result<Vec<u8>, AllocError>
        ensures fits { FitsArincBody count (arinc_at count self.now ∷ []) }
        ensures body { IfOk result (λ v. v.items ≡ arinc_body count (arinc_at count self.now ∷ [])) }
    {
        let _ = count.get();
        let (_bus, _word) = (self.bus, self.word);
        let entry = ArincEntry {
            count,
            message: *self,
        };
        let entries = Items::of(vec![in alloc; entry]?);
        let mut body = Vec::with_capacity(alloc, 12)?;
        ArincBody { entries }.encode_into(count, &mut body)?;
        Ok(body)
    }
}
