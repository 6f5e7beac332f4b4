//! Messages of sources of any other sort: what one says, whenever it came.

ghost use Rattle.std.specs.Prelude.{◌≡◌, ◌↔◌, ◌^◌, ◌<◌, [], ◌∷◌, IsTrue, IfOk, length};
ghost use Rattle.r10_message.specs.Message.{FitsMessage, message_at, message_body};

use crate::entry::{channel_word, push_entry};
use r10_count::{Bytes, Count};
use std::alloc::{AllocError, Global};

/// A message of a source of any other sort.
#[derive(Debug, Drop, PartialEq, Eq)]
pub struct DataMessage {
    /// A data error came in it.
    pub data_error: bool,
    /// A format error came in it.
    pub format: bool,
    /// The subchannel, below 16,384.
    pub sub: u16,
    /// At most 65,535 bytes.
    pub bytes: Bytes,
}

impl DataMessage {
    /// Whether both say the same.
    pub fn is_same(&self, other: &DataMessage) -> bool
        ensures { IsTrue result ↔ (self.now ≡ other.now) }
    {
        self.data_error == other.data_error
            && self.format == other.format
            && self.sub == other.sub
            && self.bytes.as_slice() == other.bytes.as_slice()
    }

    /// A copy in memory of its own.
    pub fn duplicate(&self, alloc: Global) -> Result<DataMessage, AllocError>
        ensures { IfOk result (λ copy. copy ≡ self.now) }
    {
        let bytes = self.bytes.duplicate(alloc)?;
        Ok(DataMessage { bytes, ..*self })
    }

    /// The body of a packet of this message alone, at a count.
    pub fn body_alone(&self, alloc: Global, count: Count) -> Result<Vec<u8>, AllocError>
        requires sub { self.now.sub < 2 ^ 14 }
        requires bytes { length self.now.bytes < 2 ^ 16 }
        ensures fits { FitsMessage (message_at count self.now) }
        ensures body { IfOk result (λ v. v.items ≡ message_body (message_at count self.now ∷ [])) }
    {
        let _ = count.get();
        let length = self.bytes.len();
        let mut body = Vec::with_capacity(alloc, 16 + length + length % 2)?;
        body.extend_from_slice(&channel_word(1))?;
        push_entry(&mut body, count, self)?;
        Ok(body)
    }
}
