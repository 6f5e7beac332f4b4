//! The body of a message data packet.

ghost use Rattle.std.specs.Prelude.{◌≡◌, ◌↔◌, ◌^◌, ◌<◌, List, length, IsTrue, IfOk};
ghost use Rattle.r10_count.specs.Append.{Appends};
ghost use Rattle.r10_count.specs.Reading.{ReadsBody};
ghost use Rattle.r10_count.specs.declared.reading.Reading.TheVariants.{Strict};
ghost use Rattle.r10_message.specs.Message.{FitsMessageBody, IsMessage, IsForeignMessage, message_body, is_opaque_message};
ghost use Rattle.r10_message.specs.declared.entry.MessageEntry.{MessageEntry as MessageEntryValue};

use crate::entry::MessageEntry;
use r10_count::{BodyEntry, Items, Reading, read_body, split_u32, write_body};
use std::alloc::{AllocError, Global};

/// The body of a message data packet: the channel specific data word with the number of messages, and one entry for
/// each message.
/// Source: IRIG 106-17 chapter 11, message data packets, format 0.
#[derive(Drop)]
pub struct MessageBody {
    pub entries: Items<MessageEntry>,
}

impl MessageBody {
    /// Whether there is an entry, there are fewer than 65,536, and the fields of each are in their ranges.
    pub fn check(&self) -> bool
        ensures { IsTrue result ↔ FitsMessageBody self.now.entries }
    {
        let entries = self.entries.as_slice();
        !entries.is_empty() && entries.len() < 0x1_0000 && entries.iter().all(|entry| entry.check())
    }

    /// How many bytes the body has.
    pub fn size(&self) -> usize
        requires { length (message_body self.now.entries) < 2 ^ 64 }
        ensures { result ≡ length (message_body self.now.entries) }
    {
        let mut size = 4;
        for entry in self.entries.as_slice() {
            let bytes = &entry.message.bytes;
            size += 12 + bytes.len() + bytes.len() % 2;
        }
        size
    }

    /// Adds the bytes of a body that passes the check. Where memory is refused, nothing is added.
    pub fn encode_into(&self, out: &mut Vec<u8>) -> Result<(), AllocError>
        requires { FitsMessageBody self.now.entries }
        ensures { Appends (message_body self.now.entries) out.old out.new result }
    {
        write_body(0, 0, self.entries.as_slice(), out)
    }

    /// Reads a body: the entries that this recorder writes as these bytes, or whether another recorder may have
    /// written them.
    pub fn decode(alloc: Global, body: &[u8]) -> Result<Reading<MessageBody>, AllocError>
        ensures found { IfOk result (ReadsBody (λ read. IsMessage read.entries body.now) (IsForeignMessage body.now)) }
        ensures only { (entries : List MessageEntryValue) → IsMessage entries body.now
            → IfOk result (λ reading. reading ≡ Strict (record { entries = entries })) }
    {
        match read_body(alloc, 0, 0, body)? {
            Reading::Strict(entries) => Ok(Reading::Strict(MessageBody { entries })),
            Reading::Lenient => Ok(Reading::Lenient),
            Reading::Neither => Ok(Reading::Neither),
        }
    }

    /// Whether the word of a body says that its entries are segments of messages. Such a body isn't read.
    pub fn is_opaque(body: &[u8]) -> bool
        ensures { result ≡ is_opaque_message body.now }
    {
        match split_u32(body) {
            Some((word, _)) => word / 0x1_0000 % 4 != 0,
            None => false,
        }
    }
}
