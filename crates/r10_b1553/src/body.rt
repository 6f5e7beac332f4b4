//! The body of a MIL-STD-1553 packet.

ghost use Rattle.std.specs.Prelude.{◌≡◌, ◌↔◌, ◌^◌, ◌<◌, List, length, IsTrue, IfOk};
ghost use Rattle.r10_count.specs.Append.{Appends};
ghost use Rattle.r10_count.specs.Reading.{ReadsBody};
ghost use Rattle.r10_count.specs.declared.reading.Reading.TheVariants.{Strict};
ghost use Rattle.r10_b1553.specs.Bus.{FitsBusBody, IsBus, IsForeignBus, bus_body};
ghost use Rattle.r10_b1553.specs.declared.entry.BusEntry.{BusEntry as BusEntryValue};

use crate::entry::BusEntry;
use r10_count::{BodyEntry, Items, Reading, read_body, write_body};
use std::alloc::{AllocError, Global};

/// The body of a MIL-STD-1553 packet: the channel specific data word with the number of messages, and one entry for
/// each message.
/// Source: IRIG 106-17 chapter 11, MIL-STD-1553 bus data packets, format 1.
#[derive(Drop)]
pub struct BusBody {
    pub entries: Items<BusEntry>,
}

impl BusBody {
    /// Whether there is an entry, there are fewer than 16,777,216, and the fields of each are in their ranges.
    pub fn check(&self) -> bool
        ensures { IsTrue result ↔ FitsBusBody self.now.entries }
    {
        let entries = self.entries.as_slice();
        !entries.is_empty()
            && entries.len() < 0x100_0000
            && entries.iter().all(|entry| entry.check())
    }

    /// How many bytes the body has.
    pub fn size(&self) -> usize
        requires { length (bus_body self.now.entries) < 2 ^ 64 }
        ensures { result ≡ length (bus_body self.now.entries) }
    {
        let mut size = 4;
        for entry in self.entries.as_slice() {
            size += 14 + 2 * entry.message.words.len();
        }
        size
    }

    /// Adds the bytes of a body that passes the check. Where memory is refused, nothing is added.
    pub fn encode_into(&self, out: &mut Vec<u8>) -> Result<(), AllocError>
        requires { FitsBusBody self.now.entries }
        ensures { Appends (bus_body self.now.entries) out.old out.new result }
    {
        write_body(0, 0, self.entries.as_slice(), out)
    }

    /// Reads a body: the entries that this recorder writes as these bytes, or whether another recorder may have
    /// written them.
    pub fn decode(alloc: Global, body: &[u8]) -> Result<Reading<BusBody>, AllocError>
        ensures found { IfOk result (ReadsBody (λ read. IsBus read.entries body.now) (IsForeignBus body.now)) }
        ensures only { (entries : List BusEntryValue) → IsBus entries body.now
            → IfOk result (λ reading. reading ≡ Strict (record { entries = entries })) }
    {
        match read_body(alloc, 0, 0, body)? {
            Reading::Strict(entries) => Ok(Reading::Strict(BusBody { entries })),
            Reading::Lenient => Ok(Reading::Lenient),
            Reading::Neither => Ok(Reading::Neither),
        }
    }
}
