//! The body of an ARINC 429 packet.

ghost use Rattle.std.specs.Prelude.{◌≡◌, ◌↔◌, ◌+◌, ◌*◌, ◌^◌, ◌<◌, ℕ, List, length, IsTrue, IfOk};
ghost use Rattle.r10_count.specs.Append.{Appends};
ghost use Rattle.r10_count.specs.Form.{FitsAll};
ghost use Rattle.r10_count.specs.Reading.{ReadsBody};
ghost use Rattle.r10_count.specs.declared.reading.Reading.TheVariants.{Strict};
ghost use Rattle.r10_a429.specs.Arinc.{FitsArincBody, IsArinc, IsForeignArinc, arinc_body};
ghost use Rattle.r10_a429.specs.Entry.{arinc_form};
ghost use Rattle.r10_a429.specs.declared.entry.ArincEntry.{ArincEntry as ArincEntryValue};

use crate::entry::ArincEntry;
use r10_count::{Count, Items, Reading, read_body, write_body};
use std::alloc::{AllocError, Global};

/// The body of an ARINC 429 packet: the channel specific data word, and one entry for each word.
/// There are no stamps: each entry has the gap since the one before in units of 100 ns, and the
/// first stands at the packet's counter.
/// Source: IRIG 106-17 chapter 11, ARINC 429 data packets, format 0. The places of the fields in
/// the intra-packet data header are this recorder's own choice.
#[derive(Drop)]
pub struct ArincBody {
    pub entries: Items<ArincEntry>,
}

/// Whether counts don't come before the one before them, and no gap is over a tenth of a second.
fn has_short_gaps(before: u64, entries: &[ArincEntry]) -> bool
    ensures { IsTrue result ↔ FitsAll arinc_form before entries.now }
{
    let mut count = before;
    for entry in entries {
        if !entry.follows(count) {
            return false;
        }
        count = entry.count.get();
    }
    true
}

impl ArincBody {
    /// Whether these are the words of a packet of this counter: 1 to 65,535, the first at the
    /// counter, and each at most a tenth of a second after the one before.
    pub fn check(&self, counter: Count) -> bool
        ensures { IsTrue result ↔ FitsArincBody counter self.now.entries }
    {
        let counter = counter.get();
        let entries = self.entries.as_slice();
        let Some(first) = entries.first() else {
            return false;
        };
        first.count.get() == counter && entries.len() < 0x1_0000 && has_short_gaps(counter, entries)
    }

    /// How many bytes the body has.
    pub fn size(&self) -> usize
        requires { 4 + 8 * length self.now.entries < 2 ^ 64 }
        ensures { (counter : ℕ) → result ≡ length (arinc_body counter self.now.entries) }
    {
        4 + 8 * self.entries.len()
    }

    /// Adds the bytes of the body in a packet of this counter. Where memory is refused, nothing is
    /// added.
    pub fn encode_into(&self, counter: Count, out: &mut Vec<u8>) -> Result<(), AllocError>
        requires { FitsArincBody counter self.now.entries }
        ensures { Appends (arinc_body counter self.now.entries) out.old out.new result }
    {
        write_body(0, counter.get(), self.entries.as_slice(), out)
    }

    /// Reads a body in a packet of this counter: the words that this recorder writes as these
    /// bytes, or whether another recorder may have written them.
    pub fn decode(
        alloc: Global,
        counter: Count,
        body: &[u8],
    ) -> Result<Reading<ArincBody>, AllocError>
        ensures found { IfOk result (ReadsBody (λ read. IsArinc counter read.entries body.now) (IsForeignArinc body.now)) }
        ensures only { (entries : List ArincEntryValue) → IsArinc counter entries body.now
            → IfOk result (λ reading. reading ≡ Strict (record { entries = entries })) }
    {
        match read_body(alloc, 0, counter.get(), body)? {
            Reading::Strict(entries) => Ok(Reading::Strict(ArincBody { entries })),
            Reading::Lenient => Ok(Reading::Lenient),
            Reading::Neither => Ok(Reading::Neither),
        }
    }
}
