//! The body of a discrete packet.

ghost use Rattle.std.specs.Prelude.{◌≡◌, ◌↔◌, ◌+◌, ◌*◌, ◌^◌, ◌<◌, ℕ, List, ◌++◌, length, IsTrue, IfOk};
ghost use Rattle.r10_count.specs.Bytes.{le_bytes};
ghost use Rattle.r10_count.specs.Append.{Appends};
ghost use Rattle.r10_count.specs.Reading.{ReadsBody};
ghost use Rattle.r10_count.specs.declared.reading.Reading.TheVariants.{Strict};
ghost use Rattle.r10_discrete.specs.Discrete.{FitsDiscreteBody, IsDiscrete, IsForeignDiscrete, discrete_body};
ghost use Rattle.r10_discrete.specs.declared.entry.DiscreteEntry.{DiscreteEntry as DiscreteEntryValue};

use crate::entry::DiscreteEntry;
use r10_count::{Items, Reading, read_body, split_u32, write_body};
use std::alloc::{AllocError, Global};

/// The body of a discrete packet: the channel specific data word, and one entry for each change of
/// the states.
/// Source: IRIG 106-17 chapter 11, discrete data packets, format 1.
#[derive(Drop)]
pub struct DiscreteBody {
    /// How many discretes the channel has, 1 to 31.
    pub bits: u8,
    pub entries: Items<DiscreteEntry>,
}

/// The number of discretes that a body's word tells.
pub fn bits_in(body: &[u8]) -> u32
    ensures range { result < 32 }
    ensures value { (bits : ℕ) (rest : List ℕ) → bits < 32 → body.now ≡ le_bytes 4 (8 * bits) ++ rest → result ≡ bits }
{
    match split_u32(body) {
        Some((word, _)) => word / 8 % 32,
        None => 0,
    }
}

impl DiscreteBody {
    /// Whether there is an entry, the channel has 1 to 31 discretes, and no state has a bit beyond
    /// them.
    pub fn check(&self) -> bool
        ensures { IsTrue result ↔ FitsDiscreteBody self.now.bits self.now.entries }
    {
        let bits = self.bits;
        let entries = self.entries.as_slice();
        !entries.is_empty()
            && 0 < bits
            && bits < 32
            && entries.iter().all(|entry| entry.check(bits))
    }

    /// How many bytes the body has.
    pub fn size(&self) -> usize
        requires { 4 + 12 * length self.now.entries < 2 ^ 64 }
        ensures { result ≡ length (discrete_body self.now.bits self.now.entries) }
    {
        4 + 12 * self.entries.len()
    }

    /// Adds the body's bytes. Where memory is refused, nothing is added.
    pub fn encode_into(&self, out: &mut Vec<u8>) -> Result<(), AllocError>
        requires { FitsDiscreteBody self.now.bits self.now.entries }
        ensures { Appends (discrete_body self.now.bits self.now.entries) out.old out.new result }
    {
        write_body(u32::from(self.bits), 0, self.entries.as_slice(), out)
    }

    /// Reads a body: the number of discretes and the entries that this recorder writes as these
    /// bytes, or whether another recorder may have written them.
    pub fn decode(alloc: Global, body: &[u8]) -> Result<Reading<DiscreteBody>, AllocError>
        ensures found { IfOk result (ReadsBody (λ read. IsDiscrete read.bits read.entries body.now) (IsForeignDiscrete body.now)) }
        ensures only { (bits : ℕ) (entries : List DiscreteEntryValue) → IsDiscrete bits entries body.now
            → IfOk result (λ reading. reading ≡ Strict (record { bits = bits; entries = entries })) }
    {
        let bits = bits_in(body);
        match read_body(alloc, bits, 0, body)? {
            Reading::Strict(entries) => {
                let bits = bits as u8;
                Ok(Reading::Strict(DiscreteBody { bits, entries }))
            }
            Reading::Lenient => Ok(Reading::Lenient),
            Reading::Neither => Ok(Reading::Neither),
        }
    }
}
