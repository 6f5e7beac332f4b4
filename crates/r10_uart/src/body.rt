//! The body of a UART packet.

ghost use Rattle.std.specs.Prelude.{◌≡◌, ◌↔◌, ◌^◌, ◌<◌, List, length, IsTrue, IfOk};
ghost use Rattle.r10_count.specs.Append.{Appends};
ghost use Rattle.r10_count.specs.Reading.{ReadsBody};
ghost use Rattle.r10_count.specs.declared.reading.Reading.TheVariants.{Strict};
ghost use Rattle.r10_uart.specs.Uart.{FitsUartBody, IsUart, IsForeignUart, uart_body, is_opaque_uart};
ghost use Rattle.r10_uart.specs.declared.entry.UartEntry.{UartEntry as UartEntryValue};

use crate::entry::UartEntry;
use r10_count::{BodyEntry, Items, Reading, read_body, split_u32, write_body};
use std::alloc::{AllocError, Global};

/// The body of a UART packet: the channel specific data word, and one entry for each message.
/// Source: IRIG 106-17 chapter 11, UART data packets, format 0.
#[derive(Drop)]
pub struct UartBody {
    pub entries: Items<UartEntry>,
}

impl UartBody {
    /// Whether there is an entry, and the fields of each are in their ranges.
    pub fn check(&self) -> bool
        ensures { IsTrue result ↔ FitsUartBody self.now.entries }
    {
        let entries = self.entries.as_slice();
        !entries.is_empty() && entries.iter().all(|entry| entry.check())
    }

    /// How many bytes the body has.
    pub fn size(&self) -> usize
        requires { length (uart_body self.now.entries) < 2 ^ 64 }
        ensures { result ≡ length (uart_body self.now.entries) }
    {
        let mut size = 4;
        for entry in self.entries.as_slice() {
            let bytes = &entry.message.bytes;
            size += 12 + bytes.len() + bytes.len() % 2;
        }
        size
    }

    /// Adds the bytes of a body that passes the check. Where memory is refused, nothing is added.
    pub fn encode_into(&self, out: &mut Vec<u8>) -> Result<(), AllocError>
        requires { FitsUartBody self.now.entries }
        ensures { Appends (uart_body self.now.entries) out.old out.new result }
    {
        write_body(0, 0, self.entries.as_slice(), out)
    }

    /// Reads a body: the entries that this recorder writes as these bytes, or whether another recorder may have
    /// written them.
    pub fn decode(alloc: Global, body: &[u8]) -> Result<Reading<UartBody>, AllocError>
        ensures found { IfOk result (ReadsBody (λ read. IsUart read.entries body.now) (IsForeignUart body.now)) }
        ensures only { (entries : List UartEntryValue) → IsUart entries body.now
            → IfOk result (λ reading. reading ≡ Strict (record { entries = entries })) }
    {
        match read_body(alloc, 0, 0, body)? {
            Reading::Strict(entries) => Ok(Reading::Strict(UartBody { entries })),
            Reading::Lenient => Ok(Reading::Lenient),
            Reading::Neither => Ok(Reading::Neither),
        }
    }

    /// Whether the word of a body says that its entries have no stamps. Such a body isn't read.
    pub fn is_opaque(body: &[u8]) -> bool
        ensures { result ≡ is_opaque_uart body.now }
    {
        match split_u32(body) {
            Some((word, _)) => word < 0x8000_0000,
            None => false,
        }
    }
}
