//! UART messages: what one says, whenever it came.

ghost use Rattle.std.specs.Prelude.{◌≡◌, ◌↔◌, ◌^◌, ◌<◌, [], ◌∷◌, IsTrue, IfOk, length};
ghost use Rattle.r10_uart.specs.Uart.{FitsUart, uart_at, uart_body};

use crate::entry::{channel_word, push_entry};
use r10_count::{Bytes, Count};
use std::alloc::{AllocError, Global};

/// A message of a serial line.
#[derive(Debug, PartialEq, Eq)]
pub struct UartMessage {
    /// A parity error came in it.
    pub parity: bool,
    /// The subchannel, below 16,384.
    pub sub: u16,
    /// At most 65,535 bytes.
    pub bytes: Bytes,
}

/// Letting a message go is one call without a jump, as each message that is recorded is let go.
impl Drop for UartMessage {
    #[inline(always)]
    fn drop(self) {
        let UartMessage {
            parity: _,
            sub: _,
            bytes: _,
        } = self;
    }
}

impl UartMessage {
    /// Whether both say the same.
    pub fn is_same(&self, other: &UartMessage) -> bool
        ensures { IsTrue result ↔ (self.now ≡ other.now) }
    {
        self.parity == other.parity
            && self.sub == other.sub
            && self.bytes.as_slice() == other.bytes.as_slice()
    }

    /// A copy in memory of its own.
    pub fn duplicate(&self, alloc: Global) -> Result<UartMessage, AllocError>
        ensures { IfOk result (λ copy. copy ≡ self.now) }
    {
        let bytes = self.bytes.duplicate(alloc)?;
        Ok(UartMessage { bytes, ..*self })
    }

    /// The body of a packet of this message alone, at a count.
    pub fn body_alone(&self, alloc: Global, count: Count) -> Result<Vec<u8>, AllocError>
        requires sub { self.now.sub < 2 ^ 14 }
        requires bytes { length self.now.bytes < 2 ^ 16 }
        ensures fits { FitsUart (uart_at count self.now) }
        ensures body { IfOk result (λ v. v.items ≡ uart_body (uart_at count self.now ∷ [])) }
    {
        let _ = count.get();
        let length = self.bytes.len();
        let mut body = Vec::with_capacity(alloc, 16 + length + length % 2)?;
        body.extend_from_slice(&channel_word())?;
        push_entry(&mut body, count, self)?;
        Ok(body)
    }
}
