//! The intra-packet data header of a UART message.

ghost use Rattle.std.specs.Prelude.{◌≡◌, IfSome, IfNone};
ghost use Rattle.r10_uart.specs.Uart.{FitsUartHeader, uart_header_bits};
ghost use Rattle.r10_uart.specs.declared.header.UartHeader.{UartHeader as UartHeaderValue};

/// The parts of an intra-packet data header of 32 bits: the parity error is bit 31, bit 30 must be 0, the subchannel has bits
/// 29 to 16, and the length bits 15 to 0.
/// Source: IRIG 106-17 chapter 11, UART data packets, format 0.
#[derive(Clone, Copy)]
pub struct UartHeader {
    /// A parity error came in the message.
    pub parity: bool,
    /// The subchannel, below 16,384.
    pub sub: u16,
    /// How many bytes the message has, below 65,536.
    pub length: usize,
}

impl UartHeader {
    /// The parts of a header, where the bit that must be 0 is 0.
    #[inline(always)]
    pub fn of(bits: u32) -> Option<UartHeader>
        ensures found { IfSome result (λ h. FitsUartHeader h × (bits ≡ uart_header_bits h)) }
        ensures none { IfNone result ((h : UartHeaderValue) → FitsUartHeader h → bits ≡ uart_header_bits h → ⊥) }
    {
        if bits / 0x4000_0000 % 2 == 1 {
            return None;
        }
        Some(UartHeader {
            parity: bits / 0x8000_0000 == 1,
            sub: (bits / 0x1_0000 % 0x4000) as u16,
            length: (bits % 0x1_0000) as usize,
        })
    }
}
