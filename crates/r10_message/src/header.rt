//! The intra-packet data header of a message.

ghost use Rattle.std.specs.Prelude.{◌≡◌};
ghost use Rattle.r10_message.specs.Message.{FitsMessageHeader, message_header_bits};

/// The parts of an intra-packet data header of 32 bits: the data error is bit 31, the format error bit 30, the subchannel has
/// bits 29 to 16, and the length bits 15 to 0.
/// Source: IRIG 106-17 chapter 11, message data packets, format 0.
#[derive(Clone, Copy)]
pub struct MessageHeader {
    /// A data error came in the message.
    pub data_error: bool,
    /// A format error came in it.
    pub format: bool,
    /// The subchannel, below 16,384.
    pub sub: u16,
    /// How many bytes the message has, below 65,536.
    pub length: usize,
}

impl MessageHeader {
    /// The parts of a header.
    #[inline(always)]
    pub fn of(bits: u32) -> MessageHeader
        ensures fits { FitsMessageHeader result }
        ensures reported { bits ≡ message_header_bits result }
    {
        MessageHeader {
            data_error: bits / 0x8000_0000 == 1,
            format: bits / 0x4000_0000 % 2 == 1,
            sub: (bits / 0x1_0000 % 0x4000) as u16,
            length: (bits % 0x1_0000) as usize,
        }
    }

    /// The header with these parts.
    #[inline(always)]
    pub(crate) fn bits(self) -> u32
        requires { FitsMessageHeader self }
        ensures { result ≡ message_header_bits self }
    {
        let data_flag = if self.data_error { 0x8000_0000 } else { 0 };
        let format_flag = if self.format { 0x4000_0000 } else { 0 };
        data_flag + format_flag + 0x1_0000 * u32::from(self.sub) + self.length as u32
    }
}
