//! The sequence numbers of channels.

ghost use Rattle.std.specs.Prelude.{◌≡◌};
ghost use Rattle.r10_packetout.specs.Numbers.{next_of};
ghost use Rattle.r10_packetout.specs.Places.{IsPlace};

/// A channel, and the sequence number of its next packet.
#[derive(Clone, Copy)]
pub(crate) struct Number {
    pub(crate) channel: u16,
    pub(crate) next: u8,
}

/// The place of a channel, or the length where it has none, and the number of its next packet: 0 where it has had none.
#[inline(always)]
pub(crate) fn next_number(numbers: &[Number], channel: u16) -> (usize, u8)
    ensures place { IsPlace channel numbers.now result.0 }
    ensures next { result.1 ≡ next_of channel numbers.now }
{
    for (i, number) in numbers.iter().enumerate() {
        if number.channel == channel {
            return (i, number.next);
        }
    }
    (numbers.len(), 0)
}
