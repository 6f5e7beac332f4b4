//! Which data checksum a packet has.

ghost use Rattle.std.specs.Prelude.{◌≡◌, ◌/◌, ◌<◌, ◌≤◌};
ghost use Rattle.r10_packet.specs.Header.{check_bits_of, flags_of, checksum_bits, check_of_bits, is_check_width};

/// The data checksum after a packet's body and filler.
#[derive(Clone, Copy, Debug, PartialEq, Eq)]
pub enum Check {
    Nothing,
    Sum8,
    Sum16,
    Sum32,
}

impl Check {
    /// Whether a data checksum has so many bits: 0, 8, 16 or 32.
    pub fn is_width(bits: usize) -> bool
        ensures { result ≡ is_check_width bits }
    {
        matches!(bits, 0 | 8 | 16 | 32)
    }

    /// The data checksum of so many bits; of any number that is no width, `Nothing`.
    pub fn of_bits(bits: usize) -> Check
        ensures { result ≡ check_of_bits bits }
    {
        match bits {
            8 => Check::Sum8,
            16 => Check::Sum16,
            32 => Check::Sum32,
            _ => Check::Nothing,
        }
    }

    /// The data checksum that a header's flags tell.
    pub fn of_flags(flags: u8) -> Check
        ensures { check_bits_of result ≡ checksum_bits flags }
    {
        match flags % 4 {
            0 => Check::Nothing,
            1 => Check::Sum8,
            2 => Check::Sum16,
            _ => Check::Sum32,
        }
    }

    /// The two low bits of the flags that tell it.
    pub fn flags(self) -> u8
        ensures value { result ≡ flags_of self }
        ensures range { result < 4 }
    {
        match self {
            Check::Nothing => 0,
            Check::Sum8 => 1,
            Check::Sum16 => 2,
            Check::Sum32 => 3,
        }
    }

    /// How many bytes it has.
    pub fn width(self) -> usize
        ensures value { result ≡ check_bits_of self / 8 }
        ensures range { result ≤ 4 }
    {
        match self {
            Check::Nothing => 0,
            Check::Sum8 => 1,
            Check::Sum16 => 2,
            Check::Sum32 => 4,
        }
    }
}
