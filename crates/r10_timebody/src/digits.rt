//! Packed decimal digits: four bits for each digit.

ghost use Rattle.std.specs.Prelude.{◌≡◌, ◌<◌, ◌+◌, ◌*◌, ◌/◌, ◌%◌};
ghost use Rattle.r10_timebody.specs.Time.{two_packed_digits};

/// A number below 100 as two packed decimal digits.
pub(crate) fn to_bcd(number: u16) -> u8
    requires { number < 100 }
    ensures { result ≡ two_packed_digits number }
{
    (number / 10 * 16 + number % 10) as u8
}

/// The number of two packed decimal digits, each up to 15.
pub(crate) fn from_bcd(digits: u8) -> u16
    ensures { result ≡ digits / 16 * 10 + digits % 16 }
{
    u16::from(digits / 16) * 10 + u16::from(digits % 16)
}
