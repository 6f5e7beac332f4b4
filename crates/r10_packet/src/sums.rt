//! Checksums.

ghost use Rattle.std.specs.Prelude.{◌≡◌};
ghost use Rattle.r10_packet.specs.Sums.{sum_of_bytes, sum_of_words16, sum_of_words32};

/// The sum of the bytes modulo 2^8.
pub fn sum8(bytes: &[u8]) -> u8
    ensures { result ≡ sum_of_bytes bytes.now }
{
    let mut sum: u8 = 0;
    for b in bytes {
        sum = sum.wrapping_add(*b);
    }
    sum
}

/// The sum of the words of two bytes modulo 2^16.
pub fn sum16(bytes: &[u8]) -> u16
    ensures { result ≡ sum_of_words16 bytes.now }
{
    let (words, rest) = bytes.as_chunks::<2>();
    let mut total = 0u16;
    for word in words {
        total = total.wrapping_add(u16::from_le_bytes(*word));
    }
    match rest {
        [a] => total.wrapping_add(u16::from(*a)),
        _ => total,
    }
}

/// The sum of the words of four bytes modulo 2^32.
pub fn sum32(bytes: &[u8]) -> u32
    ensures { result ≡ sum_of_words32 bytes.now }
{
    let (words, rest) = bytes.as_chunks::<4>();
    let mut total = 0u32;
    for word in words {
        total = total.wrapping_add(u32::from_le_bytes(*word));
    }
    match rest {
        [a] => total.wrapping_add(u32::from(*a)),
        [a, b] => total.wrapping_add(u32::from_le_bytes([*a, *b, 0, 0])),
        [a, b, c] => total.wrapping_add(u32::from_le_bytes([*a, *b, *c, 0])),
        _ => total,
    }
}
