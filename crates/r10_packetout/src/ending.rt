//! What stands after a packet's body.

ghost use Rattle.std.specs.Prelude.{◌≡◌, ◌≤◌, ◌++◌, length};
ghost use Rattle.r10_packet.specs.Header.{check_bits_of};
ghost use Rattle.r10_packet.specs.Limits.{longest_body};
ghost use Rattle.r10_packet.specs.Packet.{least_filler};
ghost use Rattle.r10_packet.specs.Sums.{data_checksum};

use r10_packet::{Check, sum8, sum16, sum32};

/// Filler and data checksum, at most 3 bytes and at most 4, as they stand within eight.
#[derive(Clone, Copy)]
pub(crate) struct Ending {
    pub(crate) bytes: [u8; 8],
    pub(crate) start: usize,
    pub(crate) end: usize,
    ghost within: { start ≤ end },
    ghost few: { end ≤ 7 },
}

impl Ending {
    ghost use Rattle.r10_packetout.specs.Ending.{said};

    /// What stands after a body.
    pub(crate) fn of(check: Check, body: &[u8]) -> Ending
        requires { length body.now ≤ longest_body }
        ensures { let filler = least_filler (check_bits_of check) body.now in said result
            ≡ filler ++ data_checksum (check_bits_of check) (body.now ++ filler) }
    {
        let width = check.width();
        let filler = (4 - (body.len() + width) % 4) % 4;
        // three zeros and the data checksum, to which filler adds nothing, and zeros after it
        let bytes = match check {
            Check::Nothing => [0; 8],
            Check::Sum8 => at_once(&[0, 0, 0, sum8(body), 0, 0, 0, 0]),
            Check::Sum16 => {
                let [a, b] = sum16(body).to_le_bytes();
                at_once(&[0, 0, 0, a, b, 0, 0, 0])
            }
            Check::Sum32 => {
                let [a, b, c, d] = sum32(body).to_le_bytes();
                at_once(&[0, 0, 0, a, b, c, d, 0])
            }
        };
        Ending {
            bytes,
            start: 3 - filler,
            end: 3 + width,
        }
    }
}

/// The same bytes, by way of a number: so they are stored at once, and a copy of some of them waits for one store alone.
#[inline(always)]
fn at_once(bytes: &[u8; 8]) -> [u8; 8]
    ensures { result ≡ bytes.now }
{
    u64::from_le_bytes(*bytes).to_le_bytes()
}
