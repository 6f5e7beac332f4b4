//! What is known of the packet that is being filled.

ghost use Rattle.std.specs.Prelude.{◌≡◌, ◌+◌, ◌<◌, ◌^◌, Some};

use r10_body::Gap;
use r10_count::Count;

/// A packet with a message or more.
#[derive(Clone, Copy, Debug)]
pub(crate) struct OpenPacket {
    /// The count of the first message.
    pub(crate) first: Count,
    /// The count of the last message.
    pub(crate) last: Count,
    /// How many messages there are.
    pub(crate) number: usize,
    /// What was lost before the first one.
    pub(crate) gap: Gap,
}

/// Counts a message into an open packet, which is this one, after its last.
#[inline(always)]
pub(crate) fn count_in(place: &mut Option<OpenPacket>, packet: &OpenPacket, count: Count)
    requires is { place.old ≡ Some packet.now }
    requires few { packet.now.number + 1 < 2 ^ 64 }
    ensures { place.new
        ≡ Some (record { first = packet.now.first; last = count; number = packet.now.number + 1; gap = packet.now.gap }) }
{
    if let Some(open) = place {
        open.last = count;
        open.number += 1;
    }
}
