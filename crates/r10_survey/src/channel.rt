//! What the packets of one channel come to.

ghost use Rattle.std.specs.Prelude.{◌≡◌, cond, ◌∷◌, [], ◌++◌, ℕ, List};
ghost use Rattle.r10_survey.specs.Looks.{IsSeen};
ghost use Rattle.r10_survey.specs.Counts.{AreCountsOf, breaks};

use crate::look::SeenPacket;
use r10_count::Count;

/// What the packets of one channel come to. A number that needs more than 64 bits is the largest of 64 bits.
#[derive(Clone, Copy, Debug, PartialEq, Eq)]
pub struct ChannelCount {
    /// The data type of its first packet.
    pub data_type: u8,
    /// How many of its packets have another data type.
    pub other_types: u64,
    pub packets: u64,
    /// How many bytes they have.
    pub bytes: u64,
    /// How many entries those have that are read, where the entries of their data type are counted.
    pub entries: u64,
    /// How many are separated from the next one, and not read.
    pub opaque: u64,
    /// How many have a data checksum that is wrong, or that has no room. They are opaque: of others this is a fault.
    pub wrong_sums: u64,
    /// How many have the flag of messages that were lost before them.
    pub losses: u64,
    /// How many have another sequence number than the one after that of the channel's packet before.
    pub gaps: u64,
    /// The sequence number of its last packet.
    pub sequence: u8,
    /// The relative time counter of its first packet.
    pub first: Count,
    /// The relative time counter of its last packet.
    pub last: Count,
}

/// One of what is, none of what is not.
fn one_if(is: bool) -> u64
    ensures { result ≡ cond is 1 0 }
{
    if is { 1 } else { 0 }
}

/// Whether a packet is not the next one after one of a sequence number.
fn is_gap(before: u8, sequence: u8) -> bool
    ensures { result ≡ breaks before sequence }
{
    sequence != before.wrapping_add(1)
}

impl ChannelCount {
    /// Of one packet.
    pub(crate) fn of_first(seen: &SeenPacket) -> ChannelCount
        ensures { (p : List ℕ) → IsSeen seen.now p → AreCountsOf (p ∷ []) result }
    {
        ChannelCount {
            data_type: seen.header.data_type,
            other_types: 0,
            packets: 1,
            bytes: 0u64.saturating_add(seen.length as u64),
            entries: 0u64.saturating_add(seen.entries as u64),
            opaque: one_if(seen.opaque),
            wrong_sums: one_if(!seen.right),
            losses: one_if(seen.header.flags / 16 % 2 == 1),
            gaps: 0,
            sequence: seen.header.sequence,
            first: seen.header.counter,
            last: seen.header.counter,
        }
    }

    /// With one packet more.
    pub(crate) fn with(&self, seen: &SeenPacket) -> ChannelCount
        ensures { (own : List (List ℕ)) (p : List ℕ) → AreCountsOf own self.now → IsSeen seen.now p
            → AreCountsOf (own ++ p ∷ []) result }
    {
        let header = &seen.header;
        let other = header.data_type != self.data_type;
        let lost = header.flags / 16 % 2 == 1;
        let gap = is_gap(self.sequence, header.sequence);
        ChannelCount {
            data_type: self.data_type,
            other_types: self.other_types.saturating_add(one_if(other)),
            packets: self.packets.saturating_add(1),
            bytes: self.bytes.saturating_add(seen.length as u64),
            entries: self.entries.saturating_add(seen.entries as u64),
            opaque: self.opaque.saturating_add(one_if(seen.opaque)),
            wrong_sums: self.wrong_sums.saturating_add(one_if(!seen.right)),
            losses: self.losses.saturating_add(one_if(lost)),
            gaps: self.gaps.saturating_add(one_if(gap)),
            sequence: header.sequence,
            first: self.first,
            last: header.counter,
        }
    }
}
