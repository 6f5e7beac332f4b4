//! The facts of a packet, from what its body comes to.

ghost use Rattle.std.specs.Prelude.{◌≡◌};
ghost use Rattle.r10_body.specs.Content.{Content, messages_of};
ghost use Rattle.r10_packet_rules.specs.Facts.{kind_of};
ghost use Rattle.r10_packet_rules.specs.Header.{AreFactsOfHeader};
ghost use Rattle.r10_packet_rules.specs.Tally.{tally_of};

use crate::facts::{Facts, PacketKind};
use crate::tally::EntryTally;
use r10_packet::Header;

/// The facts of the packet of a header, from its kind and its sums.
pub(crate) fn facts_of(header: &Header, kind: PacketKind, tally: EntryTally) -> Facts
    ensures { (content : Content) → kind ≡ kind_of content → tally ≡ tally_of (messages_of header.now.counter content)
        → AreFactsOfHeader result header.now content }
{
    Facts {
        channel: header.channel,
        sequence: header.sequence,
        flagged: header.flags / 16 % 2 == 1,
        counter: header.counter,
        data_type: header.data_type,
        kind,
        length: header.packet_len as usize,
        entries: tally.entries,
        cost: tally.cost,
        counts: tally.counts,
    }
}
