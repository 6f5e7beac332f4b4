//! What the bodies of channels say to the rules of a file. Their messages are read where they stand.

ghost use Rattle.std.specs.Prelude.{◌≡◌, ◌≤◌, IfSome, IfNone, length};
ghost use Rattle.r10_packet.specs.Limits.{longest_packet};
ghost use Rattle.r10_body.specs.Bodies.{IsBodyOf};
ghost use Rattle.r10_body.specs.Content.{Content, type_of};
ghost use Rattle.r10_body.specs.Messages.{kind_type};
ghost use Rattle.r10_body.specs.Packets.{packet_bytes};
ghost use Rattle.r10_packet_rules.specs.Facts.{AreFactsOf};
ghost use Rattle.r10_packet_rules.specs.Header.{AreFactsOfHeader, packet_of};

use crate::facts::{Facts, PacketKind};
use crate::packet_facts::facts_of;
use crate::scan::{ScannedEntry, scan_body};
use r10_packet::Header;

/// The facts of a packet of a channel whose packets have such entries.
pub(crate) fn read_channel<E: ScannedEntry>(header: &Header, body: &[u8]) -> Option<Facts>
    requires short { length body.now ≤ longest_packet }
    requires reported { header.now.data_type ≡ kind_type E.channel.kind }
    ensures found { IfSome result (λ f. (content : Content) × IsBodyOf header.now.data_type header.now.counter content body.now
        × AreFactsOfHeader f header.now content) }
    ensures none { IfNone result ((content : Content) → IsBodyOf header.now.data_type header.now.counter content body.now → ⊥) }
{
    let setting = E::setting_in(body);
    let origin = E::origin(header.counter);
    let Some(tally) = scan_body::<E>(setting, origin, body) else {
        return None;
    };
    Some(facts_of(header, PacketKind::Data, tally))
}
