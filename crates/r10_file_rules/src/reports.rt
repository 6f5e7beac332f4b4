//! What a packet reports, and the rule of reports.

ghost use Rattle.std.specs.Prelude.{◌≡◌, ◌↔◌, IsTrue, IfSome};
ghost use Rattle.r10_body.specs.Packets.{Packet};
ghost use Rattle.r10_body.specs.Rules.{IsSoundReport, report_of};
ghost use Rattle.r10_packet_rules.specs.Facts.{kind_of};

use r10_indexbody::LossBody;
use r10_packet_rules::PacketKind;

/// What a packet reports, if it is a report.
pub(crate) fn report_in(kind: &PacketKind) -> Option<LossBody>
    ensures { (p : Packet) → kind.now ≡ kind_of p.content → result ≡ report_of p }
{
    match *kind {
        PacketKind::Report { loss } => Some(loss),
        _ => None,
    }
}

/// Rule 11, as far as a report by itself keeps it: whether it tells of a message at least, and its reserved field is 0.
pub(crate) fn keeps_report(kind: &PacketKind) -> bool
    ensures { (p : Packet) → kind.now ≡ kind_of p.content → (IsTrue result ↔ IfSome (report_of p) IsSoundReport) }
{
    is_sound(report_in(kind))
}

fn is_sound(report: Option<LossBody>) -> bool
    ensures { IsTrue result ↔ IfSome report IsSoundReport }
{
    match report {
        Some(loss) => loss.reserved == 0 && 0 < loss.lost,
        None => true,
    }
}
