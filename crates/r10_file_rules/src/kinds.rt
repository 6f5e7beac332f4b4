//! Which kinds of packet the rules tell apart.

ghost use Rattle.std.specs.Prelude.{◌≡◌};
ghost use Rattle.r10_file_rules.specs.Kinds.{setup_kind, time_kind, data_kind, index_kind, report_kind};

use r10_packet_rules::PacketKind;

pub(crate) fn is_setup_kind(kind: &PacketKind) -> bool
    ensures { result ≡ setup_kind kind.now }
{
    matches!(*kind, PacketKind::Setup)
}

pub(crate) fn is_time_kind(kind: &PacketKind) -> bool
    ensures { result ≡ time_kind kind.now }
{
    matches!(*kind, PacketKind::Time { .. })
}

pub(crate) fn is_data_kind(kind: &PacketKind) -> bool
    ensures { result ≡ data_kind kind.now }
{
    matches!(*kind, PacketKind::Data)
}

pub(crate) fn is_index_kind(kind: &PacketKind) -> bool
    ensures { result ≡ index_kind kind.now }
{
    matches!(*kind, PacketKind::Node | PacketKind::Root)
}

pub(crate) fn is_report_kind(kind: &PacketKind) -> bool
    ensures { result ≡ report_kind kind.now }
{
    matches!(*kind, PacketKind::Report { .. })
}
