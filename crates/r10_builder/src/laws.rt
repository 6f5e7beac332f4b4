//! The law of what is handed out, as a call that does nothing.

ghost use Rattle.std.specs.Prelude.{◌≡◌, ℕ, List};
ghost use Rattle.r10_packet.specs.Packet.{framed_bytes};
ghost use Rattle.r10_body.specs.Packets.{packet_bytes};
ghost use Rattle.r10_body.specs.declared.entry.Sample.{Sample as SampleValue};
ghost use Rattle.r10_body.specs.declared.spec.ChannelSpec.{ChannelSpec as ChannelSpecValue};
ghost use Rattle.r10_builder.specs.Packing.{IsClosedPacket};
ghost use Rattle.r10_builder.specs.declared.closed.Closed.{Closed as ClosedValue};

/// Framed with a sequence number, header and body of what was handed out are the packet with this
/// number that says the samples.
pub fn handed_out_frames()
    ensures { (spec : ChannelSpecValue) (samples : List SampleValue)
        (closed : ClosedValue) (closes : IsClosedPacket spec samples closed) (number : ℕ)
        → framed_bytes (record closed.header { sequence = number }) closed.body.items
        ≡ packet_bytes (record closes.packet { sequence = number }) }
{}
