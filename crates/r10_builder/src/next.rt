//! Which packet may come next, as calls that do nothing.

ghost use Rattle.std.specs.Prelude.{◌≡◌, ◌<◌, ◌≤◌, ◌^◌, ◌++◌, ℕ, false, List, [], ◌∷◌, length, map, take};
ghost use Rattle.r10_count.specs.Civil.{IsCivil};
ghost use Rattle.r10_count.specs.Count.{IsCount};
ghost use Rattle.r10_count.specs.declared.civil.Parts.{Parts};
ghost use Rattle.r10_packet.specs.Types.{type_event, type_time};
ghost use Rattle.r10_body.specs.Content.{setup};
ghost use Rattle.r10_body.specs.Files.{PacketsSay, on_channel};
ghost use Rattle.r10_body.specs.Limits.{longest_text};
ghost use Rattle.r10_body.specs.Messages.{kind_type};
ghost use Rattle.r10_body.specs.Packets.{Packet, file_entries};
ghost use Rattle.r10_body.specs.Rules.{MayFollow, is_index, is_report_packet, last_time};
ghost use Rattle.r10_body.specs.declared.entry.Entry.{Entry};
ghost use Rattle.r10_body.specs.declared.entry.Sample.{Sample};
ghost use Rattle.r10_body.specs.declared.spec.ChannelSpec.{ChannelSpec};
ghost use Rattle.r10_builder.specs.Packing.{IsClosedPacket, first_count};
ghost use Rattle.r10_builder.specs.declared.closed.Closed.{Closed};
ghost use Rattle.r10_builder.specs.Next.{ChannelGoesOn, IsGrowing, event_packet};
ghost use Rattle.r10_builder.specs.Next.{report_packet, reporting, setup_packet, time_packet};
ghost use Rattle.r10_body.specs.Sequence.{numbered};

/// What a builder hands out may come next, with its channel's next number, after its report where a number is reported of
/// what was lost before it.
pub fn handed_out_may_follow()
    ensures { (packets : List Packet) (spec : ChannelSpec) (samples : List Sample)
        (closed : Closed) (closes : IsClosedPacket spec samples closed)
        → IsGrowing packets → ChannelGoesOn packets spec.id (kind_type spec.kind) (first_count samples)
        → MayFollow (reporting packets closes.packet) (numbered (reporting packets closes.packet) closes.packet) }
{}

/// The report of a loss may come next, with the counter of the last time packet.
pub fn report_may_follow()
    ensures { (packets : List Packet) (channel : ℕ) (lost : ℕ) → IsGrowing packets → channel < 2 ^ 16 → 0 < lost → lost < 2 ^ 64
        → MayFollow packets (numbered packets (report_packet (last_time 0 packets) channel lost)) }
{}

/// A time may come next, on a channel of times.
pub fn time_may_follow()
    ensures { (packets : List Packet) (channel : ℕ) (count : ℕ) (civil : Parts)
        → IsGrowing packets → ChannelGoesOn packets channel type_time count
        → channel < 2 ^ 16 → IsCount count → IsCivil civil
        → MayFollow packets (numbered packets (time_packet channel count civil)) }
{}

/// An event may come next, on a channel of events. It tells how many of its number came before it.
pub fn event_may_follow()
    ensures { (packets : List Packet) (channel : ℕ) (count : ℕ) (number : ℕ)
        → IsGrowing packets → ChannelGoesOn packets channel type_event count
        → channel < 2 ^ 16 → IsCount count → number < 2 ^ 12
        → MayFollow packets (numbered packets (event_packet channel count number packets)) }
{}

/// A setup text that isn't too long and a time begin a file.
pub fn file_begins()
    ensures { (text : List ℕ) (channel : ℕ) (count : ℕ) (civil : Parts)
        → length text ≤ longest_text → 0 < channel → channel < 2 ^ 16 → IsCount count → IsCivil civil
        → IsGrowing (setup_packet count text ∷ time_packet channel count civil ∷ []) }
{}

/// A file that grows by a packet that may come next and is no report goes on growing, and at each moment it is a file.
pub fn one_more_grows()
    ensures more { (packets : List Packet) (p : Packet) → IsGrowing packets → MayFollow packets p → is_index p ≡ false
        → is_report_packet p ≡ false → IsGrowing (packets ++ p ∷ []) }
    ensures file { (packets : List Packet) (text : List ℕ) (entries : List Entry)
        → IsGrowing packets → map (λ p. p.content) (take 1 packets) ≡ setup text ∷ []
        → ((channel : ℕ) → on_channel channel (file_entries packets) ≡ on_channel channel entries)
        → PacketsSay packets text entries false }
{}
