//! How what a file carries grows, as calls that do nothing.

ghost use Rattle.std.specs.Prelude.{◌≡◌, ◌+◌, ◌%◌, ◌^◌, ◌<◌, ◌≤◌, ◌++◌, ℕ, true, false, List, [], ◌∷◌, get_or, length, set, None};
ghost use Rattle.std.specs.List.{sum_by};
ghost use Rattle.r10_count.specs.Civil.{IsCivil};
ghost use Rattle.r10_count.specs.Count.{IsCount};
ghost use Rattle.r10_count.specs.declared.civil.Parts.{Parts};
ghost use Rattle.r10_medium.specs.Disk.{Image as MediumImage};
ghost use Rattle.r10_packet.specs.declared.header.Header.{Header};
ghost use Rattle.r10_body.specs.Cost.{entry_cost, file_cost};
ghost use Rattle.r10_body.specs.Files.{PacketsSay, on_channel};
ghost use Rattle.r10_body.specs.Limits.{longest_text};
ghost use Rattle.r10_body.specs.Packets.{Packet as StrictPacket, file_bytes, file_entries};
ghost use Rattle.r10_body.specs.Rules.{Rise};
ghost use Rattle.r10_body.specs.declared.entry.Entry.{Entry};
ghost use Rattle.r10_body.specs.declared.entry.Sample.{Sample};
ghost use Rattle.r10_body.specs.Sequence.{last_count, numbered};
ghost use Rattle.r10_index.specs.Written.{IsGroup, index_of, index_size};
ghost use Rattle.r10_builder.specs.Packing.{entry_on};
ghost use Rattle.r10_builder.specs.State.{BuilderState};
ghost use Rattle.r10_builder.specs.declared.closed.Closed.{Closed};
ghost use Rattle.r10_builder.specs.Grows.{all_held};
ghost use Rattle.r10_builder.specs.Next.{event_packet, extended_by, setup_packet, time_packet};
ghost use Rattle.r10_builder.specs.Packed.{HandsOnPacket, TakesInSamples};
ghost use Rattle.r10_builder.specs.Settings.{AreChannelSettings, BuilderTakes, specs_of};
ghost use Rattle.r10_packetout.specs.Output.{Has, Writing};
ghost use Rattle.r10_packetout.specs.Packets.{Describes, packet_size, report_size};
ghost use Rattle.r10_packetout.specs.Carries.{EventsAreCounted, Records, HasNoEvents, Recording, Says, StandApart};
ghost use Rattle.r10_packetout.specs.Carries.{next_event_entry, occurrences, time_entry_at};

/// Entries that go into a builder, without a packet, are carried.
pub fn samples_are_carried()
    ensures { (r : Recording) (image : MediumImage) (text : List ℕ) (entries : List Entry)
        (more : List Entry) (builders : List BuilderState) (carried : Records r image text entries)
        → HasNoEvents more → TakesInSamples carried.packets r.builders more None builders
        → Records (record r { builders = builders; cost = r.cost + sum_by entry_cost more }) image text (entries ++ more) }
{}

/// What a channel's builder takes is no event.
pub fn samples_are_no_events()
    ensures { (channel : ℕ) (s : Sample) (builders : List BuilderState) → BuilderTakes channel s builders
        → HasNoEvents (entry_on channel s ∷ []) }
{}

/// What is handed out and put after the packets, and before it a report where a number is reported of what was lost, is
/// carried, with the entries that were taken in by it.
pub fn packets_are_carried()
    ensures { (r : Recording) (image : MediumImage) (text : List ℕ) (entries : List Entry) (more : List Entry)
        (builders : List BuilderState) (carried : Records r image text entries) → StandApart r → HasNoEvents more
        → (closed : Closed) (hands : HandsOnPacket closed carried.packets r.builders more builders) (out : Writing)
        (later : MediumImage)
        → Has out later (extended_by carried.packets hands.packet) → Records
        (record r { builders = builders; out = out; cost = r.cost + sum_by entry_cost more }) later text (entries ++ more) }
{}

/// A time that is no earlier than the last, put after the packets, is carried.
pub fn times_are_carried()
    ensures { (r : Recording) (image : MediumImage) (text : List ℕ) (entries : List Entry) (carried : Records r image text entries)
        → StandApart r → (count : ℕ) (civil : Parts) → last_count 0 (on_channel r.time entries) ≤ count
        → IsCount count → IsCivil civil → (out : Writing) (later : MediumImage)
        → Has out later (carried.packets ++ numbered carried.packets (time_packet r.time count civil) ∷ [])
        → Records (record r { out = out; clock = count; cost = r.cost + entry_cost (time_entry_at r.time count civil) }) later text
        (entries ++ time_entry_at r.time count civil ∷ []) }
{}

/// An event that is no earlier than the last, put after the packets, is carried, and counted. What it
/// tells is what is kept of its number.
pub fn events_are_carried()
    ensures carried { (r : Recording) (image : MediumImage) (text : List ℕ) (entries : List Entry)
        (carried : Records r image text entries) → StandApart r → (count : ℕ) (number : ℕ)
        → last_count 0 (on_channel r.event entries) ≤ count → IsCount count
        → number < 2 ^ 12 → number < length r.counts → (out : Writing) (later : MediumImage)
        → Has out later (carried.packets ++ numbered carried.packets (event_packet r.event count number carried.packets) ∷ [])
        → Records (record r {
          out = out;
          counts = set r.counts number ((get_or r.counts number 0 + 1) % 65536);
          cost = r.cost + entry_cost (next_event_entry r.event count number entries);
        }) later text (entries ++ next_event_entry r.event count number entries ∷ []) }
    ensures reported { (r : Recording) (packets : List StrictPacket) (text : List ℕ) (entries : List Entry)
        → Says r packets text entries → (number : ℕ) → get_or r.counts number 0 ≡ occurrences number (file_entries packets) }
{}

/// A file begins with a setup text of at most 524,260 bytes and a time, where nothing is open. Its first
/// two packets, with an index after them, end within what it costs.
pub fn files_begin()
    ensures carried { (r : Recording) (text : List ℕ) (count : ℕ) (civil : Parts) → StandApart r
        → AreChannelSettings 0 (specs_of r.builders) → all_held r.builders ≡ [] → EventsAreCounted r.counts []
        → length text ≤ longest_text → IsCount count → IsCivil civil → (out : Writing) (later : MediumImage)
        → Has out later (numbered [] (setup_packet count text)
        ∷ numbered (numbered [] (setup_packet count text) ∷ []) (time_packet r.time count civil) ∷ [])
        → Records (record r { out = out; clock = count; cost = file_cost text (time_entry_at r.time count civil ∷ []) }) later text
        (time_entry_at r.time count civil ∷ []) }
    ensures room { (r : Recording) (text : List ℕ) (count : ℕ) (civil : Parts) → StandApart r
        → AreChannelSettings 0 (specs_of r.builders) → all_held r.builders ≡ [] → EventsAreCounted r.counts []
        → length text ≤ longest_text → IsCount count → IsCivil civil
        → (header : Header) (second : Header) (body : List ℕ) (other : List ℕ)
        → Describes header body (setup_packet count text) → Describes second other (time_packet r.time count civil)
        → packet_size header body + packet_size second other + index_size 2
        ≤ file_cost text (time_entry_at r.time count civil ∷ []) }
{}

/// Where nothing is open, the packets with their index after them, in groups of so many nodes, are a closed file that says all
/// entries.
pub fn closed_files_say()
    ensures { (r : Recording) (packets : List StrictPacket) (text : List ℕ) (entries : List Entry) (nodes : ℕ)
        → Says r packets text entries → all_held r.builders ≡ [] → IsGroup nodes → length (file_bytes packets) < 2 ^ 63
        → PacketsSay (packets ++ index_of nodes packets) text entries true }
{}

/// The packets, with their index after them, are no longer than the file costs, and so they stay with
/// each packet that is put after them.
pub fn packets_have_room()
    ensures index { (r : Recording) (packets : List StrictPacket) (text : List ℕ) (entries : List Entry)
        → Says r packets text entries → r.cost < 2 ^ 63 → length (file_bytes packets) + index_size (length packets) ≤ r.cost }
    ensures handed { (r : Recording) (packets : List StrictPacket) (text : List ℕ) (entries : List Entry)
        (more : List Entry) (builders : List BuilderState) → Says r packets text entries → StandApart r → HasNoEvents more
        → (closed : Closed) (hands : HandsOnPacket closed packets r.builders more builders)
        → r.cost + sum_by entry_cost more < 2 ^ 63
        → length (file_bytes packets) + report_size closed.gap + packet_size closed.header closed.body.items + index_size
        (length (extended_by packets hands.packet)) ≤ r.cost + sum_by entry_cost more }
    ensures time { (r : Recording) (packets : List StrictPacket) (text : List ℕ) (entries : List Entry)
        → Says r packets text entries → StandApart r
        → (count : ℕ) (civil : Parts) → last_count 0 (on_channel r.time entries) ≤ count → IsCount count
        → IsCivil civil → (header : Header) (body : List ℕ) → Describes header body (time_packet r.time count civil)
        → r.cost + entry_cost (time_entry_at r.time count civil) < 2 ^ 63
        → length (file_bytes packets) + packet_size header body + index_size (length packets + 1)
        ≤ r.cost + entry_cost (time_entry_at r.time count civil) }
    ensures event { (r : Recording) (packets : List StrictPacket) (text : List ℕ) (entries : List Entry)
        → Says r packets text entries → StandApart r → (count : ℕ) (number : ℕ) → last_count 0 (on_channel r.event entries) ≤ count
        → IsCount count → number < 2 ^ 12 → number < length r.counts → (header : Header) (body : List ℕ)
        → Describes header body (event_packet r.event count number packets)
        → r.cost + entry_cost (next_event_entry r.event count number entries) < 2 ^ 63
        → length (file_bytes packets) + packet_size header body + index_size (length packets + 1)
        ≤ r.cost + entry_cost (next_event_entry r.event count number entries) }
{}

/// Where an entry may come after others, none on its channel is later.
pub fn none_is_later()
    ensures { (entries : List Entry) (e : Entry)
        → ((channel : ℕ) → Rise 0 (on_channel channel entries ++ on_channel channel (e ∷ [])))
        → last_count 0 (on_channel e.channel entries) ≤ e.count }
{}

/// Where nothing is open, the packets are a file that says all entries.
pub fn flushed_files_say()
    ensures { (r : Recording) (packets : List StrictPacket) (text : List ℕ) (entries : List Entry) → Says r packets text entries
        → all_held r.builders ≡ [] → PacketsSay packets text entries false }
{}

/// The packets are no longer than the file costs.
pub fn costs_cover()
    ensures { (r : Recording) (packets : List StrictPacket) (text : List ℕ) (entries : List Entry) → Says r packets text entries
        → length (file_bytes packets) ≤ r.cost }
{}
