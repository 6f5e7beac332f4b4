//! What packets and builders say together, as calls that do nothing.

ghost use Rattle.std.specs.Prelude.{◌≡◌, ◌+◌, ◌<◌, ◌++◌, ℕ, List, [], ◌∷◌, length, map, get_or, set};
ghost use Rattle.std.specs.List.{sum_by};
ghost use Rattle.r10_body.specs.Cost.{entry_cost, file_cost};
ghost use Rattle.r10_body.specs.Files.{on_channel};
ghost use Rattle.r10_body.specs.Packets.{Packet, packet_entries};
ghost use Rattle.r10_body.specs.declared.entry.Entry.{Entry};
ghost use Rattle.r10_body.specs.declared.entry.Sample.{Sample};
ghost use Rattle.r10_builder.specs.Packing.{entry_on};
ghost use Rattle.r10_builder.specs.State.{BuilderState};
ghost use Rattle.r10_builder.specs.Grows.{BuildersAreApart, Grows, HasNoneOf, all_held, held, taken_in};

/// Of builders that are apart, one holds what is open on its channel; where it changes, the others' channels stay.
pub fn builders_by_channel()
    ensures own { (builders : List BuilderState) (i : ℕ) (d : BuilderState) → i < length builders → BuildersAreApart builders
        → on_channel (get_or builders i d).spec.id (all_held builders) ≡ held (get_or builders i d) }
    ensures none { (builders : List BuilderState) (channel : ℕ) → HasNoneOf channel builders
        → on_channel channel (all_held builders) ≡ [] }
    ensures apart { (builders : List BuilderState) (i : ℕ) (d : BuilderState) (new : BuilderState) → i < length builders
        → BuildersAreApart builders → new.spec ≡ (get_or builders i d).spec → BuildersAreApart (set builders i new) }
{}

/// Nothing is lost, doubled or put in another order on its channel: not where a sample joins a builder,
/// nor where a packet of a builder's first samples is written, nor where a packet of another channel is.
pub fn entries_are_kept()
    ensures joins { (packets : List Packet) (builders : List BuilderState) (i : ℕ) (d : BuilderState)
        (new : BuilderState) (more : List Sample) → i < length builders → BuildersAreApart builders
        → new.spec ≡ (get_or builders i d).spec → new.samples ≡ (get_or builders i d).samples ++ more
        → Grows packets builders (map (entry_on new.spec.id) more) packets (set builders i new) }
    ensures closes { (packets : List Packet) (builders : List BuilderState) (i : ℕ) (d : BuilderState)
        (new : BuilderState) (more : List Sample) (p : Packet) (written : List Sample)
        → i < length builders → BuildersAreApart builders → new.spec ≡ (get_or builders i d).spec
        → written ++ new.samples ≡ (get_or builders i d).samples ++ more → packet_entries p ≡ map (entry_on new.spec.id) written
        → Grows packets builders (map (entry_on new.spec.id) more) (packets ++ p ∷ []) (set builders i new) }
    ensures between { (packets : List Packet) (builders : List BuilderState) (p : Packet) → HasNoneOf p.channel builders
        → Grows packets builders (packet_entries p) (packets ++ p ∷ []) builders }
    ensures goes_on { (a : List Packet) (b : List BuilderState) (more : List Entry) (c : List Packet)
        (d : List BuilderState) (most : List Entry) (e : List Packet) (f : List BuilderState)
        → Grows a b more c d → Grows c d most e f → Grows a b (more ++ most) e f }
    ensures cost { (text : List ℕ) (a : List Packet) (b : List BuilderState)
        (more : List Entry) (c : List Packet) (d : List BuilderState)
        → Grows a b more c d → file_cost text (taken_in c d) ≡ file_cost text (taken_in a b) + sum_by entry_cost more }
    ensures same { (a : List Packet) (b : List BuilderState) (entries : List Entry)
        → ((channel : ℕ) → on_channel channel (taken_in a b) ≡ on_channel channel entries)
        → (text : List ℕ) → file_cost text (taken_in a b) ≡ file_cost text entries }
{}
