//! Laws of the index, as calls that do nothing.

ghost use Rattle.std.specs.Prelude.{◌≡◌, ◌^◌, ◌<◌, ◌≤◌, true, false, ℕ, Option, List, [], ◌∷◌, ◌++◌, length, count_by, Contains};
ghost use Rattle.r10_body.specs.Packets.{Packet, packet_entries, file_bytes};
ghost use Rattle.r10_body.specs.Rules.{EachFollows, IsFile, is_closed_file, is_index, node_entry_of, node_entries};
ghost use Rattle.r10_body.specs.declared.entry.Entry.{Entry};
ghost use Rattle.r10_index.specs.Candidates.{candidates, is_sought};
ghost use Rattle.r10_index.specs.Written.{index_of, IsGroup};

/// Packets without an index aren't closed.
pub fn without_index()
    ensures { (packets : List Packet) → count_by is_index packets ≡ 0 → is_closed_file packets ≡ false }
{}

/// A file that isn't closed, with its index of groups of so many nodes after it, keeps all rules and is closed.
pub fn written_index()
    ensures { (each : ℕ) (packets : List Packet) → IsGroup each → IsFile packets
        → is_closed_file packets ≡ false → length (file_bytes packets) < 2 ^ 63
        → IsFile (packets ++ index_of each packets) × (is_closed_file (packets ++ index_of each packets) ≡ true) }
{}

/// A packet more is an entry more, at the end of the packets before it.
pub fn entry_of_next()
    ensures { (packets : List Packet) (p : Packet)
        → node_entries 0 (packets ++ p ∷ []) ≡ node_entries 0 packets ++ node_entry_of (length (file_bytes packets)) p ∷ [] }
{}

/// Of packets that keep the rules each that has an entry on the channel, or on any where none is named, with a count in the
/// range is among the candidates.
pub fn none_left_out()
    ensures { (before : List Packet) (p : Packet) (behind : List Packet) (e : Entry) (channel : Option ℕ) (from : ℕ) (to : ℕ)
        → EachFollows [] (before ++ p ∷ behind)
        → Contains (packet_entries p) e → is_sought channel e.channel ≡ true → from ≤ e.count → e.count ≤ to → Contains
        (candidates channel from to (node_entries 0 (before ++ p ∷ behind))) (node_entry_of (length (file_bytes before)) p) }
{}
