//! Laws of broken rules, as calls that do nothing.

ghost use Rattle.std.specs.Prelude.{◌≡◌, ◌≤◌, ◌⊎◌, true, ℕ, Bool, List, IsTrue};
ghost use Rattle.r10_body.specs.Faults.{ReadsPacket, BreaksRule};
ghost use Rattle.r10_body.specs.Packets.{Packet};
ghost use Rattle.r10_body.specs.Rules.{is_index};
ghost use Rattle.r10_file_rules.specs.Broken.{Breaks};

/// Of the rules from 4 on, a packet breaks those that its bytes break, but for an index packet where the
/// directory entry is unclosed, and for a report by what stands after it.
pub fn broken_rules()
    ensures bytes { (before : List Packet) (bytes : List ℕ) (closed : Bool) (p : Packet) (n : ℕ) → ReadsPacket bytes p
        → Breaks before p n → BreaksRule before bytes closed n }
    ensures packet { (before : List Packet) (bytes : List ℕ) (closed : Bool) (p : Packet) (n : ℕ) → ReadsPacket bytes p
        → (IsTrue (is_index p) → closed ≡ true) → 4 ≤ n → BreaksRule before bytes closed n → (n ≡ 11) ⊎ Breaks before p n }
{}
