//! Laws of files that are strict or at fault, as calls that do nothing.

ghost use Rattle.std.specs.Prelude.{◌≡◌, ◌<◌, [], ◌++◌, ℕ, Bool, List, length};
ghost use Rattle.r10_body.specs.Faults.{IsAtFault};
ghost use Rattle.r10_body.specs.Packets.{Packet, packet_bytes, file_bytes};
ghost use Rattle.r10_body.specs.Rules.{EachFollows, MayFollow};
ghost use Rattle.r10_body.specs.declared.fault.FileFault.{FileFault};
ghost use Rattle.r10_judge.specs.Judged.{SaysClosed};

/// Where a file's packets go on after packets that keep the rules, the next one may follow them.
pub fn next_packet()
    ensures { (packets : List Packet) (all : List Packet) (rest : List ℕ) → EachFollows [] packets
        → EachFollows [] all → file_bytes all ≡ file_bytes packets ++ rest → 0 < length rest
        → (p : Packet) × (more : List Packet) × MayFollow packets p × (rest ≡ packet_bytes p ++ file_bytes more) }
{}

/// Under its directory entry a file has one first place and one fault there at most, and where it has one it is
/// no strict file with that closing.
pub fn one_first_fault()
    ensures offset { (bytes : List ℕ) (closed : Bool) (offset : ℕ) (fault : FileFault) (place : ℕ) (other : FileFault)
        → IsAtFault bytes closed offset fault → IsAtFault bytes closed place other → offset ≡ place }
    ensures fault { (bytes : List ℕ) (closed : Bool) (offset : ℕ) (fault : FileFault) (place : ℕ) (other : FileFault)
        → IsAtFault bytes closed offset fault → IsAtFault bytes closed place other → fault ≡ other }
    ensures apart { (bytes : List ℕ) (closed : Bool) (offset : ℕ) (fault : FileFault) → IsAtFault bytes closed offset fault
        → SaysClosed bytes closed → ⊥ }
{}

/// Under its directory entry a file is at fault, or it is a strict file with that closing: it can't be neither.
pub fn fault_or_strict()
    ensures { (bytes : List ℕ) (closed : Bool) → ((offset : ℕ) (fault : FileFault) → IsAtFault bytes closed offset fault → ⊥)
        → (SaysClosed bytes closed → ⊥) → ⊥ }
{}
