//! The bodies of nodes and roots, compared byte by byte.

ghost use Rattle.std.specs.Prelude.{◌≡◌, ◌+◌, ◌*◌, ◌^◌, ◌<◌, ◌≤◌, ◌↔◌, ◌∷◌, [], ◌++◌, List, ℕ, length, IsTrue, IfSome, IfNone};
ghost use Rattle.std.specs.List.{flat_map};
ghost use Rattle.r10_count.specs.Count.{IsCount};
ghost use Rattle.r10_body.specs.Limits.{entries_per_node, full_node};
ghost use Rattle.r10_indexbody.specs.Index.{node_entry, root_entry, node_body, root_body};
ghost use Rattle.r10_index.specs.Written.{names};
ghost use Rattle.r10_file_rules.specs.Names.{root_at};

use r10_body::FULL_NODE;
use r10_indexbody::NodeEntry;

/// The bytes after others that stand first.
fn behind<'a>(bytes: &'a [u8], front: &[u8]) -> Option<&'a [u8]>
    ensures found { IfSome result (λ rest. bytes.now ≡ front.now ++ rest.now) }
    ensures none { IfNone result ((rest : List ℕ) → bytes.now ≡ front.now ++ rest → ⊥) }
{
    bytes.strip_prefix(front)
}

/// The bytes after what a node says of a packet.
fn behind_packet<'a>(bytes: &'a [u8], entry: &NodeEntry) -> Option<&'a [u8]>
    ensures found { IfSome result (λ rest. bytes.now ≡ node_entry entry.now ++ rest.now) }
    ensures none { IfNone result ((rest : List ℕ) → bytes.now ≡ node_entry entry.now ++ rest → ⊥) }
{
    let packet = entry.packet_word();
    let rest = behind(bytes, &entry.counter.stamp())?;
    let rest = behind(rest, &packet.to_le_bytes())?;
    behind(rest, &entry.offset.to_le_bytes())
}

/// Whether bytes are what a node says of packets.
fn are_packets(bytes: &[u8], entries: &[NodeEntry]) -> bool
    ensures { IsTrue result ↔ (bytes.now ≡ flat_map node_entry entries.now) }
{
    let mut left = bytes;
    for entry in entries {
        match behind_packet(left, entry) {
            Some(rest) => left = rest,
            None => return false,
        }
    }
    left.is_empty()
}

/// Whether a body is that of a node with these entries.
pub(crate) fn is_node_body(body: &[u8], entries: &[NodeEntry]) -> bool
    requires { length entries.now ≤ entries_per_node }
    ensures { IsTrue result ↔ (body.now ≡ node_body entries.now) }
{
    let word = 0x8000_0000 + entries.len() as u32;
    match behind(body, &word.to_le_bytes()) {
        Some(rest) => are_packets(rest, entries),
        None => false,
    }
}

/// The bytes after what a root says of a packet.
fn behind_root(bytes: &[u8], counter: u64, offset: u64) -> Option<&[u8]>
    requires { IsCount counter }
    ensures found { IfSome result (λ rest. bytes.now ≡ root_entry (root_at counter offset) ++ rest.now) }
    ensures none { IfNone result ((rest : List ℕ) → bytes.now ≡ root_entry (root_at counter offset) ++ rest → ⊥) }
{
    let rest = behind(bytes, &counter.to_le_bytes())?;
    behind(rest, &offset.to_le_bytes())
}

/// From the offset of a full node to that of the next.
const STEP: u64 = FULL_NODE as u64;

/// The bytes after what a root says of so many full nodes, of which the first begins at an offset.
fn behind_nodes(bytes: &[u8], counter: u64, end: u64, nodes: usize) -> Option<&[u8]>
    requires counter { IsCount counter }
    requires few { nodes < 65535 }
    ensures found { end + full_node * nodes < 2 ^ 64
        → IfSome result (λ rest. bytes.now ≡ flat_map root_entry (names counter end nodes) ++ rest.now) }
    ensures none { end + full_node * nodes < 2 ^ 64
        → IfNone result ((rest : List ℕ) → bytes.now ≡ flat_map root_entry (names counter end nodes) ++ rest → ⊥) }
{
    let mut left = bytes;
    for node in 0..nodes {
        let offset = end.saturating_add(STEP * node as u64);
        left = behind_root(left, counter, offset)?;
    }
    Some(left)
}

/// Whether bytes are what a root says of itself.
fn is_own(bytes: &[u8], counter: u64, offset: u64) -> bool
    requires { IsCount counter }
    ensures { IsTrue result ↔ (bytes.now ≡ root_entry (root_at counter offset)) }
{
    match behind_root(bytes, counter, offset) {
        Some(rest) => rest.is_empty(),
        None => false,
    }
}

/// Where the nodes of an index stand.
#[derive(Clone, Copy)]
pub(crate) struct NodesAt {
    /// The counter of each.
    pub(crate) counter: u64,
    /// The offset of the first.
    pub(crate) end: u64,
    /// How many there are.
    pub(crate) nodes: usize,
}

/// Whether a body is that of a root after these nodes, with a counter and at an offset.
pub(crate) fn is_root_body(body: &[u8], at: NodesAt, counter: u64, offset: u64) -> bool
    requires nodes { IsCount at.counter }
    requires own { IsCount counter }
    requires few { at.nodes < 65535 }
    ensures { at.end + full_node * at.nodes < 2 ^ 64
        → (IsTrue result ↔ (body.now ≡ root_body (names at.counter at.end at.nodes ++ root_at counter offset ∷ []))) }
{
    let word = at.nodes as u32 + 1;
    match behind(body, &word.to_le_bytes()) {
        Some(rest) => are_roots(rest, at, counter, offset),
        None => false,
    }
}

/// Whether bytes are what a root says of nodes and itself.
fn are_roots(bytes: &[u8], at: NodesAt, counter: u64, offset: u64) -> bool
    requires nodes { IsCount at.counter }
    requires own { IsCount counter }
    requires few { at.nodes < 65535 }
    ensures { at.end + full_node * at.nodes < 2 ^ 64 → (IsTrue result
        ↔ (bytes.now ≡ flat_map root_entry (names at.counter at.end at.nodes) ++ root_entry (root_at counter offset))) }
{
    match behind_nodes(bytes, at.counter, at.end, at.nodes) {
        Some(rest) => is_own(rest, counter, offset),
        None => false,
    }
}
