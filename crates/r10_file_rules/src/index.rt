//! What is kept of a file's index, and the rule of index packets.

ghost use Rattle.std.specs.Prelude.{◌≡◌, ◌+◌, ◌-◌, ◌*◌, ◌^◌, ◌<◌, ◌≤◌, ◌↔◌, ◌⊎◌, ◌==◌, ◌∷◌, [], ◌++◌, true, false, cond, List};
ghost use Rattle.std.specs.Prelude.{Some, length, min, count_by, IsTrue, MatchOption, OnOk};
ghost use Rattle.r10_count.specs.Count.{IsCount};
ghost use Rattle.r10_body.specs.Limits.{entries_per_node, full_node};
ghost use Rattle.r10_body.specs.Packets.{Packet, FitsPacket, packet_body, packet_entries, file_bytes};
ghost use Rattle.r10_body.specs.Rules.{KeepsIndex, EachFollows, MayFollow, is_index, last_time, node_entry_of, node_part};
ghost use Rattle.r10_index.specs.Counted.{IsBookOf, CountsEntriesUpTo};
ghost use Rattle.r10_indexbody.specs.Index.{node_body};
ghost use Rattle.r10_packet_rules.specs.Facts.{AreFactsOf};
ghost use Rattle.r10_file_rules.specs.Index.{HasPlaceIn, IsIndexed, IsRootHere, IsSameIndex};

use crate::names::{NodesAt, is_node_body, is_root_body};
use r10_body::ENTRIES_PER_NODE;
use r10_index::IndexBook;
use r10_indexbody::NodeEntry;
use r10_packet_rules::{Facts, PacketKind};
use std::alloc::{AllocError, Global};

#[derive(Drop)]
pub(crate) struct IndexTracks {
    /// What nodes say of the packets that are no index packets.
    pub(crate) book: IndexBook,
    /// The bytes of those packets.
    end: u64,
    /// The bytes of all packets.
    pub(crate) bytes: u64,
    /// How many nodes there are.
    pub(crate) nodes: usize,
    /// How many nodes stand before the first root.
    group: usize,
    /// How many nodes stand last, and where the first of them does.
    pending: usize,
    start: u64,
    /// Where the last root stands.
    root: Option<u64>,
    /// A root stands at the end.
    pub(crate) closed: bool,
}

impl IndexTracks {
    /// Of no packets.
    pub(crate) fn new(alloc: Global) -> IndexTracks
        ensures { IsIndexed result [] }
    {
        IndexTracks {
            book: IndexBook::new(alloc),
            end: 0,
            bytes: 0,
            nodes: 0,
            group: 0,
            pending: 0,
            start: 0,
            root: None,
            closed: false,
        }
    }

    /// Asks for the memory of one packet more.
    pub(crate) fn ready(&mut self) -> Result<(), AllocError>
        ensures same { IsSameIndex self.old self.new }
        ensures room { OnOk result (length self.new.book.entries < self.new.book.room) }
    {
        self.book.ready(1)
    }

    /// What the next node names.
    fn next_named(&self) -> &[NodeEntry]
        ensures named { result.now ≡ node_part self.now.nodes self.now.book.entries }
        ensures few { length result.now ≤ entries_per_node }
    {
        let entries = self.book.entries();
        let start = self
            .nodes
            .saturating_mul(ENTRIES_PER_NODE)
            .min(entries.len());
        let rest = &entries[start..];
        &rest[..rest.len().min(ENTRIES_PER_NODE)]
    }

    /// Whether nodes name all packets.
    pub(crate) fn names_all(&self) -> bool
        ensures { IsTrue result ↔ (length self.now.book.entries ≤ entries_per_node * self.now.nodes) }
    {
        self.book.entries().len() <= self.nodes.saturating_mul(ENTRIES_PER_NODE)
    }

    /// Whether there is no index packet.
    pub(crate) fn is_none(&self) -> bool
        ensures { (packets : List Packet) → IsIndexed self.now packets → (IsTrue result ↔ (count_by is_index packets ≡ 0)) }
    {
        self.nodes == 0 && self.root.is_none()
    }

    /// Rule 8: whether an index packet is the next one, or none stands before another packet. The
    /// nodes and the roots have the counter of the last time.
    pub(crate) fn keeps_index(&self, time: u64, facts: &Facts, body: &[u8]) -> bool
        requires { IsCount time }
        ensures { (packets : List Packet) (p : Packet) → IsIndexed self.now packets
            → EachFollows [] packets → length (file_bytes packets) < 2 ^ 63 → time ≡ last_time 0 packets
            → AreFactsOf facts.now p → FitsPacket p → body.now ≡ packet_body p → (IsTrue result ↔ KeepsIndex packets p) }
    {
        match facts.kind {
            PacketKind::Node => self.is_next_node(body),
            PacketKind::Root => self.is_next_root(time, facts, body),
            _ => self.is_none(),
        }
    }

    /// Whether the group that stands last has place for a node more.
    fn has_place(&self) -> bool
        ensures { IsTrue result ↔ HasPlaceIn self.now.root self.now.pending self.now.group }
    {
        match self.root {
            Some(_) => self.pending < self.group,
            None => true,
        }
    }

    /// Whether a body is that of the next node.
    fn is_next_node(&self, body: &[u8]) -> bool
        ensures { IsTrue result ↔ (HasPlaceIn self.now.root self.now.pending self.now.group
            × (body.now ≡ node_body (node_part self.now.nodes self.now.book.entries))) }
    {
        self.has_place() && is_node_body(body, self.next_named())
    }

    /// Whether the nodes that stand last are a group that a root may end.
    fn is_group(&self) -> bool
        ensures { IsTrue result ↔ ((0 < self.now.pending) × (self.now.pending < 65535)
            × ((self.now.pending ≡ self.now.group) ⊎ (length self.now.book.entries ≤ entries_per_node * self.now.nodes))) }
    {
        if self.pending == 0 || self.pending >= 65535 {
            return false;
        }
        self.pending == self.group || self.names_all()
    }

    /// Whether a body is that of the root that may come next.
    fn is_next_root(&self, time: u64, facts: &Facts, body: &[u8]) -> bool
        requires { IsCount time }
        ensures { self.now.start + full_node * self.now.pending < 2 ^ 64
            → (IsTrue result ↔ IsRootHere self.now time facts.now.counter body.now) }
    {
        if !self.is_group() {
            return false;
        }
        let at = NodesAt {
            counter: time,
            end: self.start,
            nodes: self.pending,
        };
        match self.root {
            Some(root) => is_root_body(body, at, time, root),
            None => is_root_body(body, at, facts.counter.get(), self.bytes),
        }
    }

    /// Adds a packet.
    pub(crate) fn add(&mut self, facts: &Facts)
        requires { length self.old.book.entries < self.old.book.room }
        ensures { (packets : List Packet) (p : Packet) → IsIndexed self.old packets → AreFactsOf facts.now p → MayFollow packets p
            → length (file_bytes (packets ++ p ∷ [])) < 2 ^ 63 → IsIndexed self.new (packets ++ p ∷ []) }
    {
        let size = facts.length as u64;
        let offset = self.bytes;
        self.bytes = offset.saturating_add(size);
        match facts.kind {
            PacketKind::Node => self.add_node(offset),
            PacketKind::Root => self.add_root(offset),
            _ => self.name(facts, size),
        }
    }

    /// Adds a node at an offset.
    fn add_node(&mut self, offset: u64)
        ensures start { self.new.start ≡ cond (self.old.pending == 0) offset self.old.start }
        ensures group { MatchOption self.old.root (self.new.group ≡ min (self.old.group + 1) (2 ^ 64 - 1))
            (λ _. self.new.group ≡ self.old.group) }
        ensures pending { self.new.pending ≡ min (self.old.pending + 1) (2 ^ 64 - 1) }
        ensures nodes { self.new.nodes ≡ min (self.old.nodes + 1) (2 ^ 64 - 1) }
        ensures closed { self.new.closed ≡ false }
        ensures same { (self.new.book ≡ self.old.book) × (self.new.end ≡ self.old.end) × (self.new.bytes ≡ self.old.bytes)
            × (self.new.root ≡ self.old.root) }
    {
        self.start = first_start(self.pending, self.start, offset);
        self.group = first_group(self.root, self.group);
        self.pending = self.pending.saturating_add(1);
        self.nodes = self.nodes.saturating_add(1);
        self.closed = false;
    }

    /// Adds a root at an offset.
    fn add_root(&mut self, offset: u64)
        ensures { self.new ≡ record self.old { pending = 0; root = Some offset; closed = true } }
    {
        self.pending = 0;
        self.root = Some(offset);
        self.closed = true;
    }

    /// Adds what a node says of a packet, and how many entries it has.
    fn name(&mut self, facts: &Facts, size: u64)
        requires { length self.old.book.entries < self.old.book.room }
        ensures named { self.new.book.entries ≡ self.old.book.entries ++ record {
          counter = facts.now.counter;
          data_type = facts.now.data_type;
          channel = facts.now.channel;
          offset = self.old.end;
        } ∷ [] }
        ensures counted { (packets : List Packet) (p : Packet) → IsBookOf self.old.book packets → record {
          counter = facts.now.counter;
          data_type = facts.now.data_type;
          channel = facts.now.channel;
          offset = self.old.end;
        } ≡ node_entry_of (length (file_bytes packets)) p → facts.now.entries ≡ length (packet_entries p)
            → CountsEntriesUpTo self.new.book.counted (packets ++ p ∷ []) }
        ensures end { self.new.end ≡ min (self.old.end + size) (2 ^ 64 - 1) }
        ensures same { self.new ≡ record self.old { book = self.new.book; end = self.new.end } }
    {
        let entry = NodeEntry {
            counter: facts.counter,
            data_type: facts.data_type,
            channel: facts.channel,
            offset: self.end,
        };
        let _ = self.book.add(entry, facts.entries);
        self.end = self.end.saturating_add(size);
    }
}

/// Where the first of the last nodes stands with one more at an offset: there, where it is the first.
fn first_start(pending: usize, start: u64, offset: u64) -> u64
    ensures { result ≡ cond (pending == 0) offset start }
{
    if pending == 0 { offset } else { start }
}

/// How many nodes stand before the first root with one more, which stands there where there is no root yet.
fn first_group(root: Option<u64>, group: usize) -> usize
    ensures { MatchOption root (result ≡ min (group + 1) (2 ^ 64 - 1)) (λ _. result ≡ group) }
{
    match root {
        Some(_) => group,
        None => group.saturating_add(1),
    }
}
