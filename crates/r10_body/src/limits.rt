//! Limits of an index.

/// The entries of a node: each node of a file has so many, but its last, which may have fewer.
pub const ENTRIES_PER_NODE: usize = 100;

/// The bytes of a node's packet with so many entries.
pub const FULL_NODE: usize = 28 + 20 * ENTRIES_PER_NODE;

/// The most nodes that a root names: with one more its packet would be longer than the longest.
pub const NODES_PER_ROOT: usize = 32_765;

/// The bytes of the packet of a root that names so many.
pub const FULL_ROOT: usize = 44 + 16 * NODES_PER_ROOT;
