//! Headers of index packets.

ghost use Rattle.std.specs.Prelude.{◌≡◌, ◌≤◌};
ghost use Rattle.r10_body.specs.Limits.{entries_per_node, nodes_per_root};
ghost use Rattle.r10_index.specs.Headers.{node_header as told_node_header, root_header as told_root_header};

use r10_count::Count;
use r10_packet::{Header, TYPE_INDEX};

/// The header of a node of so many entries after so many packets on channel 0.
pub(crate) fn node_header(counter: Count, number: usize, entries: usize) -> Header
    requires { entries ≤ entries_per_node }
    ensures { result ≡ told_node_header counter number entries }
{
    let size = 20 * entries as u32;
    Header {
        channel: 0,
        packet_len: 28 + size,
        data_len: 4 + size,
        version: 8,
        sequence: (number % 256) as u8,
        flags: 0,
        data_type: TYPE_INDEX,
        counter,
    }
}

/// The header of a root of so many nodes after so many packets on channel 0.
pub(crate) fn root_header(counter: Count, number: usize, nodes: usize) -> Header
    requires { nodes ≤ nodes_per_root }
    ensures { result ≡ told_root_header counter number nodes }
{
    let size = 16 * nodes as u32;
    Header {
        channel: 0,
        packet_len: 44 + size,
        data_len: 20 + size,
        version: 8,
        sequence: (number % 256) as u8,
        flags: 0,
        data_type: TYPE_INDEX,
        counter,
    }
}
