//! The body of a node packet.

ghost use Rattle.std.specs.Prelude.{◌≡◌, ◌↔◌, ◌^◌, ◌<◌, List, length, IsTrue, IfOk};
ghost use Rattle.std.specs.List.{AllByRecursion};
ghost use Rattle.r10_count.specs.Append.{Appends};
ghost use Rattle.r10_count.specs.Reading.{ReadsBody};
ghost use Rattle.r10_count.specs.declared.reading.Reading.TheVariants.{Strict};
ghost use Rattle.r10_indexbody.specs.Index.{FitsNode, IsNode, IsForeignNode, node_body};
ghost use Rattle.r10_indexbody.specs.declared.entry.NodeEntry.{NodeEntry as NodeEntryValue};

use crate::entry::NodeEntry;
use r10_count::{Items, Reading, read_body, write_body};
use std::alloc::{AllocError, Global};

/// The body of a node packet: the channel specific data word with the number of entries, and the
/// entries.
/// Source: IRIG 106-17 chapter 11, recording index packets.
#[derive(Drop)]
pub struct NodeBody {
    pub entries: Items<NodeEntry>,
}

impl NodeBody {
    /// Adds the body of these entries. Where memory is refused, nothing is added.
    pub fn write(entries: &[NodeEntry], out: &mut Vec<u8>) -> Result<(), AllocError>
        requires counted { length entries.now < 2 ^ 16 }
        requires fields { AllByRecursion FitsNode entries.now }
        ensures { Appends (node_body entries.now) out.old out.new result }
    {
        write_body(0, 0, entries, out)
    }

    /// Reads a body: the entries that this recorder writes as these bytes, or whether another
    /// recorder may have written them.
    pub fn decode(alloc: Global, body: &[u8]) -> Result<Reading<NodeBody>, AllocError>
        ensures found { IfOk result (ReadsBody (λ read. IsNode read.entries body.now) (IsForeignNode body.now)) }
        ensures only { (entries : List NodeEntryValue) → IsNode entries body.now
            → IfOk result (λ reading. reading ≡ Strict (record { entries = entries })) }
    {
        match read_body(alloc, 0, 0, body)? {
            Reading::Strict(entries) => Ok(Reading::Strict(NodeBody { entries })),
            Reading::Lenient => Ok(Reading::Lenient),
            Reading::Neither => Ok(Reading::Neither),
        }
    }
}
