//! One packet, whoever wrote it: as any recorder writes it, opaque or not, or its first fault; and as this recorder writes it,
//! with all that the rules of a file ask of it, or the least of the first three rules that it breaks.
#![tactic(auto)]

mod any;
mod body;
mod bus;
mod channels;
mod entries;
mod facts;
mod file;
mod filler;
mod fixed;
mod foreign_body;
mod glance;
mod index;
mod laws;
mod packet;
mod packet_facts;
mod scan;
mod strict;
mod tally;

pub use any::{AnyPacket, read_any};
pub use facts::{Facts, PacketKind, Spread};
pub use file::{FirstFault, ForeignTrack};
pub use foreign_body::is_foreign_body;
pub use laws::{fault_stays, one_fault, one_verdict, strict_is_foreign};
pub use packet::{ForeignPacket, read_foreign};
pub use strict::{StrictReading, read_checked, read_strict};
