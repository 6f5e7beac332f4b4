//! Messages, entries and refusals, and what a file of them is: a message has one body and one cost,
//! a body is read as exactly the messages that this recorder writes so, and a channel refuses a
//! message by the first check that it fails. Bytes have one list of packets at most, and a packet more keeps
//! the rules of a file where it may follow.
#![tactic(auto)]

mod channel_entry;
mod channels;
mod costs;
mod entry;
mod fault;
mod follows;
mod gap;
mod laws;
mod length;
mod limits;
mod meaning;
mod message;
mod one_spelling;
mod opaque;
mod refusal;
mod same;
mod spec;
mod spelling;
pub mod status;
mod text;

pub use channel_entry::ChannelEntry;
pub use costs::{ENTRY_COST, FILE_COST, LOSS_COST, cost};
pub use entry::{Entry, Sample, Timed};
pub use fault::FileFault;
pub use follows::{bytes_and_entries, counts_rise, one_packet_more, sequence_numbers};
pub use gap::Gap;
pub use laws::{lone_packet, one_sentence, strict_is_lenient};
pub use length::file_length;
pub use limits::{ENTRIES_PER_NODE, FULL_NODE, FULL_ROOT, NODES_PER_ROOT};
pub use meaning::decode;
pub use message::{Kind, Message};
pub use one_spelling::{one_list_of_packets, one_meaning, one_packet};
pub use opaque::is_opaque;
pub use r10_a429::ArincMessage;
pub use r10_b1553::BusMessage;
pub use r10_discrete::DiscreteMessage;
pub use r10_message::DataMessage;
pub use r10_setup::LONGEST_TEXT;
pub use r10_uart::UartMessage;
pub use refusal::{Glance, Refusal};
pub use same::are_same;
pub use spec::ChannelSpec;
pub use spelling::encode;
pub use text::{TextEntry, split_text};
