//! What a look at a packet gives.

use r10_machine::Found;

/// The entry that is sought, or how many entries its channel has up to the packet and with it.
#[derive(Drop)]
pub(crate) enum SearchStep {
    Here(Found),
    UpTo(usize),
}
