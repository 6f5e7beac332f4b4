//! What goes through a ring.

use r10_body::{ChannelSpec, Sample};

/// What goes through a ring: what the channel is set to, once and first, and then what was accepted.
#[derive(Drop)]
pub(crate) enum Item {
    Announce(ChannelSpec),
    Entry(Sample),
}
