//! The rule of a ring.

use crate::item::Item;
use rtrb::Protocol;

/// The rule of a ring: what the channel is set to goes through first, and then what may be accepted after what went before,
/// with a gap that tells no loss of none.
#[derive(Clone, Copy)]
pub(crate) struct InOrder;

impl Protocol<Item> for InOrder {
    ghost use Rattle.r10_port.specs.Items.{ItemMayFollow};

    ghost allows = { ItemMayFollow };
}
