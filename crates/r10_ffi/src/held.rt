//! What a handle leads to.

ghost use Rattle.r10_region.specs.Orders.{IsTiedTo};

use r10_calls::{Accepted, Desk};
use r10_region::{Orders, Region};

/// A recorder over memory that a caller lends, its readers, what its device has still to do, and how many messages of each channel
/// were accepted.
pub struct LentRecorder {
    pub(crate) desk: Desk<Region>,
    pub(crate) orders: Orders,
    pub(crate) accepted: Vec<Accepted>,
    ghost tied: { IsTiedTo desk.world.recorder.medium orders },
}

/// Letting it go is one call, so that a body that holds one has one exit for it.
impl Drop for LentRecorder {
    fn drop(self) {
        let LentRecorder {
            desk: _,
            orders: _,
            accepted: _,
        } = self;
    }
}
