//! Rings that come after others.

ghost use Rattle.std.specs.Prelude.{◌≡◌, []};
ghost use Rattle.rtrb.specs.Ring.{received};

use crate::operation::Operation;
use rtrb::{Consumer, Producer};
use std::alloc::Global;

/// The end of a further ring where its operations come out, and the end of the ring before it where nothing more goes in.
#[derive(Drop)]
pub struct Link {
    pub(crate) next: Consumer<Operation, Global>,
    pub(crate) before: Producer<Operation, Global>,
    ghost fresh: { received next ≡ [] },
}
