//! Which ring is whose, and which gauge is the lock's.

use std::marker::Brand;

/// Names the ring of each channel of a recorder, with the channel, in the order of the settings; and the gauge that the recorder
/// has. A caller makes the lanes, the recorder and its gauge, and hands them to a function of its own over any such names; each
/// call of that function picks them.
pub trait Rings {
    ghost use Rattle.std.specs.Prelude.{List};
    ghost use Rattle.atomic_table.specs.Seated.{TableId};
    ghost use Rattle.r10_held.specs.Naming.{ChannelRing};

    ghost rings: { List ChannelRing };

    ghost gauge: { TableId };
}

impl Rings for Brand {
    ghost use Rattle.std.specs.Prelude.{[]};
    ghost use Rattle.r10_held.specs.Naming.{no_gauge};

    ghost rings = { [] };

    ghost gauge = { no_gauge };
}
