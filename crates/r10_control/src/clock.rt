//! The last tick of the clock.

use r10_count::{Civil, Count};
use std::marker::Model;

/// A count, and the civil time at it.
#[derive(Clone, Copy)]
pub(crate) struct ClockTick {
    pub(crate) count: Count,
    pub(crate) civil: Civil,
}

impl Model for ClockTick {
    ghost use Rattle.r10_machine.specs.Machine.{Tick};

    ghost Value = { Tick };

    ghost view = { λ t. record { count = t.count; civil = t.civil } };

    ghost inverse = { λ t. record { count = t.count; civil = t.civil } };
}
