//! What entries come to.

ghost use Rattle.std.specs.Prelude.{◌≡◌};
ghost use Rattle.r10_packet_rules.specs.Tally.{empty_tally, tally_behind};

use crate::facts::Spread;
use r10_count::Count;

/// What entries come to, one by one.
#[derive(Clone, Copy)]
pub(crate) struct EntryTally {
    /// How many there are.
    pub(crate) entries: usize,
    /// What they cost in a file.
    pub(crate) cost: u64,
    pub(crate) counts: Option<Spread>,
}

impl EntryTally {
    /// Of no entries.
    pub(crate) fn new() -> EntryTally
        ensures { result ≡ empty_tally }
    {
        EntryTally {
            entries: 0,
            cost: 0,
            counts: None,
        }
    }

    /// Of one entry of this count and cost.
    pub(crate) fn one(count: Count, cost: u64) -> EntryTally
        ensures { result ≡ tally_behind empty_tally count cost }
    {
        EntryTally {
            entries: 1,
            cost,
            counts: Some(Spread {
                first: count,
                last: count,
                greatest: count,
                rise: true,
            }),
        }
    }
}
