//! A lane that gives nothing.

ghost use Rattle.std.specs.Prelude.{◌≡◌};

use crate::lane_out::LaneOut;
use r10_body::{ChannelSpec, Sample};
use std::marker::Model;

/// What stands in the place of a lane that was taken away: nobody sends to it, and it gives nothing.
#[derive(Drop)]
pub struct Spent {
    spec: ChannelSpec,
}

impl Model for Spent {
    ghost use Rattle.r10_body.specs.declared.spec.ChannelSpec.{ChannelSpec as ChannelSpecValue};

    ghost Value = { ChannelSpecValue };

    ghost view = { λ lane. lane.spec };
}

impl Spent {
    /// A lane of this channel that gives nothing.
    pub fn of(spec: ChannelSpec) -> Spent
        ensures { result ≡ spec }
    {
        Spent { spec }
    }
}

impl LaneOut for Spent {
    ghost use Rattle.std.specs.Prelude.{◌≡◌, [], Some};
    ghost use Rattle.r10_lane.specs.Spending.{GaveNothing, all_counts, gave_gives, gave_joins, gave_nothing, gave_keeps_spec};
    ghost use Rattle.r10_lane.specs.Spending.{gave_rises, gave_stays, gave_stays_quiet};

    ghost spec_of = { λ lane. lane };

    ghost took = { GaveNothing };

    ghost shows = { λ lane first. ⊥ };

    ghost reached = { all_counts };

    ghost quiet = { λ lane. Some [] };

    fn spec(&self) -> ChannelSpec {
        self.spec
    }

    fn in_range(&self) {
        let _ = &self.spec;
    }

    fn front(&mut self) -> Option<&Sample> {
        None
    }

    fn take(&mut self) -> Option<Sample> {
        None
    }

    fn held(&mut self) -> usize {
        0
    }

    ghost joins = { gave_joins };

    ghost took_none = { gave_nothing };

    ghost stays = { gave_stays };

    ghost keeps_spec = { gave_keeps_spec };

    ghost rises = { gave_rises };

    ghost gives = { gave_gives };

    ghost stays_quiet = { gave_stays_quiet };
}
