//! Lanes that give nothing, for a recorder that is taken apart.

ghost use Rattle.std.specs.Prelude.{◌≡◌, map, IfOk};
ghost use Rattle.std.specs.List.{AllByRecursion};
ghost use Rattle.r10_count.specs.Count.{IsCount};

use r10_lane::{LaneOut, Spent};
use std::alloc::{AllocError, Global};

/// Of the channel of each lane one that gives nothing.
pub(crate) fn all_spent<L: LaneOut>(alloc: Global, lanes: &[L]) -> Result<Vec<Spent>, AllocError>
    ensures spent { IfOk result (λ spent. spent.items ≡ map L.spec_of lanes.now) }
    ensures range { IfOk result (λ spent. AllByRecursion (λ lane. IsCount (L.reached lane)) lanes.now) }
{
    let mut spent = Vec::with_capacity(alloc, lanes.len())?;
    for at in 0..lanes.len() {
        let lane = &lanes[at];
        lane.in_range();
        spent.push_reserved(Spent::of(lane.spec()));
    }
    Ok(spent)
}
