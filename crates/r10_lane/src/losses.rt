//! How many messages of a lane were lost.

ghost use Rattle.std.specs.Prelude.{◌≡◌, ◌+◌};
ghost use Rattle.std.specs.List.{sum_by};
ghost use Rattle.r10_body.specs.Gaps.{told_lost};
ghost use Rattle.r10_machine.specs.Machine.{saturated};

use r10_body::{Gap, Sample};

/// How many messages of a lane were lost, each number up to `u64::MAX`.
#[derive(Clone, Copy)]
pub struct Losses {
    /// all of them
    pub lost: u64,
    /// those since the last message that was accepted
    pub missed: u64,
    /// those that the gaps of the messages that wait report
    pub waiting: u64,
}

/// How many messages a gap reports as lost.
fn lost_in(gap: Gap) -> u64
    ensures { result ≡ told_lost gap }
{
    match gap {
        Gap::Lost(lost) => lost,
        Gap::Whole | Gap::Unknown => 0,
    }
}

/// So many losses, and those that the gaps of these samples report.
pub(crate) fn add_losses(before: u64, samples: &[Sample]) -> u64
    ensures { result ≡ saturated (before + sum_by (λ x. told_lost x.gap) samples.now) }
{
    let mut lost = before;
    for sample in samples {
        lost = lost.saturating_add(lost_in(sample.gap));
    }
    lost
}
