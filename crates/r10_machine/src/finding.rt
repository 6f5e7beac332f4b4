//! The count at a civil time.

ghost use Rattle.std.specs.Prelude.{◌≡◌};
ghost use Rattle.r10_machine.specs.Finding.{count_after as told_count_after};

use r10_count::{Civil, Count, centis_between};

/// The count at a civil time by a tick that isn't later: a hundredth of a second is 100,000 counts. There is
/// none from 2^48 on. By a tick that is later it is the tick's own.
pub fn count_after(tick: Count, at: &Civil, civil: &Civil) -> Option<Count>
    ensures { result ≡ told_count_after civil.now (record { count = tick; civil = at.now }) }
{
    let between = if at <= civil {
        centis_between(at, civil)
    } else {
        0
    };
    let counts = between.checked_mul(100_000)?;
    Count::of(tick.get().checked_add(counts)?)
}
