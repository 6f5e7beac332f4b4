//! What a pump moved, as the machine sees it: calls that do nothing.

ghost use Rattle.r10_openfile.specs.Laws.{FailedPumpsTakeFew, FullPumpsAreRefused, PumpsAreSteps, PumpsEndAlike};
ghost use Rattle.r10_openfile.specs.Laws.{StopsAreWholeSteps};

/// What a pump moved is what the machine's pump moves: its entries join the file, and the lane is without them.
pub fn pumps_are_steps()
    ensures { PumpsAreSteps }
{}

/// Where a pump moved nothing because the first sample lacks room, it does in the machine.
pub fn full_pumps_are_refused()
    ensures { FullPumpsAreRefused }
{}

/// A pump whose limit was lowered to what waited in its lane ends as a pump with the higher limit does. Where it isn't known what
/// waited, since the lane isn't quiet, there is a rest with which the pump with the higher limit ends so.
pub fn pumps_end_alike()
    ensures { PumpsEndAlike }
{}

/// What a pump took from its lane before the medium failed is no more than it may.
pub fn failed_pumps_take_few()
    ensures { FailedPumpsTakeFew }
{}

/// Where each lane is of a channel of its own, and as many are stated to be left as parts leave, the step is
/// that of the machine's stop.
pub fn stops_are_whole_steps()
    ensures { StopsAreWholeSteps }
{}
