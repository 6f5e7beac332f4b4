//! What comes after a file's entries on other channels, as a call that does nothing.

ghost use Rattle.r10_openfile.specs.Laws.{OthersLeaveEnds, SamplesLeaveEnds};

/// Entries of other channels leave where a channel ends, so that its lane goes on: single ones, as times and
/// events, and samples of another lane.
pub fn channels_end_apart()
    ensures entries { OthersLeaveEnds }
    ensures samples { SamplesLeaveEnds }
{}
