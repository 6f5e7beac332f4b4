//! How a file begins after others, as calls that do nothing.

ghost use Rattle.r10_openfile.specs.Laws.{BegunFilesAreHeld, OthersStayHeld, OthersStaySaid};

/// While a file is written after all others, what the medium says of them stays, and so does their directory.
pub fn files_in_front_stay()
    ensures says { OthersStaySaid }
    ensures holds { OthersStayHeld }
{}

/// Once it is listed after closed files, where the directory has a place for it, it is the one that is written, and
/// the medium shows all its packets.
pub fn begun_files_are_held()
    ensures { BegunFilesAreHeld }
{}
