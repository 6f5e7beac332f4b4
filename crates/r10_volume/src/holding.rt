//! How what is held outlasts writes, as a call that does nothing.

ghost use Rattle.std.specs.Prelude.{List};
ghost use Rattle.r10_machine.specs.Machine.{File};
ghost use Rattle.r10_medium.specs.Disk.{Image};
ghost use Rattle.r10_machine.specs.Bytes.{KeepBytes};
ghost use Rattle.r10_volume.specs.Holding.{OthersAreFound};

/// The files that another recorder began are found again where the files' bytes stay.
pub fn found_files_stay()
    ensures { (old new : Image) (files : List File) → KeepBytes old new files
        → OthersAreFound old files → OthersAreFound new files }
{}
