//! The law of what is read of a shown file, as a call that does nothing.

ghost use Rattle.std.specs.Prelude.{◌≡◌, ℕ, List, ◌+◌, ◌≤◌, length, take, drop};
ghost use Rattle.r10_medium.specs.Disk.{Image};
ghost use Rattle.r10_blockout.specs.Blocks.{Shows};
ghost use Rattle.r10_blockout.specs.Bytes.{bytes_of};

/// Of a file that the medium shows, any run is read as the file has it.
pub fn shown_run()
    ensures { (image : Image) (first : ℕ) (bytes : List ℕ) (offset size : ℕ) → Shows image first bytes
        → offset + size ≤ length bytes → bytes_of image first offset size ≡ take size (drop offset bytes) }
{}
