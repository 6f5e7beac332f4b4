//! What is shown of the file that is recorded, and what a cursor has read of it, as a call that does nothing.

ghost use Rattle.std.specs.Prelude.{◌^◌, ◌≤◌, ℕ, List, Some, length};
ghost use Rattle.std.specs.List.{AllByRecursion};
ghost use Rattle.r10_medium.specs.Disk.{Image, IsWhole};
ghost use Rattle.r10_dirchain.specs.declared.chain.ChainBlock.{ChainBlock};
ghost use Rattle.r10_body.specs.declared.entry.Entry.{Entry};
ghost use Rattle.r10_machine.specs.Config.{Config};
ghost use Rattle.r10_machine.specs.Machine.{File};
ghost use Rattle.r10_machine.specs.Sound.{IsEntry};
ghost use Rattle.r10_volume.specs.Holding.{IsCarried, IsWritten, OpenState};
ghost use Rattle.r10_cursor.specs.Files.{HasDataPackets};
ghost use Rattle.r10_cursor.specs.Held.{IsCovered, IsHeldFile};
ghost use Rattle.r10_cursor.specs.JudgedFiles.{IsWrittenFile};
ghost use Rattle.r10_cursor.specs.Read.{IsReadTo, bytes_shown};
ghost use Rattle.r10_cursor.specs.declared.written.Written.{Written};
ghost use Rattle.r10_control.specs.Reading.{IsToldOf};

/// Of the file that is recorded, the packets are shown of which a reader learns, whatever files the medium has; where they are a
/// machine's, they are its; and what a cursor has read of it is covered of the packets by which it is read.
pub fn what_is_written_is_shown()
    ensures writing { (image : Image) (o : OpenState) (text : List ℕ) (entries : List Entry) (w : Written)
        → IsCarried image o text entries → IsToldOf o w → IsWhole image → length image ≤ 2 ^ 53 → IsWrittenFile image (Some w) }
    ensures held { (s : Config) (image : Image) (chain : List ChainBlock) (o : OpenState) (f : File) (w : Written)
        → IsWritten s image o f → IsToldOf o w → AllByRecursion (IsEntry s) f.entries → IsHeldFile image chain (Some w) w.file f }
    ensures covered { (s : Config) (image : Image) (chain : List ChainBlock) (o : OpenState) (f : File) (w : Written)
        (count : ℕ) (n : ℕ) → IsWritten s image o f → IsToldOf o w → (held : IsHeldFile image chain (Some w) w.file f)
        → IsReadTo image f count n → HasDataPackets (bytes_shown image f) held.packets × IsCovered held.packets f count n }
{}
