//! What is known of files, as calls that do nothing.

ghost use Rattle.std.specs.Prelude.{◌≡◌, ◌≤◌, ◌<◌, ℕ, Option, Some, List, [], length, slice_get, IfSome};
ghost use Rattle.std.specs.List.{AllByRecursion};
ghost use Rattle.r10_medium.specs.Disk.{Image};
ghost use Rattle.r10_dirblock.specs.Block.{is_closed};
ghost use Rattle.r10_dirblock.specs.declared.entry.Entry.{Entry as DirectoryEntry};
ghost use Rattle.r10_dirchain.specs.Chain.{IsDirectory, listed_files};
ghost use Rattle.r10_dirchain.specs.declared.chain.ChainBlock.{ChainBlock};
ghost use Rattle.r10_body.specs.Faults.{IsAtFault};
ghost use Rattle.r10_body.specs.Packets.{Packet, file_entries};
ghost use Rattle.r10_body.specs.declared.fault.FileFault.{FileFault};
ghost use Rattle.r10_machine.specs.Cuts.{Agree};
ghost use Rattle.r10_machine.specs.Config.{Config};
ghost use Rattle.r10_machine.specs.Machine.{File, shown_entries};
ghost use Rattle.r10_machine.specs.Says.{IsFound, MediumSays};
ghost use Rattle.r10_machine.specs.Sound.{IsEntry};
ghost use Rattle.r10_cursor.specs.Files.{IsShownWith, bytes_in, finished};
ghost use Rattle.r10_cursor.specs.Held.{IsHeldFile};
ghost use Rattle.r10_cursor.specs.JudgedFiles.{IsWrittenFile, Knows};
ghost use Rattle.r10_cursor.specs.Staying.{Stay};
ghost use Rattle.r10_cursor.specs.declared.books.Books.{Books};
ghost use Rattle.r10_cursor.specs.declared.written.Written.{Written};

/// A reader that has judged no file knows nothing wrong. What it knows stays, where the files that are not being written keep
/// their bytes and directory entries, and others come after them.
pub fn what_is_known_stays()
    ensures none { (image : Image) (chain : List ChainBlock) (written : Option Written) (books : Books) → books.kept.items ≡ []
        → IsWrittenFile image written → Knows image chain written books }
    ensures stays { (old : Image) (new : Image) (chain : List ChainBlock)
        (made : List ChainBlock) (written : Option Written) (now : Option Written) (books : Books)
        → Knows old chain written books → Stay old new (finished written (listed_files chain)) (finished now (listed_files made))
        → IsWrittenFile new now → Knows new made now books }
{}

/// What a medium says of a file that isn't being written is read: the file isn't at fault, and its packets say on each channel what
/// the file shows, and the times in their order, where another recorder began it as where this one did. So do packets that are
/// shown of the file that is written.
pub fn files_that_are_said()
    ensures sound { (s : Config) (image : Image) (machine : List File) (chain : List ChainBlock) (file : ℕ)
        (e : DirectoryEntry) (offset : ℕ) (fault : FileFault) → MediumSays s image machine → IsDirectory image chain
        → slice_get (listed_files chain) file ≡ Some e → IsAtFault (bytes_in image e) (is_closed e) offset fault → ⊥ }
    ensures found { (s : Config) (image : Image) (machine : List File) (chain : List ChainBlock) (written : Option Written)
        (file : ℕ) (f : File) → MediumSays s image machine → IsDirectory image chain → IfSome written (λ w. file < w.file)
        → slice_get machine file ≡ Some f → IsFound image f → IsHeldFile image chain written file f }
    ensures own { (s : Config) (image : Image) (machine : List File) (chain : List ChainBlock)
        (written : Option Written) (file : ℕ) (f : File) → MediumSays s image machine → IsDirectory image chain
        → IfSome written (λ w. file < w.file) → slice_get machine file ≡ Some f → f.shown ≤ length f.entries
        → AllByRecursion (IsEntry s) f.entries → IsHeldFile image chain written file f }
    ensures written { (s : Config) (image : Image) (chain : List ChainBlock) (w : Written) (packets : List Packet) (f : File)
        → IsShownWith image w.first w.named.now w.book.now packets → Agree (file_entries packets) (shown_entries f)
        → f.shown ≤ length f.entries → AllByRecursion (IsEntry s) f.entries → IsHeldFile image chain (Some w) w.file f }
{}
