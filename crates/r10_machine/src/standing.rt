//! How what a medium says outlasts writes, as calls that do nothing.

ghost use Rattle.std.specs.Prelude.{◌≡◌, ◌≤◌, ◌∷◌, ◌++◌, ℕ, List, [], None, length, All};
ghost use Rattle.r10_count.specs.Checks.{first_broken};
ghost use Rattle.r10_dirblock.specs.declared.entry.Entry.{Entry as DirectoryEntry};
ghost use Rattle.r10_dirchain.specs.Chain.{listed_files};
ghost use Rattle.r10_dirchain.specs.Mount.{mount_rules};
ghost use Rattle.r10_dirchain.specs.OnMedium.{Turned};
ghost use Rattle.r10_dirchain.specs.Steps.{with_last_entry};
ghost use Rattle.r10_dirchain.specs.declared.chain.ChainBlock.{ChainBlock};
ghost use Rattle.r10_machine.specs.Config.{Config};
ghost use Rattle.r10_machine.specs.Machine.{File};
ghost use Rattle.r10_machine.specs.Room.{next_block};
ghost use Rattle.r10_medium.specs.Disk.{Image, IsWhole};
ghost use Rattle.r10_medium.specs.PowerLoss.{SameBelow};
ghost use Rattle.r10_machine.specs.Says.{Lists, MediumSays, SaysEach, SaysFile};
ghost use Rattle.r10_blockout.specs.Blocks.{bytes_from};

/// What a medium says of its files, it goes on saying where no block below the one after them
/// changes; and where the last of them is being written, where no block below it changes, and its
/// shown bytes stay.
pub fn files_stand()
    ensures closed { (s : Config) (old new : Image) (files : List File) → IsWhole old → IsWhole new
        → MediumSays s old files → (kept : ℕ) → SameBelow (next_block s files) kept old new → MediumSays s new files }
    ensures growing { (s : Config) (old new : Image) (files : List File) (f : File) → IsWhole old
        → IsWhole new → MediumSays s old (files ++ f ∷ []) → (kept : ℕ) → SameBelow f.first_block kept old new
        → bytes_from new f.first_block f.size ≡ bytes_from old f.first_block f.size → MediumSays s new (files ++ f ∷ []) }
{}

/// Where a directory is written anew in its reserved blocks, and a recorder takes it into use, the
/// medium says the files that it lists then, where their bytes were there before.
pub fn directories_turn()
    ensures { (s : Config) (old new : Image) (chain : List ChainBlock) (changed : List ℕ) (files : List File)
        → IsWhole old → length old ≡ s.blocks → Turned chain changed old new
        → All (λ n. n ≤ s.directory) changed → first_broken (mount_rules s.directory s.blocks chain) ≡ None
        → SaysEach old (listed_files chain) files → MediumSays s new files }
{}

/// A file is listed after others, or in place of the last.
pub fn files_are_listed()
    ensures more { (image : Image) (entries : List DirectoryEntry) (files : List File) (e : DirectoryEntry) (f : File)
        → SaysEach image entries files → Lists f e → SaysFile image f → SaysEach image (entries ++ e ∷ []) (files ++ f ∷ []) }
    ensures last { (image : Image) (entries : List DirectoryEntry) (files : List File) (before : File)
        (e : DirectoryEntry) (f : File) → SaysEach image entries (files ++ before ∷ []) → Lists f e → SaysFile image f
        → SaysEach image (with_last_entry e entries) (files ++ f ∷ []) }
{}
