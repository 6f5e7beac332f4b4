// What each step makes of the list of files, and how a medium's directory is one.
ghost use Rattle.std.specs.Prelude.{◌≡◌, ◌<◌, ◌≤◌, ◌+◌, ◌-◌, ◌*◌, ℕ, true, None, List, [], ◌∷◌, ◌++◌, length, take, drop, All};
ghost use Rattle.r10_count.specs.Checks.{first_broken};
ghost use Rattle.r10_medium.specs.Disk.{Image};
ghost use Rattle.r10_dirblock.specs.Block.{is_closed, IsBlock};
ghost use Rattle.r10_dirblock.specs.declared.block.DirBlock.{DirBlock};
ghost use Rattle.r10_dirblock.specs.declared.entry.Entry.{Entry};
ghost use Rattle.r10_dirchain.specs.declared.chain.ChainBlock.{ChainBlock};
ghost use Rattle.r10_dirchain.specs.Bad.{IsBad};
ghost use Rattle.r10_dirchain.specs.Chain.{listed_files, IsDirectory};
ghost use Rattle.r10_dirchain.specs.Mount.{blocks_in, mount_rules, stands};
ghost use Rattle.r10_dirchain.specs.OnMedium.{HasNext};
ghost use Rattle.r10_dirchain.specs.Steps.{added, emptied, formatted, updated, with_last_entry, with_shutdown};

/// Each step changes the list of files as its name says.
pub fn file_lists()
    ensures formatted { (volume : List ℕ) → listed_files (formatted volume) ≡ [] }
    ensures added { (entry : Entry) (chain : List ChainBlock) → 0 < length chain
        → listed_files (added entry chain) ≡ listed_files chain ++ entry ∷ [] }
    ensures updated { (entry : Entry) (chain : List ChainBlock) → 0 < length (listed_files chain)
        → listed_files (updated entry chain) ≡ with_last_entry entry (listed_files chain) }
    ensures erased { (chain : List ChainBlock) → listed_files (emptied chain) ≡ [] }
    ensures shutdown { (shutdown : ℕ) (chain : List ChainBlock) → listed_files (with_shutdown shutdown chain) ≡ listed_files chain }
{}

/// Entries at the front of a block stay byte for byte in every block with the same entries there.
pub fn kept_entries()
    ensures bytes { (old : List ℕ) (new : List ℕ) (d : DirBlock) (e : DirBlock) (k : ℕ)
        → IsBlock old d → IsBlock new e → k ≤ length d.entries → k ≤ length e.entries
        → take k d.entries ≡ take k e.entries → take (112 * k) (drop 64 new) ≡ take (112 * k) (drop 64 old) }
{}

/// A directory that a recorder can take into use has its blocks from 1 on, and has the next one. It
/// stays one over each step, where a file is added right after the others while there is place in
/// the reserved blocks, and where the last file stays in its place.
pub fn usable_directories()
    ensures has_next { (reserved : ℕ) (image : Image) (chain : List ChainBlock)
        → first_broken (mount_rules reserved (length image) chain) ≡ None → reserved + 2 ≤ length image → HasNext image chain }
    ensures shutdown { (reserved : ℕ) (blocks : ℕ) (shutdown : ℕ) (chain : List ChainBlock)
        → first_broken (mount_rules reserved blocks chain) ≡ None
        → first_broken (mount_rules reserved blocks (with_shutdown shutdown chain)) ≡ None }
    ensures erased { (reserved : ℕ) (blocks : ℕ) (chain : List ChainBlock) → 1 ≤ reserved
        → first_broken (mount_rules reserved blocks (emptied chain)) ≡ None }
    ensures added { (reserved : ℕ) (blocks : ℕ) (entry : Entry) (image : Image) (chain : List ChainBlock)
        → IsDirectory image chain → first_broken (mount_rules reserved blocks chain) ≡ None
        → All (λ e. is_closed e ≡ true) (listed_files chain) → length (listed_files chain) < 4 * reserved
        → stands blocks (reserved + 1 + blocks_in (listed_files chain)) entry ≡ true
        → first_broken (mount_rules reserved blocks (added entry chain)) ≡ None }
    ensures updated { (reserved : ℕ) (blocks : ℕ) (entry : Entry) (chain : List ChainBlock)
        → first_broken (mount_rules reserved blocks chain) ≡ None → 0 < length (listed_files chain)
        → stands blocks (reserved + 1 + blocks_in (take (length (listed_files chain) - 1) (listed_files chain))) entry ≡ true
        → first_broken (mount_rules reserved blocks (updated entry chain)) ≡ None }
{}

/// A medium has one directory, or one first block that the chain can't take, and not both.
pub fn one_directory()
    ensures chain { (image : Image) (one : List ChainBlock) (other : List ChainBlock) → IsDirectory image one
        → IsDirectory image other → one ≡ other }
    ensures fault { (image : Image) (one : ℕ) (other : ℕ) → IsBad image one → IsBad image other → one ≡ other }
    ensures either { (image : Image) (chain : List ChainBlock) (n : ℕ) → IsDirectory image chain → IsBad image n → ⊥ }
{}
