//! What a seal makes of the files that a recorder holds, as calls that do nothing.

ghost use Rattle.std.specs.Prelude.{◌≡◌, ◌-◌, ◌*◌, ◌+◌, ◌≤◌, ◌++◌, ◌∷◌, ℕ, List, [], Option, Some, None, false, length};
ghost use Rattle.std.specs.List.{last_or};
ghost use Rattle.r10_medium.specs.Disk.{Image, IsWhole};
ghost use Rattle.r10_medium.specs.PowerLoss.{PutsSome};
ghost use Rattle.r10_blockout.specs.Blocks.{bytes_from, file_blocks};
ghost use Rattle.r10_body.specs.Packets.{Packet};
ghost use Rattle.r10_dirblock.specs.declared.entry.Entry.{Entry as DirectoryEntry};
ghost use Rattle.r10_dirchain.specs.Chain.{listed_files};
ghost use Rattle.r10_dirchain.specs.declared.chain.ChainBlock.{ChainBlock};
ghost use Rattle.r10_volume.specs.Holding.{HoldsFiles, OpenState};
ghost use Rattle.r10_machine.specs.Config.{Config};
ghost use Rattle.r10_machine.specs.Machine.{File};
ghost use Rattle.r10_machine.specs.Room.{area, cost_of};
ghost use Rattle.r10_machine.specs.ControlCalls.{closed_in};
ghost use Rattle.r10_machine.specs.Says.{MediumSays};
ghost use Rattle.r10_volume.specs.Settling.{SaysAs};
ghost use Rattle.r10_seal.specs.Judging.{IsSealFault};
ghost use Rattle.r10_seal.specs.Leftover.{IsLeftFault, IsLeftOpen, shown_cost};
ghost use Rattle.r10_seal.specs.Sealing.{ListsSealed, IsUnsealed, SealsFile, sealed, sealed_bytes};
ghost use Rattle.r10_seal.specs.declared.fault.SealFault.{SealFault as SealFaultValue};

/// Of the last file that is held, and was left open, the medium has strict packets. So a fault of its bytes does not
/// come, and the others are the machine's.
pub fn left_files_are_strict()
    ensures unsealed { (s : Config) (image : Image) (chain : List ChainBlock) (nodes : ℕ) (files : List File) (f : File)
        (e : DirectoryEntry) → IsWhole image → IsLeftOpen s image chain nodes files f → last_or None (listed_files chain) ≡ Some e
        → (packets : List Packet) × IsUnsealed (bytes_from image e.first_block e.size) f.setup packets }
    ensures fault { (s : Config) (image : Image) (chain : List ChainBlock) (nodes : ℕ)
        (files : List File) (f : File) (e : DirectoryEntry) (fault : SealFaultValue) → IsWhole image
        → IsLeftOpen s image chain nodes files f → last_or None (listed_files chain) ≡ Some e
        → IsSealFault (bytes_from image e.first_block e.size) (512 * (length image - e.first_block)) fault → IsLeftFault s f fault }
{}

/// What a file costs with the entries that it shows is no more than it costs; and it is that of a file that shows all,
/// as one does that another recorder began.
pub fn shown_files_cost()
    ensures most { (f : File) → shown_cost f ≤ cost_of f }
    ensures whole { (f : File) → f.shown ≡ length f.entries → shown_cost f ≡ cost_of f }
    ensures others { (s : Config) (image : Image) (chain : List ChainBlock) (written : Option OpenState) (files : List File)
        (f : File) → HoldsFiles s image chain written (files ++ f ∷ []) → f.own ≡ false → shown_cost f ≡ cost_of f }
{}

/// A last file that is sealed is held closed, and it had room.
pub fn sealed_files_are_held()
    ensures held { (s : Config) (old new : Image) (chain made : List ChainBlock) (nodes : ℕ) (files : List File) (f : File)
        (e : DirectoryEntry) → IsWhole old → IsLeftOpen s old chain nodes files f → last_or None (listed_files chain) ≡ Some e
        → SealsFile old chain e nodes (512 * (length old - e.first_block)) new made
        → (size : ℕ) × HoldsFiles s new made None (files ++ closed_in size f ∷ []) }
    ensures room { (s : Config) (old new : Image) (chain made : List ChainBlock) (nodes : ℕ) (files : List File) (f : File)
        (e : DirectoryEntry) → IsWhole old → IsLeftOpen s old chain nodes files f → last_or None (listed_files chain) ≡ Some e
        → SealsFile old chain e nodes (512 * (length old - e.first_block)) new made → shown_cost f ≤ area s f }
{}

/// While blocks of it with its index are put, the files are stated as they were; and where it is closed, with it closed,
/// and all images say them so with the same bytes.
pub fn seals_leave_files()
    ensures left { (s : Config) (old from image : Image) (chain : List ChainBlock) (nodes : ℕ)
        (files : List File) (f : File) (e : DirectoryEntry) (packets : List Packet) → IsWhole old
        → IsLeftOpen s old chain nodes files f → last_or None (listed_files chain) ≡ Some e
        → IsUnsealed (bytes_from old e.first_block e.size) f.setup packets → IsWhole from
        → MediumSays s from (files ++ f ∷ []) → bytes_from from f.first_block f.size ≡ bytes_from old f.first_block f.size
        → PutsSome e.first_block (file_blocks (sealed_bytes nodes packets)) from image → MediumSays s image (files ++ f ∷ []) }
    ensures closed { (s : Config) (old new image : Image) (chain made other : List ChainBlock) (nodes : ℕ) (files : List File)
        (f : File) (e : DirectoryEntry) (packets : List Packet) → IsWhole old → IsLeftOpen s old chain nodes files f
        → last_or None (listed_files chain) ≡ Some e → IsUnsealed (bytes_from old e.first_block e.size) f.setup packets
        → ListsSealed nodes e packets chain made old new → ListsSealed nodes e packets chain other old image
        → SaysAs s (files ++ sealed nodes packets f ∷ []) new image }
{}
