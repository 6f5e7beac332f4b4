//! What formatting leaves on a medium.

ghost use Rattle.std.specs.Prelude.{◌≡◌, ◌≤◌, ℕ, List, [], ◌∷◌, replicate};
ghost use Rattle.r10_medium.specs.Disk.{Image, block_at};
ghost use Rattle.r10_medium.specs.Memory.{zeros};
ghost use Rattle.r10_dirchain.specs.OnMedium.{Turned};
ghost use Rattle.r10_dirchain.specs.Steps.{formatted};
ghost use Rattle.r10_images.specs.Formatted.{formatted_block, formatted_image};

/// A medium of zeros that is formatted reads as the image that is written: what the clauses of
/// `r10_dirchain::format` say of a medium is this image, and no other.
pub fn formatted_images()
    ensures { (blocks : ℕ) (volume : List ℕ) (left : Image) → 2 ≤ blocks
        → Turned (formatted volume) (1 ∷ []) (replicate blocks zeros) left
        → block_at left 1 ≡ formatted_block volume → left ≡ formatted_image blocks volume }
{}
