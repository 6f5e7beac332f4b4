//! The entries of a recorder's own files where nothing is written, and those of the machine's, as calls that do nothing.

ghost use Rattle.std.specs.Prelude.{◌≡◌, ℕ, []};
ghost use Rattle.std.specs.List.{flat_map};
ghost use Rattle.r10_control.specs.Own.{AreOwn, OwnGrow, OwnStay};
ghost use Rattle.r10_machine.specs.Machine.{Machine};
ghost use Rattle.r10_machine.specs.SoundParts.{own_files};
ghost use Rattle.r10_refinement.specs.KeptState.{Kept, failed};
ghost use Rattle.r10_refinement.specs.Means.{KeptStandsFor};
ghost use Rattle.r10_medium.specs.Disk.{Image};

/// Where what is kept and the medium stay, the entries of the recorder's own files stay: none joins them (`none`), and so none
/// of a channel (`same`). Of a recorder that is Failed after the call, nothing is promised (`failed`).
pub fn own_entries_stay()
    ensures same { (k : Kept) (image : Image) → OwnStay k image k image }
    ensures failed { (k : Kept) (later : Kept) (old : Image) (new : Image) → later.work ≡ failed → OwnStay k old later new }
    ensures none { (k : Kept) (image : Image) → OwnGrow k image k image [] }
{}

/// Of each machine that a recorder represents, and that has not failed, the entries of the files that it began are the
/// recorder's own.
pub fn own_entries_are_meant()
    ensures { (k : Kept) (image : Image) (failures : ℕ) (m : Machine) → KeptStandsFor k image failures m → (k.work ≡ failed → ⊥)
        → AreOwn k image (flat_map (λ f. f.entries) (own_files m.files)) }
{}
