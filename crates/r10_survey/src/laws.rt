//! The law of stretches, as a call that does nothing.

ghost use Rattle.std.specs.Prelude.{◌≡◌, ◌<◌, ◌∷◌, [], ℕ, List, length, count_by};
ghost use Rattle.r10_body.specs.Faults.{IsFaulty};
ghost use Rattle.r10_body.specs.Foreign.{IsForeignFile, opaque_at};
ghost use Rattle.r10_body.specs.declared.fault.FileFault.{FileFault};
ghost use Rattle.r10_survey.specs.Parts.{AreParts, Part, packets_of};
ghost use Rattle.r10_survey.specs.Damage.{stretches_of};
ghost use Rattle.r10_survey.specs.declared.damage.Stretch.{Stretch as StretchValue};

/// A file that has bytes and no stretch is one of any recorder; and one with stretches is at fault where the first one begins.
pub fn stretches_are_faults()
    ensures lenient { (file : List ℕ) (parts : List Part) → AreParts parts file [] → stretches_of parts ≡ [] → 0 < length file
        → IsForeignFile file (count_by opaque_at (packets_of parts)) }
    ensures faulty { (file : List ℕ) (parts : List Part) (first : StretchValue) (more : List StretchValue) → AreParts parts file []
        → stretches_of parts ≡ first ∷ more → (fault : FileFault) × IsFaulty file first.offset fault }
{}
