//! The law of verdicts, as a call that does nothing.

ghost use Rattle.std.specs.Prelude.{◌≡◌, ℕ, List};
ghost use Rattle.r10_checker.specs.Verdict.{IsVerdict};
ghost use Rattle.r10_checker.specs.declared.check.Verdict.{Verdict as VerdictValue};
ghost use Rattle.r10_body.specs.Files.{IsStrict};
ghost use Rattle.r10_body.specs.Foreign.{IsForeignFile};

/// A file has one verdict; a strict one would be lenient too, with no opaque packet.
pub fn one_verdict()
    ensures one { (bytes : List ℕ) (verdict : VerdictValue) (other : VerdictValue) → IsVerdict bytes verdict
        → IsVerdict bytes other → verdict ≡ other }
    ensures strict { (bytes : List ℕ) → IsStrict bytes → IsForeignFile bytes 0 }
{}
