//! The tests of a file that is begun beside others, sealed, erased or searched.

ghost use Rattle.std.specs.Prelude.{◌≡◌, ◌∷◌, [], not, nat_lt, None, Some, MatchResult};
ghost use Rattle.r10_body.specs.declared.refusal.Refusal.TheVariants as refusals;
ghost use Rattle.r10_count.specs.Checks.{first_broken};
ghost use Rattle.r10_machine.specs.Checks.{Tests};
ghost use Rattle.r10_machine.specs.EventChecks.{count_at_checks, erase_checks, find_checks};

use r10_body::Refusal;
use r10_count::{Civil, Count, Parts};

/// A file whose name isn't taken, after a last one that is closed, where there are fewer than so many.
pub fn check_beside(taken: bool, sealed: bool, files: usize, most: usize) -> Result<(), Refusal>
    ensures { Tests (first_broken
        ((not taken, refusals.NameTaken) ∷ (sealed, refusals.Unsealed) ∷ (nat_lt files most, refusals.DirectoryFull) ∷ [])) result }
{
    if taken {
        return Err(Refusal::NameTaken);
    }
    if !sealed {
        return Err(Refusal::Unsealed);
    }
    if files >= most {
        return Err(Refusal::DirectoryFull);
    }
    Ok(())
}

/// A last file that was left open.
pub fn check_seal(sealed: bool) -> Result<(), Refusal>
    ensures { Tests (first_broken ((not sealed, refusals.NoSuchFile) ∷ [])) result }
{
    if sealed {
        return Err(Refusal::NoSuchFile);
    }
    Ok(())
}

/// A generation that another may follow.
pub fn check_erase(generation: u64) -> Result<(), Refusal>
    ensures { Tests (first_broken (erase_checks generation)) result }
{
    if generation == u64::MAX {
        return Err(Refusal::Stale);
    }
    Ok(())
}

/// A count of 48 bits, in one of so many files.
pub fn check_find(files: usize, file: usize, count: u64) -> Result<Count, Refusal>
    ensures { MatchResult result (λ c. (c ≡ count) × (first_broken (find_checks files file count) ≡ None))
        (λ r. first_broken (find_checks files file count) ≡ Some r) }
{
    let Some(count) = Count::of(count) else {
        return Err(Refusal::CountRange);
    };
    if file >= files {
        return Err(Refusal::NoSuchFile);
    }
    Ok(count)
}

/// A civil time that is there, in one of so many files.
pub fn check_count_at(files: usize, file: usize, parts: Parts) -> Result<Civil, Refusal>
    ensures { MatchResult result (λ c. (c ≡ parts) × (first_broken (count_at_checks files file parts) ≡ None))
        (λ r. first_broken (count_at_checks files file parts) ≡ Some r) }
{
    let Some(civil) = Civil::of(parts) else {
        return Err(Refusal::BadCivil);
    };
    if file >= files {
        return Err(Refusal::NoSuchFile);
    }
    Ok(civil)
}
