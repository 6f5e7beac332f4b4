//! The states of so many discretes.

ghost use Rattle.std.specs.Prelude.{◌≡◌};
ghost use Rattle.r10_discrete.specs.Entry.{has_only as only_states};

/// Whether there are 1 to 31 discretes, and no state stands at or above their number.
#[tactic(auto, using(crate::proofs::Bodies::no_state))]
pub fn has_only(bits: usize, states: u32) -> bool
    ensures { result ≡ only_states bits states }
{
    0 < bits && bits < 32 && states >> bits == 0
}
