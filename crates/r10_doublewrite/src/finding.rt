// Which of the sectors a block lies in.
ghost use Rattle.std.specs.Prelude.{◌≡◌, ◌+◌, ◌≤◌, ◌<◌, length, slice_index, MatchOption};
ghost use Rattle.r10_sector.specs.Held.{IsAmong};
ghost use Rattle.r10_doublewrite.specs.Last.{IsLast};

/// The last one of the sectors that begin there in which block `n` lies.
pub(crate) fn find(firsts: &[usize], per: usize, n: usize) -> Option<usize>
    ensures { MatchOption result (IsAmong per firsts.now n → ⊥) (λ i. IsLast per firsts.now n i) }
{
    let mut found = None;
    for i in 0..firsts.len() {
        let first = firsts[i];
        if first <= n && n - first < per {
            found = Some(i);
        }
    }
    found
}
