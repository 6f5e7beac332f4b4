//! What a worker passes before it works.

ghost use Rattle.std.specs.Prelude.{◌≡◌, ℕ, Bool, true, ⊤};

/// A gate that each worker of a session passes first, by its number. A worker to which it answers false has ended.
pub trait Gate {
    /// The gate may answer so to the worker of this number. Where a gate says nothing of it, it may give any answer.
    ghost answers: { Self → ℕ → Bool → Type 0 } = { λ gate worker answer. ⊤ };

    /// Whether the worker may go on. This may take its time, and returns.
    fn pass(&self, worker: usize) -> bool
        ensures { answers self.now worker result };
}

/// A gate that lets everybody pass at once.
#[derive(Clone, Copy)]
pub struct Open;

impl Gate for Open {
    ghost answers = { λ gate worker answer. answer ≡ true };

    fn pass(&self, _worker: usize) -> bool
        ensures { result ≡ true }
    {
        true
    }
}
