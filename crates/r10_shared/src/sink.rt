//! Where instalments go while a session runs.

ghost use Rattle.std.specs.Prelude.{List, OnErr, ⊤};
ghost use Rattle.r10_held.specs.declared.transcript.Instalment.{Instalment as InstalmentValue};
ghost use Rattle.r10_shared.specs.Sinks.{Accepts};

use r10_held::Instalment;

/// Where a player hands on its instalments, one after the other, as they come.
pub trait Sink: Drop {
    /// The instalments that it accepted, in order.
    ghost accepted: { Self → List InstalmentValue };

    /// It may have refused an instalment. A sink that never refuses says of none that it did.
    ghost has_refused: { Self → Type 0 } = { λ sink. ⊤ };

    /// Accepts the next instalment, or gives it back. This may take its time, and returns.
    fn accept(&mut self, instalment: Instalment) -> Result<(), Instalment>
        ensures accepts { Accepts instalment result (accepted self.old) (accepted self.new) }
        ensures refused { OnErr result (has_refused self.new) };
}
