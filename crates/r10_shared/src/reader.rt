//! Players of a session, whatever becomes of what they take.

ghost use Rattle.std.specs.Prelude.{◌≡◌, [], List};
ghost use Rattle.atomic_table.specs.Seated.{TableId};
ghost use Rattle.r10_body.specs.declared.entry.Entry.{Entry as EntryValue};

use r10_body::Refusal;
use r10_held::{Cabinet, Rings};
use r10_medium::BlockMedium;
use std::alloc::Global;
use std::sync::Wait;

/// A player of a session, with what it took.
pub(crate) trait SessionReader {
    /// The gauge at which it looks.
    ghost gauge: { Self → TableId };

    /// It has read on.
    ghost reads_on: { Self → Self → Type 0 };

    /// What it has yet to give.
    ghost queue: { Self → List EntryValue };

    /// Drops what was still to be given.
    fn pass_over(&mut self, alloc: Global)
        ensures reads { reads_on self.old self.new }
        ensures none { queue self.new ≡ [] };

    /// Takes the next instalment.
    fn read_next<M: BlockMedium, N: Rings, R: Wait>(
        &mut self,
        rt: &R,
        alloc: Global,
        cabinet: &Cabinet<M, N>,
    ) -> Result<(), Refusal>
        requires { gauge self.old ≡ cabinet.now.gauge }
        ensures { reads_on self.old self.new };

    /// A law: it looks at the same gauge then.
    ghost stays_at: { (r s : Self) → reads_on r s → gauge s ≡ gauge r };

    /// Where nothing is read all is as it was.
    ghost reads_none: { (r : Self) → reads_on r r };

    /// What was read first and then, was read.
    ghost reads_join: { (r s t : Self) → reads_on r s → reads_on s t → reads_on r t };
}
