//! A reader beside a recorder under a lock.

ghost use Rattle.std.specs.Prelude.{◌≡◌, ◌<◌, ◌≤◌, [], drop, slice_get, Err, IfErr, OnOk};
ghost use Rattle.r10_body.specs.declared.refusal.Refusal.TheVariants as refusals;
ghost use Rattle.r10_gauge.specs.Published.{commits_of, last_triple};
ghost use Rattle.r10_held.specs.Publishing.{StaysPublished};
ghost use Rattle.r10_control.specs.Calls.{AdvancesRecorder};
ghost use Rattle.r10_held.specs.Advancing.{AdvancesPlayer, SaysBehind};

use crate::cabinet::Cabinet;
use crate::held::Held;
use crate::rings::Rings;
use r10_body::{Entry, Glance, Refusal};
use r10_cursor::Cursor;
use r10_gauge::Pass;
use r10_medium::BlockMedium;
use std::alloc::Global;
use std::sync::Wait;

/// A reader beside a recorder under a lock: its cursor, and what it has seen published.
pub struct Player {
    cursor: Cursor,
    pass: Pass,
}

/// Letting it go is one call, so that a body that holds one has one exit for it.
impl Drop for Player {
    fn drop(self) {
        let Player { cursor: _, pass: _ } = self;
    }
}

impl Player {
    /// A reader with this cursor, that has seen what the pass has seen.
    pub fn new(cursor: Cursor, pass: Pass) -> Player
        ensures { (result.cursor ≡ cursor) × (result.pass ≡ pass) }
    {
        Player { cursor, pass }
    }

    /// Its cursor.
    pub fn cursor(&self) -> &Cursor
        ensures { result.now ≡ self.now.cursor }
    {
        &self.cursor
    }

    /// The last triple that it has seen, without another look. Its number says how many were seen.
    pub fn seen(&self) -> Glance
        ensures last { result ≡ last_triple self.now.pass.seen }
        ensures commits { result.commits ≡ commits_of self.now.pass.seen }
    {
        self.pass.last()
    }

    /// How many packets of its file it has covered, those of its index not counted: the entries of these, in the order of the file,
    /// it gave or passed over.
    pub fn covered(&self) -> usize
        ensures { result ≡ self.now.cursor.reading.covered }
    {
        self.cursor.covered()
    }

    /// Looks at what the cabinet published, without its lock, and then takes the next instalment from its recorder under the lock,
    /// as `advance_in`. It may wait for the lock. What was seen before is a beginning of what is seen then, and this of what the
    /// lock's value had published.
    ///
    /// Refused as `advance_in`, but never After. Where this is refused, the cursor is as it was.
    pub fn advance<M: BlockMedium, N: Rings, R: Wait>(
        &mut self,
        rt: &R,
        cabinet: &Cabinet<M, N>,
    ) -> Result<usize, Refusal>
        requires { self.old.pass.cell ≡ cabinet.now.gauge }
        ensures { AdvancesPlayer M.disk N.rings self.old self.new result }
    {
        let _seen = cabinet.glance(rt, &mut self.pass);
        cabinet.is_named();
        let mut lock = cabinet.hold(rt);
        let held: &mut Held<M, N> = &mut lock;
        // For the proof: what is known of whatever a lock keeps.
        held.look();
        held.is_named();
        // The lock's value has published all that the pass has seen.
        held.meet(rt, &mut self.pass);
        self.advance_in(held)
    }

    /// Takes the next instalment of its cursor from the recorder that is held, which must have published at least what was seen:
    /// else this is refused After, with the last that was seen, and nothing changes. Else it is the recorder's `advance` of the
    /// cursor, and refused as that: Failed, NotMounted, Stale where the cursor is of another generation, Unread where its queue is
    /// not empty, NoSuchFile, BadFile with the file's first fault, OutOfMemory, Medium. Where this is refused, the cursor is as it
    /// was.
    pub fn advance_in<M: BlockMedium, N: Rings>(
        &mut self,
        held: &mut Held<M, N>,
    ) -> Result<usize, Refusal>
        ensures at_least { OnOk result (commits_of self.old.pass.seen ≤ commits_of held.old.published) }
        ensures behind { commits_of held.old.published < commits_of self.old.pass.seen
            → (result ≡ Err (refusals.Behind (last_triple self.old.pass.seen))) × (self.new ≡ self.old) × (held.new ≡ held.old) }
        ensures only_behind { IfErr result (SaysBehind (commits_of held.old.published < commits_of self.old.pass.seen)) }
        ensures advances { commits_of self.old.pass.seen ≤ commits_of held.old.published
            → AdvancesRecorder M.disk held.old.recorder held.new.recorder self.old.cursor self.new.cursor result }
        ensures pass { self.new.pass ≡ self.old.pass }
        ensures gauge { StaysPublished held.old held.new }
    {
        let seen = self.pass.last();
        if held.commits() < seen.commits {
            return Err(Refusal::Behind(seen));
        }
        held.advance(&mut self.cursor)
    }

    /// All that it has yet to give, in order, which it then has given. This takes no memory.
    pub fn rest(&mut self, alloc: Global) -> Vec<Entry>
        ensures given { result.items ≡ self.old.cursor.reading.queue }
        ensures left { self.new.cursor ≡ record self.old.cursor { reading = record self.old.cursor.reading { queue = [] } } }
        ensures pass { self.new.pass ≡ self.old.pass }
    {
        self.cursor.rest(alloc)
    }

    /// The first of what it has yet to give, which it then has given. None where nothing is left. This takes no memory.
    pub fn next(&mut self) -> Option<Entry>
        ensures given { result ≡ slice_get self.old.cursor.reading.queue 0 }
        ensures left { self.new.cursor
            ≡ record self.old.cursor { reading = record self.old.cursor.reading { queue = drop 1 self.old.cursor.reading.queue } } }
        ensures pass { self.new.pass ≡ self.old.pass }
    {
        self.cursor.next()
    }
}
