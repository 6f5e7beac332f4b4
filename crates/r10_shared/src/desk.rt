//! The recorder that the workers of a session share, as each of them asks of it.

ghost use Rattle.std.specs.Prelude.{◌≡◌, refl};
ghost use Rattle.std.proofs.Common.{◌∙◌, ap, sym};
ghost use Rattle.std.specs.List.{AllByRecursion};
ghost use Rattle.r10_shared.specs.Desk.{DoesAll, WasAsked, WasTurned, channel_count};
ghost use Rattle.r10_shared.specs.DeskLaws.{all_join, does_join, does_keep, does_none};

use crate::giving::Control;
use crate::order::Order;
use crate::reader::SessionReader;
use crate::rounds::{Recording, Round, go_round};
use crate::waiting::Progress;
use crate::watching::Watching;
use crate::writing::Writing;
use crossbeam_utils::sync::Key;
use r10_body::Refusal;
use r10_held::{Cabinet, Held, Rings};
use r10_machine::Reply;
use r10_medium::BlockMedium;
use std::alloc::Global;
use std::sync::Wait;

impl<M: BlockMedium, N: Rings> Recording for Held<M, N> {
    ghost number = { λ held. channel_count held };

    ghost asked = { DoesAll M.disk };

    fn channel_count(&self) -> usize {
        self.channels().len()
    }

    fn pump_place(&mut self, place: usize, most: usize) -> Result<usize, Refusal> {
        let channel = self.channels()[place].id;
        self.pump(channel, most)
    }

    fn commit_all<R: Wait>(&mut self, rt: &R) -> Result<(), Refusal> {
        self.commit(rt)
    }

    ghost stays = { does_none M.disk };

    ghost joins = { does_join M.disk };

    ghost keeps = { does_keep M.disk };
}

/// The recorder that is shared, with what the workers of its session share beside.
#[derive(Drop)]
pub(crate) struct SharedRecorder<'a, M: BlockMedium, N: Rings, R: Wait> {
    pub(crate) rt: &'a R,
    pub(crate) cabinet: &'a Cabinet<M, N>,
    pub(crate) progress: &'a Progress,
}

impl<'a, M: BlockMedium, N: Rings, R: Wait> Writing for SharedRecorder<'a, M, N, R> {
    type Key = Key<'a>;

    ghost asked = { λ old asks new. AllByRecursion (WasTurned M.disk N.rings) asks };

    fn is_over(&mut self) -> bool {
        self.progress.is_over()
    }

    fn round(&mut self, last: bool) -> Round {
        let mut lock = self.cabinet.hold(self.rt);
        let held: &mut Held<M, N> = &mut lock;
        // For the proof: what is known of whatever a lock keeps.
        held.look();
        go_round(self.rt, held, last)
    }

    fn tell(&mut self) {
        self.progress.show();
    }

    fn announce(&mut self) -> Key<'a> {
        self.progress.await_more()
    }

    fn sleep(&mut self, key: Key<'a>) {
        key.wait(self.rt);
    }

    ghost stays = { λ a. tt };

    ghost joins = { λ a b c xs ys first then. all_join (WasTurned M.disk N.rings) xs ys first then };
}

impl<'a, M: BlockMedium, N: Rings, R: Wait> Control for SharedRecorder<'a, M, N, R> {
    ghost asked = { λ old asks new. AllByRecursion (WasAsked M.disk N.rings) asks };

    fn ask(&mut self, order: &Order) -> Result<Reply, Refusal> {
        let mut lock = self.cabinet.hold(self.rt);
        let held: &mut Held<M, N> = &mut lock;
        // For the proof: what is known of whatever a lock keeps.
        held.look();
        order.perform(self.rt, held)
    }

    fn wake(&mut self) {
        self.progress.wake_writer();
    }

    ghost stays = { λ a. tt };

    ghost joins = { λ a b c xs ys first then. all_join (WasAsked M.disk N.rings) xs ys first then };
}

/// The same, for a reader.
#[derive(Drop)]
pub(crate) struct ReadersDesk<'a, M: BlockMedium, N: Rings, R: Wait> {
    pub(crate) rt: &'a R,
    pub(crate) alloc: Global,
    pub(crate) cabinet: &'a Cabinet<M, N>,
    pub(crate) progress: &'a Progress,
}

impl<'a, M: BlockMedium, N: Rings, R: Wait, D: SessionReader> Watching<D>
    for ReadersDesk<'a, M, N, R> {
    type Key = Key<'a>;

    ghost asked = { λ old asks new. new.cabinet.now ≡ old.cabinet.now };

    ghost is_of = { λ desk reading. D.gauge reading ≡ desk.cabinet.now.gauge };

    ghost reads_on = { D.reads_on };

    fn announce(&mut self) -> Key<'a> {
        self.progress.await_shown()
    }

    fn is_ended(&mut self) -> bool {
        self.progress.is_written()
    }

    fn commit_count(&mut self) -> u64 {
        self.progress.commit_count()
    }

    fn sleep(&mut self, key: Key<'a>) {
        key.wait(self.rt);
    }

    fn read(&mut self, reading: &mut D) -> Result<(), Refusal> {
        reading.read_next(self.rt, self.alloc, self.cabinet)
    }

    ghost stays = { λ a. refl };

    ghost joins = { λ a b c xs ys first then. then ∙ first };

    ghost keeps = { λ a b xs r s same reads is. D.stays_at r s reads ∙ is ∙ sym (ap (λ v. v.gauge) same) };

    ghost reads_none = { D.reads_none };

    ghost reads_join = { D.reads_join };
}
