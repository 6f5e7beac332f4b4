//! Calls that may write. Each sees to room for its operations before it does anything.

ghost use Rattle.std.specs.Prelude.{◌≡◌};
ghost use Rattle.r10_machine.specs.declared.event.Event.TheVariants as events;
ghost use Rattle.r10_calls.specs.Outs.{left_out, moved_in, taken_out};
ghost use Rattle.r10_calls.specs.EventCalls.{DoesEvent, reply_number};
ghost use Rattle.r10_region.specs.RegionDisk.{region_disk};
ghost use Rattle.r10_ffi.specs.Calls.{ErasesHeld, WritesHeld};

use crate::held::LentRecorder;
use r10_body::status::OUT_OF_MEMORY;
use r10_count::Parts;
use std::alloc::Global;

impl LentRecorder {
    pub(crate) fn mount(&mut self, alloc: Global) -> u32
        ensures { WritesHeld result self.old self.new
            (λ old new. DoesEvent region_disk old events.Mount (λ reply. result ≡ reply_number reply) new) }
    {
        if !self.orders.make_room(alloc) {
            return OUT_OF_MEMORY;
        }
        self.desk.mount()
    }

    pub(crate) fn dismount(&mut self, alloc: Global) -> u32
        ensures { WritesHeld result self.old self.new
            (λ old new. DoesEvent region_disk old events.Dismount (λ reply. result ≡ reply_number reply) new) }
    {
        if !self.orders.make_room(alloc) {
            return OUT_OF_MEMORY;
        }
        self.desk.dismount()
    }

    pub(crate) fn tick(&mut self, alloc: Global, count: u64, parts: Parts) -> u32
        ensures { WritesHeld result self.old self.new
            (λ old new. DoesEvent region_disk old (events.Tick count parts) (λ reply. result ≡ reply_number reply) new) }
    {
        if !self.orders.make_room(alloc) {
            return OUT_OF_MEMORY;
        }
        self.desk.tick(count, parts)
    }

    pub(crate) fn start(&mut self, alloc: Global, name: &[u8], setup: &[u8]) -> u32
        ensures { WritesHeld result self.old self.new
            (λ old new. DoesEvent region_disk old (events.Start name.now setup.now) (λ reply. result ≡ reply_number reply) new) }
    {
        if !self.orders.make_room(alloc) {
            return OUT_OF_MEMORY;
        }
        self.desk.start(name, setup)
    }

    pub(crate) fn pump(
        &mut self,
        alloc: Global,
        channel: u16,
        most: usize,
        moved: &mut usize,
    ) -> u32
        ensures { WritesHeld result self.old self.new (λ old new. DoesEvent region_disk old (events.Pump channel most)
            (λ reply. (result ≡ reply_number reply) × (moved.new ≡ moved_in reply moved.old)) new) }
    {
        if !self.orders.make_room(alloc) {
            return OUT_OF_MEMORY;
        }
        self.desk.pump(channel, most, moved)
    }

    pub(crate) fn event(&mut self, alloc: Global, number: u16, count: u64) -> u32
        ensures { WritesHeld result self.old self.new
            (λ old new. DoesEvent region_disk old (events.Event number count) (λ reply. result ≡ reply_number reply) new) }
    {
        if !self.orders.make_room(alloc) {
            return OUT_OF_MEMORY;
        }
        self.desk.event(number, count)
    }

    pub(crate) fn commit(&mut self, alloc: Global) -> u32
        ensures { WritesHeld result self.old self.new
            (λ old new. DoesEvent region_disk old events.Commit (λ reply. result ≡ reply_number reply) new) }
    {
        if !self.orders.make_room(alloc) {
            return OUT_OF_MEMORY;
        }
        self.desk.commit()
    }

    pub(crate) fn stop(&mut self, alloc: Global, taken: &mut usize, left: &mut usize) -> u32
        ensures { WritesHeld result self.old self.new
            (λ old new. DoesEvent region_disk old events.Stop (λ reply. (result ≡ reply_number reply)
            × (taken.new ≡ taken_out reply taken.old) × (left.new ≡ left_out reply left.old)) new) }
    {
        if !self.orders.make_room(alloc) {
            return OUT_OF_MEMORY;
        }
        self.desk.stop(taken, left)
    }

    pub(crate) fn seal(&mut self, alloc: Global) -> u32
        ensures { WritesHeld result self.old self.new
            (λ old new. DoesEvent region_disk old events.Seal (λ reply. result ≡ reply_number reply) new) }
    {
        if !self.orders.make_room(alloc) {
            return OUT_OF_MEMORY;
        }
        self.desk.seal()
    }

    /// An erase counts the losses before erased messages.
    pub(crate) fn erase(&mut self, alloc: Global) -> u32
        ensures { ErasesHeld result self.old self.new }
    {
        if !self.orders.make_room(alloc) {
            return OUT_OF_MEMORY;
        }
        let answer = self.desk.erase();
        if answer == 0 {
            self.desk.count_erased(&mut self.accepted);
        }
        answer
    }
}
