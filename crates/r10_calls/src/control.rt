//! Calls on the medium, the clock and the file that is recorded.

ghost use Rattle.std.specs.Prelude.{◌≡◌};
ghost use Rattle.r10_calls.specs.EventCalls.{DoesEvent, KeepsMedium, reply_number};
ghost use Rattle.r10_calls.specs.Outs.{moved_in, taken_out, left_out};
ghost use Rattle.r10_machine.specs.declared.event.Event.TheVariants as events;

use crate::desk::{Desk, reply_number};
use crate::outs::{left_in, moved_in, taken_in};
use r10_body::status::OUT_OF_MEMORY;
use r10_count::{Items, Parts};
use r10_machine::Event;
use r10_region::SteadyMedium;

impl<M: SteadyMedium + Drop> Desk<M> {
    /// Begins to use the medium: 0, or 1, 3, 26, 28, 30.
    pub fn mount(&mut self) -> u32
        ensures does { DoesEvent M.disk self.old events.Mount (λ reply. result ≡ reply_number reply) self.new }
        ensures stays { KeepsMedium M.identity self.old self.new }
    {
        let reply = self.tell(Event::Mount);
        reply_number(&reply)
    }

    /// Ends the use of the medium: 0, or 1, 2, 4, 28, 30.
    pub fn dismount(&mut self) -> u32
        ensures does { DoesEvent M.disk self.old events.Dismount (λ reply. result ≡ reply_number reply) self.new }
        ensures stays { KeepsMedium M.identity self.old self.new }
    {
        let reply = self.tell(Event::Dismount);
        reply_number(&reply)
    }

    /// The clock: a count below 2^48, in units of 100 ns, and the civil time at it. 0, or 1, 2, 10, 11, 13, 25, 28, 30.
    pub fn tick(&mut self, count: u64, parts: Parts) -> u32
        ensures does { DoesEvent M.disk self.old (events.Tick count parts) (λ reply. result ≡ reply_number reply) self.new }
        ensures stays { KeepsMedium M.identity self.old self.new }
    {
        let reply = self.tell(Event::Tick { count, parts });
        reply_number(&reply)
    }

    /// Begins a file with a name of 1 to 56 letters, digits, `.`, `_` and `-`, and a setup text of at most 524,260 bytes: 0, or 1,
    /// 2, 4, 9, 14, 15, 16, 18, 23, 25, 28, 30.
    pub fn start(&mut self, name: &[u8], setup: &[u8]) -> u32
        ensures does { DoesEvent M.disk self.old (events.Start name.now setup.now) (λ reply. result ≡ reply_number reply) self.new }
        ensures stays { KeepsMedium M.identity self.old self.new }
    {
        let Ok(name) = Vec::from_slice(self.alloc, name) else {
            return OUT_OF_MEMORY;
        };
        let Ok(setup) = Vec::from_slice(self.alloc, setup) else {
            return OUT_OF_MEMORY;
        };
        let (name, setup) = (Items::of(name), Items::of(setup));
        let reply = self.tell(Event::Start { name, setup });
        reply_number(&reply)
    }

    /// So many messages of a channel were lost before they were offered: 0, or 6, 30.
    pub fn lose(&mut self, channel: u16, lost: u64) -> u32
        ensures does { DoesEvent M.disk self.old (events.Lose channel lost) (λ reply. result ≡ reply_number reply) self.new }
        ensures stays { KeepsMedium M.identity self.old self.new }
    {
        let reply = self.tell(Event::Lose { channel, lost });
        reply_number(&reply)
    }

    /// Takes at most so many waiting messages of a channel into the file, and says how many: 0, or 1, 2, 5, 6, 25, 28, 30.
    pub fn pump(&mut self, channel: u16, most: usize, moved: &mut usize) -> u32
        ensures does { DoesEvent M.disk self.old (events.Pump channel most)
            (λ reply. (result ≡ reply_number reply) × (moved.new ≡ moved_in reply moved.old)) self.new }
        ensures stays { KeepsMedium M.identity self.old self.new }
    {
        let reply = self.tell(Event::Pump { channel, most });
        *moved = moved_in(&reply, *moved);
        reply_number(&reply)
    }

    /// A recording event of this number, 0 to 4,095: 0, or 1, 2, 5, 10, 11, 17, 25, 28, 30.
    pub fn event(&mut self, number: u16, count: u64) -> u32
        ensures does { DoesEvent M.disk self.old (events.Event number count) (λ reply. result ≡ reply_number reply) self.new }
        ensures stays { KeepsMedium M.identity self.old self.new }
    {
        let reply = self.tell(Event::Event { number, count });
        reply_number(&reply)
    }

    /// Shows on the medium all that the file has: 0, or 1, 2, 5, 28, 30.
    pub fn commit(&mut self) -> u32
        ensures does { DoesEvent M.disk self.old events.Commit (λ reply. result ≡ reply_number reply) self.new }
        ensures stays { KeepsMedium M.identity self.old self.new }
    {
        let reply = self.tell(Event::Commit);
        reply_number(&reply)
    }

    /// Takes in what waits and ends the file, and says how many messages it took and left: 0, or 1, 2, 5, 28, 30.
    pub fn stop(&mut self, taken: &mut usize, left: &mut usize) -> u32
        ensures does { DoesEvent M.disk self.old events.Stop (λ reply. (result ≡ reply_number reply)
            × (taken.new ≡ taken_out reply taken.old) × (left.new ≡ left_out reply left.old)) self.new }
        ensures stays { KeepsMedium M.identity self.old self.new }
    {
        let reply = self.tell(Event::Stop);
        *taken = taken_in(&reply, *taken);
        *left = left_in(&reply, *left);
        reply_number(&reply)
    }

    /// Closes the last file, which was left open: 0, or 1, 2, 4, 19, 25, 27, 28, 30.
    pub fn seal(&mut self) -> u32
        ensures does { DoesEvent M.disk self.old events.Seal (λ reply. result ≡ reply_number reply) self.new }
        ensures stays { KeepsMedium M.identity self.old self.new }
    {
        let reply = self.tell(Event::Seal);
        reply_number(&reply)
    }

    /// Takes all files from the medium: 0, or 1, 2, 4, 20, 28, 30.
    pub fn erase(&mut self) -> u32
        ensures does { DoesEvent M.disk self.old events.Erase (λ reply. result ≡ reply_number reply) self.new }
        ensures stays { KeepsMedium M.identity self.old self.new }
    {
        let reply = self.tell(Event::Erase);
        reply_number(&reply)
    }
}
