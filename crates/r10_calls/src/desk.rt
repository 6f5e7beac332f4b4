//! A recorder and its readers, to which one event at a time is given.

ghost use Rattle.std.specs.Prelude.{◌≡◌};
ghost use Rattle.r10_calls.specs.Faults.{fault_in};
ghost use Rattle.r10_calls.specs.EventCalls.{ShowsMedium, KeepsMedium, StepsToReply, reply_number};

use crate::fault::{FaultOut, fault_in};
use crate::place::WorldPlace;
use r10_machine::{Event, Reply};
use r10_region::{Onlooker, SteadyMedium};
use std::alloc::Global;

/// A recorder with lanes of one thread and the cursors of its readers.
pub struct Desk<M: SteadyMedium> {
    pub(crate) alloc: Global,
    pub(crate) world: WorldPlace<M>,
    // what the last refusal carried, of those that carry something
    pub(crate) fault: FaultOut,
    // the reply with the entry that the program has in hand, or one without an entry
    pub(crate) hand: Reply,
}

/// Letting it go is one call, so that a body that holds one has one exit for it.
impl<M: SteadyMedium + Drop> Drop for Desk<M> {
    fn drop(self) {
        let Desk {
            alloc: _,
            world: _,
            fault: _,
            hand: _,
        } = self;
    }
}

impl<M: SteadyMedium + Drop> Desk<M> {
    /// Tells the recorder one event, gives its reply, and keeps what a refusal carries.
    pub(crate) fn tell(&mut self, event: Event) -> Reply
        ensures steps { StepsToReply M.disk self.old.world event result self.new.world }
        ensures config { self.new.world.recorder.kept.config ≡ self.old.world.recorder.kept.config }
        ensures fault { self.new.fault ≡ fault_in result self.old.fault }
        ensures hand { self.new.hand ≡ self.old.hand }
        ensures stays { KeepsMedium M.identity self.old self.new }
    {
        let reply = self.world.run(event);
        self.fault = fault_in(&reply, self.fault);
        reply
    }

    /// Shows the medium to an onlooker.
    pub fn show<O: Onlooker<M>>(&mut self, onlooker: &mut O)
        requires { O.may_look onlooker.old self.old.world.recorder.medium }
        ensures shows { ShowsMedium M.identity (λ before after. O.looks onlooker.old before onlooker.new after)
            self.old.world self.new.world }
        ensures rest { self.new ≡ record self.old { world = self.new.world } }
    {
        self.world.show(onlooker);
    }

    /// What the last refusal carried, of those that carry something.
    pub fn fault(&self) -> FaultOut
        ensures { result ≡ self.now.fault }
    {
        self.fault
    }
}

/// The number of a reply: that of its refusal, 1 to 30, or 0.
pub(crate) fn reply_number(reply: &Reply) -> u32
    ensures { result ≡ reply_number reply.now }
{
    match reply {
        Reply::Refused(refusal) => u32::from(refusal.number()),
        _ => 0,
    }
}
