//! A message is carried in, with the loss before it.

ghost use Rattle.std.specs.Prelude.{◌≡◌, None, IfErr, IfOk, IsSome};
ghost use Rattle.r10_calls.specs.Carrying.{DoesEach, WouldRefuse, events_of, lost_of};
ghost use Rattle.r10_calls.specs.EventCalls.{DoesEvent, KeepsMedium, reply_number};
ghost use Rattle.r10_machine.specs.Calls.{losing};
ghost use Rattle.r10_machine.specs.Checks.{offer_refusal};
ghost use Rattle.r10_machine.specs.Machine.{change_first, is_channel, lane_in};
ghost use Rattle.r10_machine.specs.declared.event.Event.TheVariants as events;

use crate::desk::Desk;
use r10_body::{Gap, Message, Sample};
use r10_machine::Event;
use r10_region::SteadyMedium;

/// How many messages were lost before a sample.
fn lost_of(gap: Gap) -> u64
    ensures { result ≡ lost_of gap }
{
    match gap {
        Gap::Whole => 0,
        Gap::Lost(lost) => lost,
        Gap::Unknown => 1,
    }
}

impl<M: SteadyMedium + Drop> Desk<M> {
    /// Counts the loss before a sample, if there was one, and offers its message, which is not copied. Where the offer would be
    /// refused nothing is done: the sample comes back, with the refusal's number, 6 to 12.
    pub fn carry(&mut self, channel: u16, sample: Sample) -> Result<(), (u32, Sample)>
        ensures carried { IfOk result (λ _. DoesEach M.disk self.old (events_of channel sample) self.new) }
        ensures refused { IfErr result (λ back. WouldRefuse self.old channel sample back.0 × (back.1 ≡ sample)) }
        ensures untouched { IfErr result (λ _. self.new ≡ self.old) }
        ensures stays { KeepsMedium M.identity self.old self.new }
    {
        let count = sample.count.get();
        if let Err(refusal) = self.world.would_take(channel, count, &sample.message) {
            return Err((u32::from(refusal.number()), sample));
        }
        let lost = lost_of(sample.gap);
        if lost != 0 {
            self.lose_there(channel, lost);
        }
        self.offer_there(channel, count, sample.message);
        Ok(())
    }

    /// Counts a loss of a channel that is there.
    fn lose_there(&mut self, channel: u16, lost: u64)
        requires { IsSome (lane_in channel self.old.world.recorder.lanes) }
        ensures does { DoesEvent M.disk self.old (events.Lose channel lost) (λ reply. reply_number reply ≡ 0) self.new }
        ensures lanes { self.new.world.recorder.lanes ≡ change_first (is_channel channel) (losing lost)
            self.old.world.recorder.lanes }
        ensures stays { KeepsMedium M.identity self.old self.new }
    {
        self.tell(Event::Lose { channel, lost });
    }

    /// Offers a message that its channel takes.
    fn offer_there(&mut self, channel: u16, count: u64, message: Message)
        requires { offer_refusal (lane_in channel self.old.world.recorder.lanes) count message ≡ None }
        ensures does { DoesEvent M.disk self.old (events.Offer channel count message) (λ reply. reply_number reply ≡ 0) self.new }
        ensures stays { KeepsMedium M.identity self.old self.new }
    {
        self.tell(Event::Offer {
            channel,
            count,
            message,
        });
    }
}
