//! What became of the messages of a channel, in every mode, as a caller of another language has it.

ghost use Rattle.std.specs.Prelude.{◌≡◌, find, map, IfOk};
ghost use Rattle.std.specs.List.{position};
ghost use Rattle.r10_calls.specs.Accounts.{account_given, account_out, accepted_on, counted_offer, erased_on, is_counted_on};
ghost use Rattle.r10_calls.specs.Accounts.{not_yet};
ghost use Rattle.r10_calls.specs.Listing.{lane_place};
ghost use Rattle.r10_calls.specs.EventCalls.{DoesEvent, KeepsMedium};
ghost use Rattle.r10_machine.specs.declared.event.Event.TheVariants as events;

use crate::desk::{Desk, reply_number};
use crate::place::WorldPlace;
use r10_body::ChannelSpec;
use r10_body::status::PLACE;
use r10_machine::{ChannelStatus, Event, Reply};
use r10_region::SteadyMedium;
use std::alloc::{AllocError, Global};

/// What is counted of a channel's messages beside what the recorder counts, each number up to `u64::MAX`.
#[derive(Clone, Copy)]
pub struct Accepted {
    pub channel: u16,
    /// the messages that its lane accepted
    pub messages: u64,
    /// those of them that were taken out of the lane to go elsewhere
    pub handed: u64,
    /// the losses that the gaps of these report
    pub handed_lost: u64,
    /// the losses that the gaps of erased messages reported
    pub erased_lost: u64,
}

/// What became of the messages of a channel.
#[repr(C)]
#[derive(Clone, Copy)]
pub struct AccountOut {
    /// the messages that its lane accepted, up to 2^64 - 1
    pub accepted: u64,
    /// the entries that erases took, up to 2^64 - 1; of a recorder that failed too
    pub erased: u64,
    /// the messages that were lost, up to 2^64 - 1
    pub lost: u64,
    /// the messages that wait
    pub waiting: usize,
    pub channel: u16,
}

/// Of each channel none, in the order of the settings.
pub fn none_accepted(alloc: Global, channels: &[ChannelSpec]) -> Result<Vec<Accepted>, AllocError>
    ensures { IfOk result (λ accepted. accepted.items ≡ map not_yet channels.now) }
{
    let mut accepted = Vec::new(alloc);
    for spec in channels {
        accepted.push(Accepted {
            channel: spec.id,
            messages: 0,
            handed: 0,
            handed_lost: 0,
            erased_lost: 0,
        })?;
    }
    Ok(accepted)
}

/// The place of a channel.
pub(crate) fn place_of(accepted: &[Accepted], channel: u16) -> Option<usize>
    ensures { result ≡ position (is_counted_on channel) accepted.now }
{
    accepted.iter().position(|one| one.channel == channel)
}

/// Counts a message of a channel, where the offer of it answered 0.
pub fn count_accepted(accepted: &mut Vec<Accepted>, channel: u16, answer: u32)
    ensures { accepted.new.items ≡ counted_offer answer channel accepted.old.items }
{
    if answer != 0 {
        return;
    }
    let Some(at) = place_of(accepted.as_slice(), channel) else {
        return;
    };
    let one = &mut accepted[at];
    one.messages = one.messages.saturating_add(1);
}

/// The number of a channel.
fn one_of(accepted: &[Accepted], channel: u16) -> Option<Accepted>
    ensures { result ≡ find (is_counted_on channel) accepted.now }
{
    accepted.iter().copied().find(|one| one.channel == channel)
}

/// How many messages of a channel were accepted.
fn accepted_on(accepted: &[Accepted], channel: u16) -> u64
    ensures { result ≡ accepted_on channel accepted.now }
{
    match one_of(accepted, channel) {
        Some(one) => one.messages,
        None => 0,
    }
}

/// How many entries of a channel erases took.
fn erased_on<M: SteadyMedium + Drop>(world: &WorldPlace<M>, channel: u16) -> u64
    ensures { result ≡ erased_on channel world.now.recorder.kept }
{
    match world.erased(channel) {
        Some(erased) => erased,
        None => 0,
    }
}

/// The account of a channel that is so.
fn account_of<M: SteadyMedium + Drop>(
    status: &ChannelStatus,
    accepted: &[Accepted],
    world: &WorldPlace<M>,
) -> AccountOut
    ensures { result ≡ account_out accepted.now world.now.recorder.kept status.now }
{
    AccountOut {
        accepted: accepted_on(accepted, status.channel),
        erased: erased_on(world, status.channel),
        lost: status.lost,
        waiting: status.waiting,
        channel: status.channel,
    }
}

/// Puts the account of the channel at this place, and answers the call's number.
fn put_account<M: SteadyMedium + Drop>(
    reply: &Reply,
    place: usize,
    accepted: &[Accepted],
    world: &WorldPlace<M>,
    out: &mut AccountOut,
) -> u32
    ensures number { result ≡ lane_place reply.now place }
    ensures account { out.new ≡ account_given reply.now place accepted.now world.now.recorder.kept out.old }
{
    let Reply::Status(status) = reply else {
        return reply_number(reply);
    };
    match status.channels.as_slice().get(place) {
        Some(channel) => {
            *out = account_of(channel, accepted, world);
            0
        }
        None => PLACE,
    }
}

impl<M: SteadyMedium + Drop> Desk<M> {
    /// What became of the messages of the channel at this place of the settings, from 0, of which so many were accepted: in every
    /// mode. 0, or 30, or 43 where there are fewer.
    pub fn account(&mut self, place: usize, accepted: &[Accepted], out: &mut AccountOut) -> u32
        ensures does { DoesEvent M.disk self.old events.Status (λ reply. (result ≡ lane_place reply place)
            × (out.new ≡ account_given reply place accepted.now self.new.world.recorder.kept out.old)) self.new }
        ensures stays { KeepsMedium M.identity self.old self.new }
    {
        let reply = self.tell(Event::Status);
        put_account(&reply, place, accepted, &self.world, out)
    }
}
