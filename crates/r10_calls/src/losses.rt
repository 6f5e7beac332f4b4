//! How many messages of a channel were lost, and messages that go on to another recorder.

ghost use Rattle.std.specs.Prelude.{◌≡◌, None, Some, map};
ghost use Rattle.r10_body.specs.Gaps.{told_lost};
ghost use Rattle.r10_body.specs.Statuses.{place_status};
ghost use Rattle.r10_lane.specs.Losing.{losses_of};
ghost use Rattle.r10_machine.specs.Machine.{change_first, entry_of};
ghost use Rattle.r10_calls.specs.Accounts.{is_counted_on};
ghost use Rattle.r10_calls.specs.Losses.{HandsOn, lost_with_erased, gone_lost, handed_on, handing, losses_at, untold};
ghost use Rattle.r10_calls.specs.EventCalls.{KeepsMedium};

use crate::accounts::{Accepted, AccountOut, place_of};
use crate::desk::Desk;
use crate::entry_out::{EntryOut, lost_in};
use crate::hand::{is_next_in, next_fields};
use r10_body::status::PLACE;
use r10_body::{Entry, Sample};
use r10_lane::Losses;
use r10_machine::Reply;
use r10_region::SteadyMedium;

/// How many messages of a channel were lost, and where that is reported.
#[repr(C)]
#[derive(Clone, Copy)]
pub struct LossesOut {
    /// the losses since the last message that was accepted: no gap reports them yet
    pub missed: u64,
    /// those that the gaps of the messages that wait report
    pub waiting_lost: u64,
    /// those that the gaps of erased messages reported
    pub erased_lost: u64,
    /// the messages that were taken out of the lane to go elsewhere
    pub handed: u64,
    /// the losses that the gaps of these report
    pub handed_lost: u64,
    pub channel: u16,
}

/// How many losses the gaps of the messages report that are neither waiting nor handed on.
fn gone_lost(losses: Losses, handed_lost: u64) -> u64
    ensures { result ≡ gone_lost losses handed_lost }
{
    losses
        .lost
        .saturating_sub(losses.missed)
        .saturating_sub(losses.waiting)
        .saturating_sub(handed_lost)
}

/// One more message of a channel was handed on, and the loss before it.
fn count_handed(accepted: &mut Vec<Accepted>, channel: u16, lost: u64)
    ensures { accepted.new.items ≡ change_first (is_counted_on channel) (handing lost) accepted.old.items }
{
    let Some(at) = place_of(accepted.as_slice(), channel) else {
        return;
    };
    let one = &mut accepted[at];
    one.handed = one.handed.saturating_add(1);
    one.handed_lost = one.handed_lost.saturating_add(lost);
}

/// A message of a channel as an entry.
fn entry_of(channel: u16, sample: Sample) -> Entry
    ensures { result ≡ entry_of channel sample }
{
    Entry {
        channel,
        count: sample.count,
        message: sample.message,
        gap: sample.gap,
    }
}

/// How many of a channel's messages stand in no file and in no gap, where so many were found in the recorder's files, and so many
/// losses in their gaps: up to `u64::MAX`.
pub fn untold(account: &AccountOut, losses: &LossesOut, found: u64, found_lost: u64) -> u64
    ensures { result ≡ untold account.now losses.now found found_lost }
{
    account
        .accepted
        .saturating_add(account.lost)
        .saturating_sub(account.erased)
        .saturating_sub(losses.erased_lost)
        .saturating_sub(losses.handed)
        .saturating_sub(losses.handed_lost)
        .saturating_sub(found)
        .saturating_sub(found_lost)
}

impl<M: SteadyMedium + Drop> Desk<M> {
    /// The losses of the channel at this place of the settings, from 0, in every mode: 0, or 43 where there are fewer.
    pub fn losses(&self, place: usize, accepted: &[Accepted], out: &mut LossesOut) -> u32
        ensures number { result ≡ elim (losses_at accepted.now self.now.world.recorder.lanes place)
            [ None ↦ place_status | Some x ↦ 0 ] }
        ensures given { out.new ≡ elim (losses_at accepted.now self.now.world.recorder.lanes place)
            [ None ↦ out.old | Some x ↦ x ] }
    {
        let Some(one) = accepted.get(place) else {
            return PLACE;
        };
        let Ok(losses) = self.world.losses(one.channel) else {
            return PLACE;
        };
        *out = LossesOut {
            missed: losses.missed,
            waiting_lost: losses.waiting,
            erased_lost: one.erased_lost,
            handed: one.handed,
            handed_lost: one.handed_lost,
            channel: one.channel,
        };
        0
    }

    /// Counts the losses before erased messages, right after an erase: of each channel all losses but those since the last accepted
    /// message, before those that wait, and before those that were handed on.
    pub fn count_erased(&self, accepted: &mut Vec<Accepted>)
        ensures { accepted.new.items ≡ map (lost_with_erased self.now.world.recorder.lanes) accepted.old.items }
    {
        for at in 0..accepted.len() {
            accepted[at] = self.erased_of(accepted[at]);
        }
    }

    /// What is counted of a channel after an erase.
    fn erased_of(&self, one: Accepted) -> Accepted
        ensures { result ≡ lost_with_erased self.now.world.recorder.lanes one }
    {
        match self.world.losses(one.channel) {
            Ok(losses) => Accepted {
                erased_lost: gone_lost(losses, one.handed_lost),
                ..one
            },
            Err(_) => one,
        }
    }

    /// Takes the first message that waits on a channel out of its lane into the hand, if there is one, and gives its fields. It is
    /// counted as handed on. 0, or 6. What was in hand is gone.
    pub fn take_waiting(
        &mut self,
        channel: u16,
        accepted: &mut Vec<Accepted>,
        there: &mut bool,
        out: &mut EntryOut,
    ) -> u32
        ensures hands { HandsOn M.disk channel self.old accepted.old.items there.old out.old
            result self.new accepted.new.items there.new out.new }
        ensures stays { KeepsMedium M.identity self.old self.new }
    {
        match self.world.take_waiting(channel) {
            Ok(first) => {
                let entry = match first {
                    Some(sample) => {
                        count_handed(accepted, channel, lost_in(sample.gap));
                        Some(entry_of(channel, sample))
                    }
                    None => None,
                };
                let reply = Reply::Next(entry);
                *there = is_next_in(&reply, *there);
                *out = next_fields(&reply, *out);
                self.hand = reply;
                0
            }
            Err(refusal) => u32::from(refusal.number()),
        }
    }
}
