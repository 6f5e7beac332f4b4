//! The calls on losses, and on messages that go on to another recorder.

ghost use Rattle.std.specs.Prelude.{◌≡◌, true, false};
ghost use Rattle.r10_body.specs.Statuses.{closed_status};
ghost use Rattle.r10_calls.specs.Losses.{untold};
ghost use Rattle.r10_ffi.specs.Calls.{GivesWaiting, IsClosed, IsOpen, TellsLosses};

use crate::recorder::Recorder;
use r10_body::status::CLOSED;
use r10_calls::{AccountOut, EntryOut, LossesOut, untold};
use std::alloc::Global;

/// How many messages of the channel at this place were lost, and where that is reported. 0, or 43, 44.
#[unsafe(no_mangle)]
pub extern "C" fn r10_losses(
    alloc: Global,
    recorder: &mut Recorder,
    place: usize,
    out: &mut LossesOut,
) -> u32
    ensures tells { IsOpen recorder.old → TellsLosses result place out.old out.new recorder.old recorder.new }
    ensures closed { IsClosed recorder.old → (result ≡ closed_status) × (recorder.new ≡ recorder.old) × (out.new ≡ out.old) }
{
    if !recorder.is_open() {
        return CLOSED;
    }
    let held = recorder.take(alloc);
    let answer = held.desk.losses(place, held.accepted.as_slice(), out);
    recorder.put(held);
    answer
}

/// Takes the first message that waits on a channel out of its lane into the hand, if there is one, and gives its fields. 0; 6, 44.
#[unsafe(no_mangle)]
pub extern "C" fn r10_take_waiting(
    alloc: Global,
    recorder: &mut Recorder,
    channel: u16,
    there: &mut bool,
    out: &mut EntryOut,
) -> u32
    ensures gives { IsOpen recorder.old
        → GivesWaiting result channel there.old there.new out.old out.new recorder.old recorder.new }
    ensures closed { IsClosed recorder.old
        → (result ≡ closed_status) × (recorder.new ≡ recorder.old) × (there.new ≡ there.old) × (out.new ≡ out.old) }
{
    if !recorder.is_open() {
        return CLOSED;
    }
    let mut held = recorder.take(alloc);
    let inside = &mut *held;
    let answer = inside
        .desk
        .take_waiting(channel, &mut inside.accepted, there, out);
    recorder.put(held);
    answer
}

/// How many messages of a channel stand in no file and in no gap of an entry, by its account and its losses, where so many of its
/// messages were found in the recorder's files, and so many losses in their gaps.
#[unsafe(no_mangle)]
pub extern "C" fn r10_untold(
    account: &AccountOut,
    losses: &LossesOut,
    found: u64,
    found_lost: u64,
) -> u64
    ensures { result ≡ untold account.now losses.now found found_lost }
{
    untold(account, losses, found, found_lost)
}
