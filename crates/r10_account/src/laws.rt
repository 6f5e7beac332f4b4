//! The laws of accepted messages over runs, as calls that do nothing.

ghost use Rattle.std.specs.Prelude.{◌≡◌, ◌≤◌, ◌+◌, ◌-◌, ◌^◌, ℕ, true, false, List, IsSome, count_by, length, zip};
ghost use Rattle.std.specs.List.{AllByRecursion, list_any};
ghost use Rattle.r10_account.specs.Accepted.{accepted_entries, lost_since};
ghost use Rattle.r10_account.specs.Account.{GoesOver, IsAccount, missed_of};
ghost use Rattle.r10_account.specs.FilesOfOthers.{AreStillFirst, may_erase};
ghost use Rattle.r10_account.specs.Sums.{TellLosses, all_lost, all_told, was_offered, was_refused};
ghost use Rattle.r10_body.specs.Channels.{spec_of};
ghost use Rattle.r10_machine.specs.Checks.{is_working};
ghost use Rattle.r10_machine.specs.Config.{Config};
ghost use Rattle.r10_machine.specs.EventChecks.{most_files};
ghost use Rattle.r10_machine.specs.Limits.{IsConfig};
ghost use Rattle.r10_machine.specs.Machine.{File, Machine, fresh};
ghost use Rattle.r10_machine.specs.Sound.{IsFoundFile, IsSound};
ghost use Rattle.r10_machine.specs.Step.{Run};
ghost use Rattle.r10_machine.specs.declared.event.Event.{Event as EventValue};
ghost use Rattle.r10_machine.specs.declared.reply.Reply.{Reply as ReplyValue};
ghost use Rattle.r10_medium.specs.Disk.{Image};

use r10_machine::{a_new_recorder_is_sound, a_step_stays_sound};

/// Over a run in which the medium doesn't fail, what a channel had and what was accepted since was erased, is in own files' lists,
/// or waits: each once, in its order.
pub fn a_run_goes_over()
    ensures { (s : Config) (channel : ℕ) (old : Machine) (events : List EventValue) (replies : List ReplyValue)
        (images : List Image) (new : Machine) → IsConfig s → IsSound s old → IsSome (spec_of s.channels channel)
        → is_working old.mode ≡ true → is_working new.mode ≡ true → Run s old events replies images new
        → GoesOver channel old new (accepted_entries channel (missed_of channel old.lanes) events replies) }
{
    a_step_stays_sound();
}

/// Over any run of a new recorder, what the replies accepted on a channel was erased, is in the files that it began, or waits: each
/// once, in its order, with the number of those that were lost before it. Where the medium failed, what it shows stands first and
/// what waits stands last.
pub fn a_recording_accounts()
    ensures { (s : Config) (channel : ℕ) (files : List File) (failures : ℕ) (events : List EventValue) (replies : List ReplyValue)
        (images : List Image) (new : Machine) → IsConfig s → AllByRecursion IsFoundFile files → length files ≤ most_files s
        → IsSome (spec_of s.channels channel) → Run s (fresh s.channels files failures) events replies images new
        → IsAccount channel new (accepted_entries channel 0 events replies) }
{
    a_step_stays_sound();
    a_new_recorder_is_sound();
}

/// While nothing is erased, the files that a new recorder found stay the first, and show what they showed.
pub fn found_files_stay()
    ensures { (s : Config) (files : List File) (failures : ℕ) (events : List EventValue) (replies : List ReplyValue)
        (images : List Image) (new : Machine) → IsConfig s → AllByRecursion IsFoundFile files → length files ≤ most_files s
        → Run s (fresh s.channels files failures) events replies images new → list_any may_erase (zip events replies) ≡ false
        → AreStillFirst files new.files }
{
    a_step_stays_sound();
    a_new_recorder_is_sound();
}

/// Over any run each offer on a channel was accepted, or it was refused.
pub fn offers_add_up()
    ensures { (s : Config) (channel : ℕ) (old : Machine) (events : List EventValue)
        (replies : List ReplyValue) (images : List Image) (new : Machine) → Run s old events replies images new
        → count_by (was_offered channel) (zip events replies)
        ≡ length (accepted_entries channel 0 events replies) + count_by (was_refused channel) (zip events replies) }
{}

/// Of all that a channel lost, by overflows and outside, its accepted messages tell what was lost before the last of them, and the
/// rest was lost since. So the numbers of the loss reports add up, as long as the sum has 64 bits.
pub fn losses_add_up()
    ensures { (channel : ℕ) (events : List EventValue) (replies : List ReplyValue)
        → all_lost channel (zip events replies) ≤ 2 ^ 64 - 1
        → all_told (accepted_entries channel 0 events replies) + lost_since channel 0 (zip events replies)
        ≡ all_lost channel (zip events replies) }
{}

/// Where the medium did not fail, the gaps of what was erased, of what own files have and of what waits add up to all that the
/// channel lost before its last accepted message. So where nothing was erased and nothing waits, the loss reports of the recorder's
/// own files do.
pub fn files_tell_losses()
    ensures { (s : Config) (channel : ℕ) (files : List File) (failures : ℕ) (events : List EventValue) (replies : List ReplyValue)
        (images : List Image) (new : Machine)
        → IsConfig s → AllByRecursion IsFoundFile files → length files ≤ most_files s → IsSome (spec_of s.channels channel)
        → Run s (fresh s.channels files failures) events replies images new
        → is_working new.mode ≡ true → all_lost channel (zip events replies) ≤ 2 ^ 64 - 1
        → TellLosses channel new (zip events replies) }
{
    a_recording_accounts();
}
