//! Offers to lanes, losses, and calls that only tell, as calls that do nothing.

ghost use Rattle.std.specs.Prelude.{◌≡◌, ◌≤◌, ℕ, None, Some, map, slice_get};
ghost use Rattle.r10_count.specs.declared.civil.Parts.{Parts};
ghost use Rattle.r10_medium.specs.Disk.{Image};
ghost use Rattle.r10_body.specs.declared.message.Message.{Message};
ghost use Rattle.r10_body.specs.declared.refusal.Refusal.{Refusal as RefusalValue};
ghost use Rattle.r10_machine.specs.Limits.{IsConfig};
ghost use Rattle.r10_machine.specs.Calls.{accepted, losing};
ghost use Rattle.r10_machine.specs.Machine.{File, Machine, with_lane};
ghost use Rattle.r10_machine.specs.EventChecks.{refusal};
ghost use Rattle.r10_machine.specs.Finding.{count_at, found, info_of, status_of};
ghost use Rattle.r10_machine.specs.Step.{after_refusal};
ghost use Rattle.r10_machine.specs.declared.event.Event.TheVariants as events;
ghost use Rattle.r10_machine.specs.declared.reply.Reply.TheVariants as replies;
ghost use Rattle.r10_refinement.specs.KeptState.{Kept};
ghost use Rattle.r10_refinement.specs.Means.{KeptStepsTo, KeptStandsFor};

use r10_machine::a_step_stays_sound;

/// An offer is accepted or refused, in whatever mode; what is kept is the same.
pub fn offers_are_steps()
    ensures accepted { (k : Kept) (image : Image) (n : ℕ) (m : Machine) (channel count : ℕ) (message : Message) → IsConfig k.config
        → KeptStandsFor k image n m → refusal k.config m (events.Offer channel count message) ≡ None → KeptStepsTo k m
        (events.Offer channel count message) replies.Done k image n (with_lane channel (accepted count message) m) }
    ensures refused { (k : Kept) (image : Image) (n : ℕ) (m : Machine) (channel count : ℕ) (message : Message) (r : RefusalValue)
        → IsConfig k.config → KeptStandsFor k image n m → refusal k.config m (events.Offer channel count message) ≡ Some r
        → KeptStepsTo k m (events.Offer channel count message) (replies.Refused r) k image n
        (after_refusal (events.Offer channel count message) m) }
{
    a_step_stays_sound();
}

/// A loss that is reported is counted in its channel's lane, in whatever mode, or there is no such channel; what is kept is the
/// same.
pub fn losses_are_steps()
    ensures counted { (k : Kept) (image : Image) (n : ℕ) (m : Machine) (channel lost : ℕ) → IsConfig k.config
        → KeptStandsFor k image n m → refusal k.config m (events.Lose channel lost) ≡ None
        → KeptStepsTo k m (events.Lose channel lost) replies.Done k image n (with_lane channel (losing lost) m) }
    ensures refused { (k : Kept) (image : Image) (n : ℕ) (m : Machine) (channel lost : ℕ) (r : RefusalValue)
        → IsConfig k.config → KeptStandsFor k image n m → refusal k.config m (events.Lose channel lost) ≡ Some r
        → KeptStepsTo k m (events.Lose channel lost) (replies.Refused r) k image n m }
{
    a_step_stays_sound();
}

/// What is reported is the machine's, and all stays: its files, its status, what is found in a file, and the
/// count at a civil time.
pub fn reports_are_steps()
    ensures files { (k : Kept) (old new : Image) (n later : ℕ) (m : Machine) → IsConfig k.config
        → KeptStandsFor k old n m → new ≡ old → n ≤ later → refusal k.config m events.Files ≡ None
        → KeptStepsTo k m events.Files (replies.Files (map info_of m.files)) k new later (record m { failures = later }) }
    ensures status { (k : Kept) (old new : Image) (n later : ℕ) (m : Machine)
        → IsConfig k.config → KeptStandsFor k old n m → new ≡ old → n ≤ later
        → KeptStepsTo k m events.Status (replies.Status (status_of k.config m)) k new later (record m { failures = later }) }
    ensures found { (k : Kept) (old new : Image) (n later : ℕ) (m : Machine) (file channel count : ℕ) (f : File)
        → IsConfig k.config → KeptStandsFor k old n m → new ≡ old → n ≤ later
        → refusal k.config m (events.Find file channel count) ≡ None → slice_get m.files file ≡ Some f → KeptStepsTo k m
        (events.Find file channel count) (replies.Found (found f channel count)) k new later (record m { failures = later }) }
    ensures count { (k : Kept) (old new : Image) (n later : ℕ) (m : Machine) (file : ℕ) (parts : Parts) (f : File)
        → IsConfig k.config → KeptStandsFor k old n m → new ≡ old → n ≤ later
        → refusal k.config m (events.CountAt file parts) ≡ None → slice_get m.files file ≡ Some f → KeptStepsTo k m
        (events.CountAt file parts) (replies.CountAt (count_at f parts)) k new later (record m { failures = later }) }
{
    a_step_stays_sound();
}
