//! Calls that are steps of the machine, as calls that do nothing.

ghost use Rattle.std.specs.Prelude.{◌≡◌, ◌≤◌, ◌+◌, ◌++◌, ◌∷◌, ℕ, List, [], None, Some, length, map, true};
ghost use Rattle.std.specs.Option.{option_or};
ghost use Rattle.r10_count.specs.declared.civil.Parts.{Parts};
ghost use Rattle.r10_medium.specs.Disk.{Image, Rose};
ghost use Rattle.r10_body.specs.declared.refusal.Refusal.{Refusal as RefusalValue};
ghost use Rattle.r10_body.specs.declared.refusal.Refusal.TheVariants as refusals;
ghost use Rattle.r10_body.specs.declared.entry.Entry.{Entry};
ghost use Rattle.r10_dirchain.specs.Chain.{listed_files};
ghost use Rattle.r10_dirchain.specs.declared.chain.ChainBlock.{ChainBlock};
ghost use Rattle.r10_volume.specs.Holding.{HoldsFiles, OpenState, OthersAreFound};
ghost use Rattle.r10_machine.specs.Limits.{IsConfig};
ghost use Rattle.r10_machine.specs.Config.{Config};
ghost use Rattle.r10_machine.specs.Machine.{File, Lane, Machine, Tick as MachineTick, change_first, is_channel, with_entries};
ghost use Rattle.r10_machine.specs.Calls.{Pumps, Stops, empty_file, lanes_without, shown_whole, time_entry, without};
ghost use Rattle.r10_machine.specs.Room.{area, cost_of, fits};
ghost use Rattle.r10_machine.specs.declared.mode.Mode.TheVariants as modes;
ghost use Rattle.r10_machine.specs.declared.mode.Stopped.{Stopped as StoppedValue};
ghost use Rattle.r10_machine.specs.ControlCalls.{closed_in, erased_with, event_entry};
ghost use Rattle.r10_machine.specs.EventChecks.{refusal};
ghost use Rattle.r10_machine.specs.Says.{MediumSays};
ghost use Rattle.r10_machine.specs.Step.{FailsIn, LanesAfter, after_refusal, asks_memory, entry_has_room, uses_medium};
ghost use Rattle.r10_machine.specs.declared.event.Event.{Event as EventValue};
ghost use Rattle.r10_machine.specs.declared.event.Event.TheVariants as events;
ghost use Rattle.r10_machine.specs.declared.reply.Reply.TheVariants as replies;
ghost use Rattle.r10_refinement.specs.Grown.{AreGrown};
ghost use Rattle.r10_refinement.specs.KeptState.{Kept, unmounted, idle, recording, failed};
ghost use Rattle.r10_refinement.specs.Means.{LanesAreCounted, KeptStepsTo, KeptStandsFor};

use r10_machine::a_step_stays_sound;

/// A call that a check refuses leaves what is kept and the medium's files; an offer to a full lane is reported
/// elsewhere.
pub fn refusals_are_steps()
    ensures { (k : Kept) (old new : Image) (n later : ℕ) (m : Machine) (event : EventValue) (r : RefusalValue)
        → IsConfig k.config → KeptStandsFor k old n m → new ≡ old → n ≤ later
        → refusal k.config m event ≡ Some r → ((same : Machine) → after_refusal event same ≡ same)
        → KeptStepsTo k m event (replies.Refused r) k new later (record m { failures = later }) }
{
    a_step_stays_sound();
}

/// Where memory is refused to a call that has room, all stays.
pub fn lacks_of_memory_are_steps()
    ensures { (k : Kept) (old new : Image) (n later : ℕ) (m : Machine) (event : EventValue)
        → IsConfig k.config → KeptStandsFor k old n m → new ≡ old → n ≤ later
        → refusal k.config m event ≡ None → asks_memory event ≡ true → entry_has_room k.config m event ≡ true
        → KeptStepsTo k m event (replies.Refused refusals.OutOfMemory) k new later (record m { failures = later }) }
{
    a_step_stays_sound();
}

/// A mount leads to a recorder that has the directory in use.
pub fn mounts_are_steps()
    ensures { (k : Kept) (old new : Image) (n later : ℕ) (m : Machine) (chain : List ChainBlock) → IsConfig k.config
        → KeptStandsFor k old n m → k.work ≡ unmounted → HoldsFiles k.config new chain None m.files → n ≤ later → KeptStepsTo k m
        events.Mount replies.Done (record k { work = idle chain; found = option_or k.found (Some (length (listed_files chain))) })
        new later (record m { mode = modes.Idle; failures = later }) }
{
    a_step_stays_sound();
}

/// A dismount leads to one that has none.
pub fn dismounts_are_steps()
    ensures { (k : Kept) (old new : Image) (n later : ℕ) (m : Machine) (chain : List ChainBlock) → IsConfig k.config
        → KeptStandsFor k old n m → k.work ≡ idle chain → MediumSays k.config new m.files → OthersAreFound new m.files → n ≤ later
        → KeptStepsTo k m events.Dismount replies.Done (record k { work = unmounted }) new later
        (record m { mode = modes.Unmounted; failures = later }) }
{
    a_step_stays_sound();
}

/// Where the medium fails in a call, the recorder failed: of the files the medium says those from before or
/// those that the call makes, and so does the machine that the failure leaves.
pub fn failures_are_steps()
    ensures step { (k : Kept) (old new : Image) (n later : ℕ) (m failed_so : Machine) (event : EventValue) → IsConfig k.config
        → KeptStandsFor k old n m → n ≤ later → Rose n later → refusal k.config m event ≡ None → uses_medium event ≡ true
        → entry_has_room k.config m event ≡ true → FailsIn k.config (record m { failures = later }) event failed_so
        → failed_so.tick ≡ k.tick → failed_so.failures ≡ later → MediumSays k.config new failed_so.files
        → KeptStepsTo k m event (replies.Refused refusals.Medium) (record k { work = failed }) new later failed_so }
    ensures before { (s : Config) (m : Machine) (event : EventValue) (lanes : List Lane) → LanesAfter event m.lanes m.lanes lanes
        → FailsIn s m event (record m { mode = modes.Failed; lanes = lanes }) }
{
    a_step_stays_sound();
}

/// An erase leads to a recorder without files, of the next generation; what was taken in is erased.
pub fn erases_are_steps()
    ensures { (k : Kept) (old new : Image) (n later : ℕ) (m : Machine) (chain made : List ChainBlock)
        → IsConfig k.config → KeptStandsFor k old n m → k.work ≡ idle chain → refusal k.config m events.Erase ≡ None
        → HoldsFiles k.config new made None [] → n ≤ later → KeptStepsTo k m events.Erase replies.Done
        (record k { work = idle made; generation = k.generation + 1; erased = k.taken; found = Some 0 }) new later
        (record m { files = []; generation = m.generation + 1; lanes = map (erased_with m.files) m.lanes; failures = later }) }
{
    a_step_stays_sound();
}

/// A tick sets the clock; while no file is recorded, it does nothing else.
pub fn idle_ticks_are_steps()
    ensures { (k : Kept) (old new : Image) (n later : ℕ) (m : Machine) (chain : List ChainBlock) (count : ℕ) (parts : Parts)
        → IsConfig k.config → KeptStandsFor k old n m → k.work ≡ idle chain
        → refusal k.config m (events.Tick count parts) ≡ None → new ≡ old → n ≤ later → KeptStepsTo k m
        (events.Tick count parts) replies.Done (record k { tick = Some (record { count = count; civil = parts }) }) new later
        (record m { tick = Some (record { count = count; civil = parts }); failures = later }) }
{
    a_step_stays_sound();
}

/// A commit leads to a recorder whose open file shows all that it has.
pub fn commits_are_steps()
    ensures { (k : Kept) (old new : Image) (n later : ℕ) (m : Machine) (chain made : List ChainBlock) (file shown : OpenState)
        (files : List File) (f : File) (size : ℕ) → IsConfig k.config → KeptStandsFor k old n m → k.work ≡ recording chain file
        → m.files ≡ files ++ f ∷ [] → HoldsFiles k.config new made (Some shown) (files ++ shown_whole size f ∷ []) → n ≤ later
        → KeptStepsTo k m events.Commit replies.Done (record k { work = recording made shown }) new later
        (record m { files = files ++ shown_whole size f ∷ []; failures = later }) }
{
    a_step_stays_sound();
}

/// A tick while a file is recorded: the file takes in the time.
pub fn ticks_are_steps()
    ensures { (k : Kept) (old new : Image) (n later : ℕ) (m : Machine) (chain : List ChainBlock)
        (file after : OpenState) (files : List File) (f : File) (count : ℕ) (parts : Parts) (grown : List ℕ)
        → IsConfig k.config → KeptStandsFor k old n m → k.work ≡ recording chain file
        → m.files ≡ files ++ f ∷ [] → f.own ≡ true → refusal k.config m (events.Tick count parts) ≡ None
        → fits k.config f (time_entry k.config (record { count = count; civil = parts })) ≡ true
        → AreGrown (time_entry k.config (record { count = count; civil = parts }) ∷ []) k.config.channels k.taken grown
        → HoldsFiles k.config new chain (Some after)
        (files ++ with_entries (time_entry k.config (record { count = count; civil = parts }) ∷ []) f ∷ [])
        → n ≤ later → KeptStepsTo k m (events.Tick count parts) replies.Done
        (record k { work = recording chain after; tick = Some (record { count = count; civil = parts }); taken = grown }) new later
        (record m {
          tick = Some (record { count = count; civil = parts });
          files = files ++ with_entries (time_entry k.config (record { count = count; civil = parts }) ∷ []) f ∷ [];
          failures = later;
        }) }
{
    a_step_stays_sound();
}

/// The file takes in an event.
pub fn events_are_steps()
    ensures { (k : Kept) (old new : Image) (n later : ℕ) (m : Machine) (chain : List ChainBlock)
        (file after : OpenState) (files : List File) (f : File) (number count : ℕ) (grown : List ℕ) → IsConfig k.config
        → KeptStandsFor k old n m → k.work ≡ recording chain file → m.files ≡ files ++ f ∷ [] → f.own ≡ true
        → refusal k.config m (events.Event number count) ≡ None → fits k.config f (event_entry k.config number count f) ≡ true
        → AreGrown (event_entry k.config number count f ∷ []) k.config.channels k.taken grown
        → HoldsFiles k.config new chain (Some after) (files ++ with_entries (event_entry k.config number count f ∷ []) f ∷ [])
        → n ≤ later → KeptStepsTo k m (events.Event number count) replies.Done
        (record k { work = recording chain after; last_event = Some count; taken = grown }) new later (record m {
          last_event = Some count;
          files = files ++ with_entries (event_entry k.config number count f ∷ []) f ∷ [];
          failures = later;
        }) }
{
    a_step_stays_sound();
}

/// A start leads to a recorder that records a file, which shows the last tick's time.
pub fn starts_are_steps()
    ensures { (k : Kept) (old new : Image) (n later : ℕ) (m : Machine) (chain made : List ChainBlock) (file : OpenState)
        (clock : MachineTick) (name setup : List ℕ) (size : ℕ) (grown : List ℕ) → IsConfig k.config → KeptStandsFor k old n m
        → k.work ≡ idle chain → k.tick ≡ Some clock → refusal k.config m (events.Start name setup) ≡ None
        → fits k.config (empty_file k.config m.files name setup) (time_entry k.config clock) ≡ true
        → AreGrown (time_entry k.config clock ∷ []) k.config.channels k.taken grown → HoldsFiles k.config new made (Some file)
        (m.files ++ shown_whole size (with_entries (time_entry k.config clock ∷ []) (empty_file k.config m.files name setup)) ∷ [])
        → n ≤ later → KeptStepsTo k m (events.Start name setup) replies.Done
        (record k { work = recording made file; taken = grown }) new later (record m {
          mode = modes.Recording;
          files = m.files ++ shown_whole size
              (with_entries (time_entry k.config clock ∷ []) (empty_file k.config m.files name setup)) ∷ [];
          failures = later;
        }) }
{
    a_step_stays_sound();
}

/// Times and events are on channels of their own: with one of them no channel's number grows.
pub fn own_entries_count_for_none()
    ensures times { (s : Config) (e : Entry) (files : List File) (taken erased : List ℕ) (lanes : List Lane) → IsConfig s
        → e.channel ≡ s.time → LanesAreCounted files s.channels taken erased lanes → AreGrown (e ∷ []) s.channels taken taken }
    ensures events { (s : Config) (e : Entry) (files : List File) (taken erased : List ℕ) (lanes : List Lane) → IsConfig s
        → e.channel ≡ s.event → LanesAreCounted files s.channels taken erased lanes → AreGrown (e ∷ []) s.channels taken taken }
{}

/// What a pump takes from a lane joins the file, and is counted.
pub fn pumps_are_led()
    ensures { (k : Kept) (old new : Image) (n later : ℕ) (m : Machine) (chain : List ChainBlock) (file after : OpenState)
        (files : List File) (f : File) (channel most moved : ℕ) (more : List Entry) (grown : List ℕ)
        → IsConfig k.config → KeptStandsFor k old n m → k.work ≡ recording chain file
        → m.files ≡ files ++ f ∷ [] → f.own ≡ true → refusal k.config m (events.Pump channel most) ≡ None
        → Pumps k.config (record m { failures = later }) channel most moved (record m {
          lanes = change_first (is_channel channel) (without moved) m.lanes;
          files = files ++ with_entries more f ∷ [];
          failures = later;
        }) → AreGrown more k.config.channels k.taken grown
        → HoldsFiles k.config new chain (Some after) (files ++ with_entries more f ∷ [])
        → n ≤ later → KeptStepsTo k m (events.Pump channel most) (replies.Moved moved)
        (record k { work = recording chain after; taken = grown }) new later (record m {
          lanes = change_first (is_channel channel) (without moved) m.lanes;
          files = files ++ with_entries more f ∷ [];
          failures = later;
        }) }
{
    a_step_stays_sound();
}

/// What a stop takes from all lanes joins the file, which is closed.
pub fn stops_are_led()
    ensures { (k : Kept) (old new : Image) (n later : ℕ) (m : Machine) (chain made : List ChainBlock) (file : OpenState)
        (files : List File) (f closed : File) (said : StoppedValue) (entries : List Entry) (grown : List ℕ)
        → IsConfig k.config → KeptStandsFor k old n m → k.work ≡ recording chain file → m.files ≡ files ++ f ∷ []
        → f.own ≡ true → closed.own ≡ true → closed.entries ≡ f.entries ++ entries → refusal k.config m events.Stop ≡ None
        → Stops k.config (record m { failures = later }) said
        (record m { mode = modes.Idle; lanes = lanes_without entries m.lanes; files = files ++ closed ∷ []; failures = later })
        → AreGrown entries k.config.channels k.taken grown → HoldsFiles k.config new made None (files ++ closed ∷ []) → n ≤ later
        → KeptStepsTo k m events.Stop (replies.Stopped said) (record k { work = idle made; taken = grown }) new later
        (record m { mode = modes.Idle; lanes = lanes_without entries m.lanes; files = files ++ closed ∷ []; failures = later }) }
{
    a_step_stays_sound();
}

/// A seal closes the last file with the entries that it shows.
pub fn seals_are_steps()
    ensures { (k : Kept) (old new : Image) (n later : ℕ) (m : Machine) (chain made : List ChainBlock) (files : List File)
        (f : File) (size : ℕ) → IsConfig k.config → KeptStandsFor k old n m → k.work ≡ idle chain → m.files ≡ files ++ f ∷ []
        → refusal k.config m events.Seal ≡ None → cost_of f ≤ area k.config f
        → HoldsFiles k.config new made None (files ++ closed_in size f ∷ []) → n ≤ later → KeptStepsTo k m events.Seal replies.Done
        (record k { work = idle made }) new later (record m { files = files ++ closed_in size f ∷ []; failures = later }) }
{
    a_step_stays_sound();
}
