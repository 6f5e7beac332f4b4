//! Laws of what a power loss leaves, as calls that do nothing.

ghost use Rattle.std.specs.Prelude.{◌≡◌, List, false, map};
ghost use Rattle.r10_machine.specs.Config.{Config};
ghost use Rattle.r10_machine.specs.Machine.{File, Machine};
ghost use Rattle.r10_machine.specs.Needs.{shown_part};
ghost use Rattle.r10_refinement.specs.KeptState.{Kept};
ghost use Rattle.r10_refinement.specs.Means.{KeptStandsFor};
ghost use Rattle.r10_medium.specs.Disk.{Image, IsSynced};
ghost use Rattle.r10_machine.specs.Says.{MediumSays};
ghost use Rattle.r10_machine.specs.Sound.{IsSound};
ghost use Rattle.r10_machine.specs.Step.{Step};
ghost use Rattle.r10_machine.specs.declared.event.Event.{Event as EventValue};
ghost use Rattle.r10_machine.specs.declared.reply.Reply.{Reply as ReplyValue};
ghost use Rattle.r10_refinement.specs.Again.{FindsAgain};
ghost use Rattle.r10_refinement.specs.Quiet.{IsNoFailure, may_make};
ghost use Rattle.r10_refinement.specs.Safe.{IsSafeOrFailed};

use r10_medium::BlockMedium;

/// What a medium says is found again by a new recorder, whoever recorded it.
pub fn an_image_is_found_again()
    ensures { (s : Config) (image : Image) (files : List File) → MediumSays s image files → FindsAgain s image files }
{}

/// What a medium says of files is what it says of others that show the same.
pub fn shown_parts_are_said()
    ensures { (s : Config) (image : Image) (files : List File) (others : List File) → map shown_part files ≡ map shown_part others
        → MediumSays s image files → MediumSays s image others }
{}

/// Only a start, a commit, a stop, a seal, an erase and a failure of the medium change what a machine's files show.
pub fn other_events_show_no_more()
    ensures { (s : Config) (m : Machine) (event : EventValue) (reply : ReplyValue) (later : Machine)
        → IsSound s m → Step s m event reply later → may_make event ≡ false → IsNoFailure reply
        → map shown_part later.files ≡ map shown_part m.files }
{}

/// A synced medium is safe for each machine that a recorder over it represents, whatever was before: a power loss leaves what is
/// read.
pub fn synced_media_are_safe<M: BlockMedium>(medium: &M)
    ensures { (k : Kept) (m : Machine) → KeptStandsFor k (M.disk medium.now).blocks (M.disk medium.now).failures m
        → IsSynced (M.disk medium.now) → IsSafeOrFailed k.config k.work m.files (M.disk medium.now) }
{}
