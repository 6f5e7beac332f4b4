//! The calls that only tell.

ghost use Rattle.std.specs.Prelude.{◌≡◌, map, IfOk};
ghost use Rattle.r10_control.specs.Calls.{OnlyTells};
ghost use Rattle.r10_control.specs.Checks.{listing_checks};
ghost use Rattle.r10_control.specs.Checks.{files_of};
ghost use Rattle.r10_control.specs.Work.{work_of};
ghost use Rattle.r10_machine.specs.declared.event.Event.TheVariants as events;
ghost use Rattle.r10_machine.specs.declared.reply.Reply.TheVariants as replies;
ghost use Rattle.r10_volume.specs.Listing.{info_in};

use crate::recorder::Recorder;
use crate::work::{Doing, mode_in};
use r10_body::{ChannelSpec, Refusal};
use r10_lane::LaneOut;
use r10_machine::{FileInfo, a_step_stays_sound, check_mounted};
use r10_medium::BlockMedium;
use r10_refinement::reports_are_steps;
use r10_volume::list;
use std::alloc::{AllocError, Global};

impl<M: BlockMedium, L: LaneOut> Recorder<M, L> {
    /// The channels of the settings, in their order.
    pub fn channels(&self) -> &[ChannelSpec]
        ensures { result.now ≡ self.now.kept.config.channels }
    {
        self.keeping.settings.channels()
    }

    /// The files in order, each with its name, its bytes, its blocks and whether it is closed; the one that is recorded is the
    /// last, as the medium shows it. Refused: Failed, NotMounted, OutOfMemory.
    pub fn files(&self) -> Result<Vec<FileInfo>, Refusal>
        ensures does { OnlyTells M.disk events.Files listing_checks (λ infos. replies.Files infos.items) self.now result }
        ensures reported { IfOk result (λ infos. infos.items ≡ map info_in (files_of self.now.kept.work)) }
    {
        // For the proof: a step keeps a state sound; what is reported is the machine's; the channels are within limits.
        a_step_stays_sound();
        reports_are_steps();
        let _channels = self.keeping.settings.channels();
        if let Err(refusal) = check_mounted(mode_in(&self.keeping.work)) {
            return Err(refusal);
        }
        match list_in(self.alloc, &self.keeping.work) {
            Ok(infos) => Ok(infos),
            Err(_) => Err(Refusal::OutOfMemory),
        }
    }
}

/// The files of the directory in use; none where there is no directory.
fn list_in(alloc: Global, work: &Doing) -> Result<Vec<FileInfo>, AllocError>
    ensures { IfOk result (λ infos. infos.items ≡ map info_in (files_of (work_of work.now))) }
{
    match work {
        Doing::Unmounted => Ok(Vec::new(alloc)),
        Doing::Idle(directory) => list(alloc, directory),
        Doing::Recording(directory, _) => list(alloc, directory),
        Doing::Failed => Ok(Vec::new(alloc)),
    }
}
