//! The calls that only tell, on the recorder under the lock.

ghost use Rattle.std.specs.Prelude.{IfOk, IsTrue, map, ◌↔◌, ◌≡◌};
ghost use Rattle.r10_control.specs.Calls.{OnlyTells};
ghost use Rattle.r10_control.specs.Checks.{listing_checks};
ghost use Rattle.r10_control.specs.Checks.{files_of};
ghost use Rattle.r10_control.specs.RecorderStatus.{info_in, last_shown, number_on};
ghost use Rattle.r10_machine.specs.declared.event.Event.TheVariants as events;
ghost use Rattle.r10_machine.specs.declared.reply.Reply.TheVariants as replies;
ghost use Rattle.r10_held.specs.Outlets.{TellsOutlets};
ghost use Rattle.r10_held.specs.Publishing.{StaysPublished};
ghost use Rattle.r10_held.specs.Recorder.{failed};
ghost use Rattle.r10_held.specs.State.{is_failed as told_failed};

use crate::held::Held;
use crate::rings::Rings;
use r10_body::{ChannelSpec, Refusal};
use r10_control::RecorderStatus;
use r10_machine::FileInfo;
use r10_medium::BlockMedium;

impl<M: BlockMedium, N: Rings> Held<M, N> {
    /// The channels of the settings, in their order.
    pub fn channels(&self) -> &[ChannelSpec]
        ensures { result.now ≡ self.now.recorder.kept.config.channels }
    {
        self.recorder.channels()
    }

    /// The files in order, each with its name, its bytes, its blocks and whether it is closed; the one that is recorded is the
    /// last, as the medium shows it. Refused: Failed, NotMounted, OutOfMemory.
    pub fn files(&self) -> Result<Vec<FileInfo>, Refusal>
        ensures does { OnlyTells M.disk events.Files listing_checks (λ infos. replies.Files infos.items) self.now.recorder result }
        ensures reported { IfOk result (λ infos. infos.items ≡ map info_in (files_of self.now.recorder.kept.work)) }
    {
        self.recorder.files()
    }

    /// How the recorder is, in any mode: the last tick, how many files there are, the bytes that the file that is recorded has
    /// left, or that the next one may have, and of each channel how many messages its lane holds, and erases took. Of a lane
    /// that is quiet all that waits is held. Refused: OutOfMemory.
    pub fn status(&mut self) -> Result<RecorderStatus, Refusal>
        ensures does { TellsOutlets M.disk self.old.recorder self.new.recorder result }
        ensures gauge { StaysPublished self.old self.new }
    {
        self.recorder.status()
    }

    /// The number of the last file of the directory in use, as files are numbered from 0, and how many of its bytes the medium
    /// shows: of the file that is recorded, as many as the last start or commit showed. None where there is no file, and where
    /// none is mounted. It takes no memory.
    pub fn last_shown(&self) -> Option<(usize, u64)>
        ensures { result ≡ last_shown self.now.recorder.kept.work }
    {
        self.recorder.last_shown()
    }

    /// How many entries of a channel were taken in, of all files since the recorder was made, up to `u64::MAX`. None where the
    /// settings have no such channel. It takes no memory.
    pub fn taken(&self, channel: u16) -> Option<u64>
        ensures { result ≡ number_on channel self.now.recorder.kept.config.channels self.now.recorder.kept.taken }
    {
        self.recorder.taken(channel)
    }

    /// How many of these erases took, up to `u64::MAX`. None where the settings have no such channel. It takes no memory.
    pub fn erased(&self, channel: u16) -> Option<u64>
        ensures { result ≡ number_on channel self.now.recorder.kept.config.channels self.now.recorder.kept.erased }
    {
        self.recorder.erased(channel)
    }

    /// Whether the recorder failed. It takes no memory.
    pub fn has_failed(&self) -> bool
        ensures { IsTrue result ↔ (self.now.recorder.kept.work ≡ failed) }
    {
        match self.recorder.generation() {
            Ok(_) => false,
            Err(refusal) => is_failed(refusal),
        }
    }
}

/// Whether a refusal is that the recorder failed.
fn is_failed(refusal: Refusal) -> bool
    ensures { result ≡ told_failed refusal }
{
    matches!(refusal, Refusal::Failed)
}
