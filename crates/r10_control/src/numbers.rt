//! What a recorder tells without memory: its last file, and how many entries of a channel it took in.

ghost use Rattle.std.specs.Prelude.{◌≡◌, ◌-◌, ◌^◌, ◌==◌, length, min, None};
ghost use Rattle.std.specs.List.{last_or, position};
ghost use Rattle.r10_body.specs.declared.spec.ChannelSpec.{ChannelSpec as ChannelSpecValue};
ghost use Rattle.r10_control.specs.Checks.{files_of};
ghost use Rattle.r10_control.specs.RecorderStatus.{last_shown, number_on, shown_as_last};
ghost use Rattle.r10_control.specs.Work.{work_of};
ghost use Rattle.r10_dirchain.specs.Chain.{listed_files};

use crate::recorder::Recorder;
use crate::work::Doing;
use r10_body::ChannelSpec;
use r10_dirchain::Directory;
use r10_lane::LaneOut;
use r10_medium::BlockMedium;
use r10_volume::{count, last_file};

impl<M: BlockMedium, L: LaneOut> Recorder<M, L> {
    /// The number of the last file of the directory in use, as files are numbered from 0, and how many of its bytes the medium
    /// shows: of the file that is recorded, as many as the last start or commit showed. None where there is no file, and where none
    /// is mounted. It takes no memory.
    pub fn last_shown(&self) -> Option<(usize, u64)>
        ensures { result ≡ last_shown self.now.kept.work }
    {
        // For the proof: the blocks are within limits.
        let _blocks = self.keeping.settings.blocks();
        last_in(&self.keeping.work)
    }

    /// How many entries of a channel were taken in, of all files since the recorder was made, up to `u64::MAX`. None where the
    /// settings have no such channel. It takes no memory.
    pub fn taken(&self, channel: u16) -> Option<u64>
        ensures { result ≡ number_on channel self.now.kept.config.channels self.now.kept.taken }
    {
        number_of(
            self.keeping.settings.channels(),
            self.keeping.taken.as_slice(),
            channel,
        )
    }

    /// How many of these erases took, up to `u64::MAX`. None where the settings have no such channel. It takes no memory.
    pub fn erased(&self, channel: u16) -> Option<u64>
        ensures { result ≡ number_on channel self.now.kept.config.channels self.now.kept.erased }
    {
        number_of(
            self.keeping.settings.channels(),
            self.keeping.erased.as_slice(),
            channel,
        )
    }
}

/// The last file of the directory in use.
fn last_in(work: &Doing) -> Option<(usize, u64)>
    ensures { result
        ≡ shown_as_last (min (length (files_of (work_of work.now))) (2 ^ 64 - 1)) (last_or None (files_of (work_of work.now))) }
{
    match work {
        Doing::Unmounted => None,
        Doing::Idle(directory) => last_of(directory),
        Doing::Recording(directory, _) => last_of(directory),
        Doing::Failed => None,
    }
}

/// The last file of a directory.
fn last_of(directory: &Directory) -> Option<(usize, u64)>
    ensures { result
        ≡ shown_as_last (min (length (listed_files directory.now)) (2 ^ 64 - 1)) (last_or None (listed_files directory.now)) }
{
    match last_file(directory) {
        Some(entry) => Some((count(directory).saturating_sub(1), entry.size)),
        None => None,
    }
}

/// The place of a channel among all.
fn place_of(channels: &[ChannelSpec], channel: u16) -> Option<usize>
    ensures { result ≡ position (λ (spec : ChannelSpecValue). spec.id == channel) channels.now }
{
    channels.iter().position(|spec| spec.id == channel)
}

/// The number of a channel among those of all channels, which stand in the channels' order.
fn number_of(channels: &[ChannelSpec], numbers: &[u64], channel: u16) -> Option<u64>
    ensures { result ≡ number_on channel channels.now numbers.now }
{
    match place_of(channels, channel) {
        Some(at) => numbers.get(at).copied(),
        None => None,
    }
}
