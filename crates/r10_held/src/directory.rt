//! The calls on the directory, on the recorder under the lock: a mount, a dismount, a seal and an erase.

ghost use Rattle.std.specs.Prelude.{IsErrOf};
ghost use Rattle.r10_body.specs.declared.refusal.Refusal.TheVariants as refusals;
ghost use Rattle.r10_control.specs.Calls.{DoesCall, dismount_call, erase_call, mount_call, seal_call};
ghost use Rattle.r10_held.specs.Publishing.{Publishes, StaysPublished};

use crate::held::Held;
use crate::publishing::publish_if_done;
use crate::rings::Rings;
use r10_body::Refusal;
use r10_medium::BlockMedium;
use std::sync::Wait;

impl<M: BlockMedium, N: Rings> Held<M, N> {
    /// Reads the directory, which must be one that a recorder can take into use, and notes in it that it is in use. Refused:
    /// Failed, AlreadyMounted, BadDirectory with the first block at fault, OutOfMemory, Medium.
    pub fn mount(&mut self) -> Result<(), Refusal>
        ensures does { DoesCall M.disk mount_call self.old.recorder self.new.recorder result }
        ensures gauge { StaysPublished self.old self.new }
    {
        self.recorder.mount()
    }

    /// Notes in the directory that the medium is properly dismounted, and uses it no more. Refused: Failed, NotMounted, Busy,
    /// Medium.
    pub fn dismount(&mut self) -> Result<(), Refusal>
        ensures does { DoesCall M.disk dismount_call self.old.recorder self.new.recorder result }
        // It asks for none.
        ensures memory { IsErrOf result refusals.OutOfMemory → ⊥ }
        ensures gauge { StaysPublished self.old self.new }
    {
        self.recorder.dismount()
    }

    /// Closes the last file, which was left open: it is read and judged whole, its index is put after its packets, and the
    /// directory lists it closed at its last time. Refused: Failed, NotMounted, Busy, NoSuchFile where there is no such file,
    /// BadFile with the first fault of its bytes, MediumFull, OutOfMemory, Medium.
    pub fn seal(&mut self) -> Result<(), Refusal>
        ensures does { DoesCall M.disk seal_call self.old.recorder self.new.recorder result }
        ensures gauge { StaysPublished self.old self.new }
    {
        self.recorder.seal()
    }

    /// Takes all files from the directory; what was taken in is erased. Refused: Failed, NotMounted, Busy, Stale where no
    /// generation is left, OutOfMemory, Medium.
    pub fn erase<R: Wait>(&mut self, rt: &R) -> Result<(), Refusal>
        ensures does { DoesCall M.disk erase_call self.old.recorder self.new.recorder result }
        ensures publishes { Publishes result self.old self.new }
    {
        let emptied = self.recorder.erase();
        publish_if_done(rt, &emptied, &self.recorder, &mut self.gauge);
        emptied
    }
}
