//! The calls that take from lanes, on the recorder under the lock: a pump and a stop.

ghost use Rattle.r10_held.specs.Outlets.{PumpsOutlets, StopsOutlets};
ghost use Rattle.r10_held.specs.Publishing.{Publishes, StaysPublished};

use crate::held::Held;
use crate::publishing::publish_if_done;
use crate::rings::Rings;
use r10_body::Refusal;
use r10_machine::Stopped;
use r10_medium::BlockMedium;
use std::sync::Wait;

impl<M: BlockMedium, N: Rings> Held<M, N> {
    /// Takes in the samples that wait first in a channel's lane, at most so many, and answers how many that were. It ends before a
    /// sample that has no room. Refused: Failed, NotMounted, NotRecording, NoSuchChannel, MediumFull where not even the sample
    /// that waits first has room, OutOfMemory, Medium.
    pub fn pump(&mut self, channel: u16, most: usize) -> Result<usize, Refusal>
        ensures does { PumpsOutlets M.disk channel most self.old.recorder self.new.recorder result }
        ensures gauge { StaysPublished self.old self.new }
    {
        self.recorder.pump(channel, most)
    }

    /// Takes in what waits in all lanes, channel by channel by rising ID and as much as has room, and closes the file at the
    /// last tick's civil time. Answers how many samples that were and how many are left. Refused: Failed, NotMounted,
    /// NotRecording, OutOfMemory, Medium.
    pub fn stop_file<R: Wait>(&mut self, rt: &R) -> Result<Stopped, Refusal>
        ensures does { StopsOutlets M.disk self.old.recorder self.new.recorder result }
        ensures publishes { Publishes result self.old self.new }
    {
        let stopped = self.recorder.stop_file();
        publish_if_done(rt, &stopped, &self.recorder, &mut self.gauge);
        stopped
    }
}
