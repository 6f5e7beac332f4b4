//! States of discretes as entries of a body.

ghost use Rattle.std.specs.Prelude.{◌↔◌, IsTrue};
ghost use Rattle.r10_discrete.specs.Discrete.{FitsDiscrete};

use crate::message::DiscreteMessage;
use crate::states::has_only;
use r10_count::{BodyEntry, Count, append_all, split_u32};
use std::alloc::{AllocError, Global};

/// The states of a channel's discretes with their time.
#[derive(Clone, Copy)]
pub struct DiscreteEntry {
    /// The count at which they came, in units of 100 ns.
    pub count: Count,
    pub message: DiscreteMessage,
}

impl DiscreteEntry {
    /// Whether no state has a bit beyond so many discretes.
    pub fn check(&self, bits: u8) -> bool
        ensures { IsTrue result ↔ FitsDiscrete bits self.now }
    {
        let _ = self.count.get();
        let states = self.message.states;
        bits >= 32 || states >> bits == 0
    }
}

impl BodyEntry for DiscreteEntry {
    ghost use Rattle.r10_discrete.specs.Entry.{discrete_form};

    ghost form = { discrete_form };

    fn front() -> usize {
        12
    }

    fn entry_length(front: &[u8]) -> Option<usize> {
        let _ = front;
        Some(12)
    }

    fn word(setting: u32, count: usize) -> u32 {
        let _ = count;
        8 * (setting % 32)
    }

    fn agrees(word: u32, count: usize) -> bool {
        let _ = (word, count);
        true
    }

    fn count(&self) -> u64 {
        self.count.get()
    }

    fn opens(&self, counter: u64) -> bool {
        let _ = counter;
        true
    }

    fn suits(&self, setting: u32) -> bool {
        has_only(setting as usize, self.message.states)
    }

    fn size(&self, before: u64) -> usize {
        let _ = before;
        12
    }

    fn encode_into(&self, before: u64, out: &mut Vec<u8>) -> Result<(), AllocError> {
        let _ = before;
        let stamp = self.count.stamp();
        let states = self.message.states.to_le_bytes();
        append_all(out, &[&stamp, &states])
    }

    fn read(alloc: Global, before: u64, bytes: &[u8]) -> Result<Option<DiscreteEntry>, AllocError> {
        let _ = (alloc, before);
        let Some((count, rest)) = Count::of_stamp(bytes) else {
            return Ok(None);
        };
        let Some((states, rest)) = split_u32(rest) else {
            return Ok(None);
        };
        if !rest.is_empty() {
            return Ok(None);
        }
        let message = DiscreteMessage { states };
        Ok(Some(DiscreteEntry { count, message }))
    }
}
