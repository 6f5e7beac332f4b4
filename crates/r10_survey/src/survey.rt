//! The survey of a file, window by window.

ghost use Rattle.std.specs.Prelude.{◌≡◌, ◌++◌, ℕ, List, [], length, IfOk, nat_eq, IsTrue, ◌+◌, ◌-◌, ◌<◌, ◌^◌};
ghost use Rattle.std.specs.HashMap.{get};

use crate::channel::ChannelCount;
use crate::channels::ChannelCounts;
use crate::damage::{Damage, Stretch};
use crate::track::Track;
use std::alloc::{AllocError, Global};
use thiserror::Error;

/// Why a survey does not go on.
#[derive(Clone, Copy, Debug, Error)]
pub enum SurveyFault {
    #[error("out of memory")]
    OutOfMemory,
    #[error("more than 2^64 - 2 bytes")]
    TooLong,
}

/// The survey of a file that is given window by window.
#[derive(Drop)]
pub struct Survey {
    track: Track,
    /// The bytes that are not taken yet.
    pending: Vec<u8>,
    /// Memory for the next ones.
    spare: Vec<u8>,
}

/// What a file comes to.
#[derive(Drop)]
pub struct Report {
    bytes: u64,
    counts: ChannelCounts,
    damage: Damage,
}

impl Survey {
    ghost use Rattle.r10_survey.specs.Surveys.{HasTaken, IsReport};

    /// Of no bytes.
    pub fn new(alloc: Global) -> Survey
        ensures { HasTaken result [] }
    {
        Survey {
            track: Track::new(alloc),
            pending: Vec::new(alloc),
            spare: Vec::new(alloc),
        }
    }

    /// Takes the next bytes of the file, any number of them. Where it fails, there is no survey any more.
    pub fn feed(self, window: &[u8]) -> Result<Survey, SurveyFault>
        ensures { IfOk result (λ survey. (before : List ℕ) → HasTaken self before → HasTaken survey (before ++ window.now)) }
    {
        let Survey {
            mut track,
            mut pending,
            mut spare,
        } = self;
        if pending.extend_from_slice(window).is_err() {
            return Err(SurveyFault::OutOfMemory);
        }
        if !has_room(track.offset, pending.len()) {
            return Err(SurveyFault::TooLong);
        }
        let Ok(done) = track.walk(&pending, false) else {
            return Err(SurveyFault::OutOfMemory);
        };
        spare.clear();
        if spare.extend_from_slice(&pending[done..]).is_err() {
            return Err(SurveyFault::OutOfMemory);
        }
        Ok(Survey {
            track,
            pending: spare,
            spare: pending,
        })
    }

    /// The report on the file, which ends here.
    pub fn finish(self) -> Result<Report, SurveyFault>
        ensures { IfOk result (λ report. (file : List ℕ) → HasTaken self file → IsReport file report) }
    {
        let Survey {
            mut track,
            pending,
            spare: _,
        } = self;
        if !has_room(track.offset, pending.len()) {
            return Err(SurveyFault::TooLong);
        }
        let Ok(_done) = track.walk(&pending, true) else {
            return Err(SurveyFault::OutOfMemory);
        };
        let Track {
            offset,
            counts,
            mut damage,
        } = track;
        let Ok(()) = damage.end(offset) else {
            return Err(SurveyFault::OutOfMemory);
        };
        Ok(Report {
            bytes: offset,
            counts,
            damage,
        })
    }
}

/// Whether so many bytes more are fewer than 2^64 - 1.
fn has_room(offset: u64, more: usize) -> bool
    ensures { IsTrue result → offset + more < 2 ^ 64 - 1 }
{
    (more as u64) < u64::MAX - offset
}

impl Report {
    /// How many bytes the file has.
    pub fn bytes(&self) -> u64
        ensures { result ≡ self.now.bytes }
    {
        self.bytes
    }

    /// What the packets of a channel come to; `None` where it has none.
    pub fn channel(&self, channel: u16) -> Option<ChannelCount>
        ensures { result ≡ get nat_eq self.now.counts.known channel }
    {
        self.counts.find(channel)
    }

    /// The first stretches of bytes that no packet has: 4,096 at most.
    pub fn stretches(&self) -> &[Stretch]
        ensures { result.now ≡ self.now.damage.kept.items }
    {
        &self.damage.kept
    }

    /// How many stretches there are.
    pub fn stretch_number(&self) -> u64
        ensures { result ≡ self.now.damage.number }
    {
        self.damage.number
    }
}
