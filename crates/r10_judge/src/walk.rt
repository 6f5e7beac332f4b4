//! A file's packets, taken one after the other.

ghost use Rattle.std.specs.Prelude.{◌≡◌, ◌+◌, ◌<◌, ◌≤◌, ◌^◌, ◌++◌, ℕ, List, [], length, take, drop, IfOk, IfSome};
ghost use Rattle.r10_judge.specs.Judged.{TellsAnswer};
ghost use Rattle.r10_judge.specs.Walks.{TracksWalked, EndsWithFault};

use crate::Judge;
use r10_body::FileFault;
use r10_packet_rules::ForeignTrack;
use std::alloc::{AllocError, Global};

/// How far a file is walked.
#[derive(Drop)]
pub struct Walk {
    /// Its packets so far, whoever wrote them.
    pub track: ForeignTrack,
    /// Whether they keep the rules of this recorder's files.
    pub judge: Judge,
}

/// What is taken of some bytes.
#[derive(Clone, Copy)]
pub(crate) struct Taken {
    /// How many bytes the packets have.
    pub length: usize,
    /// The fault of what stands after them, where something does.
    pub fault: Option<FileFault>,
    /// Whether that answers the report that stands last, where one does.
    pub answered: bool,
}

impl Walk {
    /// The start of a file whose directory entry is closed or not.
    pub(crate) fn new(alloc: Global, closed: bool) -> Walk
        ensures stands { TracksWalked result [] }
        ensures closed { result.judge.closed ≡ closed }
    {
        Walk {
            track: ForeignTrack::new(),
            judge: Judge::new(alloc, closed),
        }
    }

    /// Takes the packets that stand in bytes, up to the first that is at fault.
    pub(crate) fn take(&mut self, bytes: &[u8]) -> Result<Taken, AllocError>
        requires { (before : List ℕ) × TracksWalked self.old before × (length before + length bytes.now < 2 ^ 63) }
        ensures stands { IfOk result (λ taken. (before : List ℕ) → TracksWalked self.old before
            → TracksWalked self.new (before ++ take taken.length bytes.now)) }
        ensures inside { IfOk result (λ taken. taken.length ≤ length bytes.now) }
        ensures ends { IfOk result (λ taken. EndsWithFault taken.fault (drop taken.length bytes.now)) }
        ensures answered { IfOk result
            (λ taken. IfSome taken.fault (λ _. TellsAnswer taken.answered self.new.judge.tracks (drop taken.length bytes.now))) }
        ensures closed { self.new.judge.closed ≡ self.old.judge.closed }
    {
        let mut done = 0;
        while done < bytes.len() {
            let rest = &bytes[done..];
            let packet = match self.judge.take_first(rest)? {
                Ok(packet) => packet,
                Err(fault) => {
                    let fault = Some(fault);
                    let answered = self.judge.is_answered(rest);
                    return Ok(Taken {
                        length: done,
                        fault,
                        answered,
                    });
                }
            };
            self.track.add(&packet);
            done += packet.length;
        }
        Ok(Taken {
            length: done,
            fault: None,
            answered: true,
        })
    }
}
