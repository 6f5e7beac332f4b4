//! The verdict on a file, window by window.

ghost use Rattle.std.specs.Prelude.{◌≡◌, ◌≤◌, ◌⊎◌, ◌++◌, ℕ, List, [], length, drop, IfOk, IfSome, IfNone, Some, None};
ghost use Rattle.r10_body.specs.declared.fault.FileFault.TheVariants.{Truncated};
ghost use Rattle.r10_checker.specs.declared.check.Verdict.TheVariants as verdicts;

use crate::walk::{start, take_packets};
use r10_body::FileFault;
use r10_checker::{Verdict, end_verdict};
use r10_judge::Walk;
use r10_packet_rules::FirstFault;
use std::alloc::{AllocError, Global};

/// The verdict on a file that is given in windows of any size.
#[derive(Drop)]
pub struct WindowCheck {
    /// The packets that were taken.
    walk: Walk,
    /// Where the file is at fault, whatever comes after, if it is.
    broken: Option<FirstFault>,
    /// The bytes after those packets: the beginning of the next one.
    pending: Vec<u8>,
    /// Memory for the next ones.
    spare: Vec<u8>,
}

/// Bytes that are kept, and memory for others.
#[derive(Drop)]
struct KeptBytes {
    pending: Vec<u8>,
    spare: Vec<u8>,
}

impl WindowCheck {
    ghost use Rattle.r10_checker.specs.Verdict.{IsVerdict};
    ghost use Rattle.r10_windowcheck.specs.Given.{WasGivenAll};

    /// Of no bytes.
    pub fn new(alloc: Global) -> WindowCheck
        ensures { WasGivenAll result [] }
    {
        WindowCheck {
            walk: start(alloc),
            broken: None,
            pending: Vec::new(alloc),
            spare: Vec::new(alloc),
        }
    }

    /// Takes the next bytes of the file, any number of them. Where memory is refused there is no check any more; a file of 2^63
    /// bytes or more is answered as want of memory.
    pub fn feed(self, window: &[u8]) -> Result<WindowCheck, AllocError>
        ensures { IfOk result (λ check. (before : List ℕ) → WasGivenAll self before → WasGivenAll check (before ++ window.now)) }
    {
        let WindowCheck {
            mut walk,
            broken,
            mut pending,
            spare,
        } = self;
        if broken.is_some() {
            return Ok(WindowCheck {
                walk,
                broken,
                pending,
                spare,
            });
        }
        pending.extend_from_slice(window)?;
        let taken = take_packets(&mut walk, &pending)?;
        if let Some(at) = lasting(walk.track.offset, taken.fault) {
            pending.clear();
            return Ok(WindowCheck {
                walk,
                broken: Some(at),
                pending,
                spare,
            });
        }
        let left = remainder(pending, spare, taken.length)?;
        Ok(WindowCheck {
            walk,
            broken: None,
            pending: left.pending,
            spare: left.spare,
        })
    }

    /// The verdict on the bytes so far, as a whole file.
    pub fn verdict(&self) -> Verdict
        ensures { (file : List ℕ) → WasGivenAll self.now file → IsVerdict file result }
    {
        if let Some(at) = self.broken {
            return faulty(at.offset, at.fault);
        }
        if !self.pending.is_empty() {
            return faulty(self.walk.track.offset, FileFault::Truncated);
        }
        end_verdict(&self.walk.track, &self.walk.judge)
    }
}

fn faulty(offset: u64, fault: FileFault) -> Verdict
    ensures { result ≡ verdicts.Faulty offset fault }
{
    Verdict::Faulty { offset, fault }
}

/// Where a file is at fault, whatever comes after: a packet that lacks bytes may get them.
fn lasting(offset: u64, fault: Option<FileFault>) -> Option<FirstFault>
    ensures some { IfSome result (λ at. (at.offset ≡ offset) × (fault ≡ Some at.fault) × ¬ (at.fault ≡ Truncated)) }
    ensures none { IfNone result ((fault ≡ None) ⊎ (fault ≡ Some Truncated)) }
{
    match fault {
        None | Some(FileFault::Truncated) => None,
        Some(fault) => Some(FirstFault { offset, fault }),
    }
}

/// Bytes without so many of the first, and memory for others.
fn remainder(bytes: Vec<u8>, spare: Vec<u8>, done: usize) -> Result<KeptBytes, AllocError>
    requires { done ≤ length bytes.items }
    ensures { IfOk result (λ left. left.pending.items ≡ drop done bytes.items) }
{
    if done == 0 {
        return Ok(KeptBytes {
            pending: bytes,
            spare,
        });
    }
    let mut kept = spare;
    kept.clear();
    kept.extend_from_slice(&bytes[done..])?;
    Ok(KeptBytes {
        pending: kept,
        spare: bytes,
    })
}
