//! How far a file is taken.

ghost use Rattle.std.specs.Prelude.{◌≡◌, ◌+◌, ◌<◌, ◌≤◌, ◌^◌, ◌++◌, ℕ, List, [], length, drop, Bool, true, false, IfOk, OnOk};

use crate::channels::ChannelCounts;
use crate::damage::Damage;
use crate::look::{First, SeenPacket, look};
use std::alloc::{AllocError, Global};

/// How far a file is taken.
#[derive(Drop)]
pub(crate) struct Track {
    /// How many bytes are taken.
    pub(crate) offset: u64,
    /// What the packets come to.
    pub(crate) counts: ChannelCounts,
    /// The stretches between them.
    pub(crate) damage: Damage,
}

impl Track {
    ghost use Rattle.r10_survey.specs.Looks.{IsSeenFirst, Sees};
    ghost use Rattle.r10_survey.specs.Surveys.{IsTaken};
    ghost use Rattle.r10_body.specs.Faults.{HasFault};
    ghost use Rattle.r10_body.specs.declared.fault.FileFault.{FileFault};
    ghost use Rattle.r10_body.specs.declared.fault.FileFault.TheVariants.{Truncated};

    /// The start of a file.
    pub(crate) fn new(alloc: Global) -> Track
        ensures taken { IsTaken result [] [] false }
        ensures at { result.offset ≡ 0 }
    {
        Track {
            offset: 0,
            counts: ChannelCounts::new(alloc),
            damage: Damage::new(alloc),
        }
    }

    /// Takes the packet that stands first in the bytes that are not taken yet.
    fn take_packet(&mut self, seen: &SeenPacket) -> Result<(), AllocError>
        requires { self.old.offset + seen.now.length < 2 ^ 64 }
        ensures taken { OnOk result ((bytes rest : List ℕ) (last : Bool) → IsTaken self.old bytes rest last
            → IsSeenFirst rest seen.now → IsTaken self.new bytes (drop seen.now.length rest) last) }
        ensures offset { OnOk result (self.new.offset ≡ self.old.offset + seen.now.length) }
    {
        self.counts.ready()?;
        self.damage.add_packet(self.offset)?;
        self.counts.add(seen);
        self.offset += seen.length as u64;
        Ok(())
    }

    /// Takes the byte that stands first, where no packet does.
    fn take_stray(&mut self)
        requires { self.old.offset + 1 < 2 ^ 64 }
        ensures taken { (bytes rest : List ℕ) (last : Bool) (fault : FileFault) → IsTaken self.old bytes rest last → 0 < length rest
            → HasFault rest fault → (fault ≡ Truncated → last ≡ true) → IsTaken self.new bytes (drop 1 rest) last }
        ensures offset { self.new.offset ≡ self.old.offset + 1 }
    {
        self.damage.add_stray();
        self.offset += 1;
    }

    /// Takes what stands first in bytes, and says how many of them it took: none where more are wanted to tell what stands there.
    fn take_first(&mut self, bytes: &[u8], last: bool) -> Result<usize, AllocError>
        requires some { 0 < length bytes.now }
        requires short { self.old.offset + length bytes.now < 2 ^ 64 }
        ensures inside { IfOk result (λ done. done ≤ length bytes.now) }
        ensures some { IfOk result (λ done. last ≡ true → 0 < done) }
        ensures offset { IfOk result (λ done. self.new.offset ≡ self.old.offset + done) }
        ensures taken { IfOk result (λ done. (whole : List ℕ) → IsTaken self.old whole bytes.now last
            → IsTaken self.new whole (drop done bytes.now) last) }
    {
        match look(bytes, last) {
            First::Packet(seen) => {
                self.take_packet(&seen)?;
                Ok(seen.length)
            }
            First::Stray(_) => {
                self.take_stray();
                Ok(1)
            }
            First::More => Ok(0),
        }
    }

    /// Takes what stands in bytes, up to where more are wanted to tell what stands there, and says how many bytes it took: all,
    /// where they are the last ones.
    pub(crate) fn walk(&mut self, bytes: &[u8], last: bool) -> Result<usize, AllocError>
        requires { self.old.offset + length bytes.now < 2 ^ 64 }
        ensures inside { IfOk result (λ done. done ≤ length bytes.now) }
        ensures whole { IfOk result (λ done. last ≡ true → done ≡ length bytes.now) }
        ensures offset { IfOk result (λ done. self.new.offset ≡ self.old.offset + done) }
        ensures taken { IfOk result (λ done. (before rest window : List ℕ) → IsTaken self.old before rest false
            → bytes.now ≡ rest ++ window → IsTaken self.new (before ++ window) (drop done bytes.now) last) }
    {
        let mut done = 0;
        while done < bytes.len() {
            let taken = self.take_first(&bytes[done..], last)?;
            if taken == 0 {
                return Ok(done);
            }
            done += taken;
        }
        Ok(done)
    }
}
