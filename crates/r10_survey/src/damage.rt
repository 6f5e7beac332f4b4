//! The stretches of bytes that no packet has.

ghost use Rattle.std.specs.Prelude.{◌≡◌, ◌+◌, ◌-◌, ◌<◌, ◌≤◌, ◌^◌, ◌∷◌, [], ◌++◌, ℕ, List, length, take, OnOk};
ghost use Rattle.r10_survey.specs.Parts.{Part};
ghost use Rattle.r10_survey.specs.Damage.{ended, most_stretches, packet_part, stray_part};
ghost use Rattle.r10_survey.specs.declared.damage.Stretch.{Stretch as StretchValue};

use std::alloc::{AllocError, Global};

/// The most stretches that are kept, with their places. All are counted.
pub const MOST_STRETCHES: usize = 4096;

/// Bytes that no packet has, between two packets or at an end of the file.
#[derive(Clone, Copy, Debug, PartialEq, Eq)]
pub struct Stretch {
    /// Where they begin, in bytes from the start of the file.
    pub offset: u64,
    /// How many they are.
    pub length: u64,
}

/// The stretches so far.
#[derive(Drop)]
pub(crate) struct Damage {
    /// The first ones that ended.
    pub(crate) kept: Vec<Stretch>,
    /// How many ended.
    pub(crate) number: u64,
    /// How many bytes stand last that no packet has.
    pub(crate) lost: u64,
}

impl Damage {
    ghost use Rattle.r10_survey.specs.Damage.{IsDamage, KeepsStretches};

    /// Of no bytes.
    pub(crate) fn new(alloc: Global) -> Damage
        ensures { IsDamage result 0 [] }
    {
        Damage {
            kept: Vec::new(alloc),
            number: 0,
            lost: 0,
        }
    }

    /// Takes a byte that no packet has.
    pub(crate) fn add_stray(&mut self)
        ensures { (at : ℕ) (parts : List Part) (byte : ℕ) → at < 2 ^ 64 - 1 → IsDamage self.old at parts
            → IsDamage self.new (at + 1) (parts ++ stray_part byte ∷ []) }
    {
        self.lost = self.lost.saturating_add(1);
    }

    /// Takes a packet, which stands at a place.
    pub(crate) fn add_packet(&mut self, at: u64) -> Result<(), AllocError>
        ensures { (parts : List Part) (p : List ℕ) → IsDamage self.old at parts
            → OnOk result (IsDamage self.new (at + length p) (parts ++ packet_part p ∷ [])) }
    {
        self.end(at)
    }

    /// Ends the stretch that stands last, if there is one, before a place.
    pub(crate) fn end(&mut self, at: u64) -> Result<(), AllocError>
        ensures kept { OnOk result ((all : List StretchValue) → KeepsStretches self.old all
            → KeepsStretches self.new (all ++ ended at self.old.lost)) }
        ensures lost { OnOk result (self.new.lost ≡ 0) }
    {
        if self.lost == 0 {
            return Ok(());
        }
        let stretch = Stretch {
            offset: at.saturating_sub(self.lost),
            length: self.lost,
        };
        keep(&mut self.kept, stretch)?;
        self.number = self.number.saturating_add(1);
        self.lost = 0;
        Ok(())
    }
}

/// Adds a stretch to those that are kept, unless they are the most.
fn keep(kept: &mut Vec<Stretch>, stretch: Stretch) -> Result<(), AllocError>
    ensures { OnOk result ((all : List StretchValue) → kept.old.items ≡ take most_stretches all
        → kept.new.items ≡ take most_stretches (all ++ stretch ∷ [])) }
{
    if kept.len() < MOST_STRETCHES {
        kept.push(stretch)?;
    }
    Ok(())
}
