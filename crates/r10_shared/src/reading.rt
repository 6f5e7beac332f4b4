//! Players, and what they write down.

ghost use Rattle.std.specs.Prelude.{◌≡◌, ◌≤◌, ◌+◌, [], List, length};
ghost use Rattle.r10_held.specs.declared.transcript.Instalment.{Instalment as InstalmentValue};
ghost use Rattle.r10_shared.specs.ReadingLaws.{reads_both, reads_stay};
ghost use Rattle.r10_shared.specs.Readings.{HasReadOn, ReadsOn};

use crate::reader::SessionReader;
use r10_body::Refusal;
use r10_count::Items;
use r10_held::{Cabinet, Instalment, Player, Rings};
use r10_medium::BlockMedium;
use std::alloc::Global;
use std::sync::Wait;

/// Drops what a player was still to give.
pub(crate) fn pass_over(alloc: Global, player: &mut Player)
    ensures taken { (all : List InstalmentValue) → HasReadOn player.old all player.new all }
    ensures none { player.new.cursor.reading.queue ≡ [] }
{
    let _passed_over = player.rest(alloc);
}

/// A player, and what it wrote down.
pub struct Transcribing {
    pub(crate) player: Player,
    pub(crate) instalments: Vec<Instalment>,
}

/// Letting it go is one call, so that a body that holds one has one exit for it.
impl Drop for Transcribing {
    fn drop(self) {
        let Transcribing {
            player: _,
            instalments: _,
        } = self;
    }
}

impl Transcribing {
    /// Takes the next instalment, and writes it down unless nothing came to it.
    pub(crate) fn write_next<M: BlockMedium, N: Rings, R: Wait>(
        &mut self,
        rt: &R,
        alloc: Global,
        cabinet: &Cabinet<M, N>,
    ) -> Result<(), Refusal>
        requires { self.old.player.pass.cell ≡ cabinet.now.gauge }
        ensures reads { ReadsOn self.old self.new }
        ensures one { length self.new.instalments.items ≤ length self.old.instalments.items + 1 }
    {
        if self.instalments.reserve(1).is_err() {
            return Err(Refusal::OutOfMemory);
        }
        let from = self.player.covered();
        match self.player.advance(rt, cabinet) {
            Ok(_) => {
                let to = self.player.covered();
                let entries = Items::of(self.player.rest(alloc));
                if to != from {
                    self.instalments
                        .push_reserved(Instalment { from, to, entries });
                }
                Ok(())
            }
            Err(refusal) => Err(refusal),
        }
    }

    /// The player, which goes on in a further session of the same cabinet, and the instalments that it wrote down.
    pub fn into_parts(self) -> (Player, Vec<Instalment>)
        ensures player { result.0 ≡ self.player }
        ensures instalments { result.1.items ≡ self.instalments.items }
    {
        let Transcribing {
            player,
            instalments,
        } = self;
        (player, instalments)
    }
}

impl SessionReader for Transcribing {
    ghost gauge = { λ reading. reading.player.pass.cell };

    ghost reads_on = { ReadsOn };

    ghost queue = { λ reading. reading.player.cursor.reading.queue };

    fn pass_over(&mut self, alloc: Global) {
        pass_over(alloc, &mut self.player);
    }

    fn read_next<M: BlockMedium, N: Rings, R: Wait>(
        &mut self,
        rt: &R,
        alloc: Global,
        cabinet: &Cabinet<M, N>,
    ) -> Result<(), Refusal> {
        self.write_next(rt, alloc, cabinet)
    }

    ghost stays_at = { λ r s reads. reads.gauge };

    ghost reads_none = { reads_stay };

    ghost reads_join = { reads_both };
}
