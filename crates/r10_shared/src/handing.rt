//! Players that hand on what they take.

ghost use Rattle.std.specs.Prelude.{◌≡◌, []};
ghost use Rattle.r10_shared.specs.SinkLaws.{hands_at, hands_both, hands_stay};
ghost use Rattle.r10_shared.specs.Sinks.{HandsOnInstalments, HandsTo};

use crate::reader::SessionReader;
use crate::reading::{Transcribing, pass_over};
use crate::sink::Sink;
use r10_body::Refusal;
use r10_held::{Cabinet, Player, Rings};
use r10_medium::BlockMedium;
use std::alloc::Global;
use std::sync::Wait;

/// A player that hands on each instalment to its sink as it comes. Without a sink it writes them down.
pub struct Handing<K: Sink> {
    pub(crate) reading: Transcribing,
    pub(crate) sink: Option<K>,
}

/// Letting it go is one call, so that a body that holds one has one exit for it.
impl<K: Sink + Drop> Drop for Handing<K> {
    fn drop(self) {
        let Handing {
            reading: _,
            sink: _,
        } = self;
    }
}

impl<K: Sink> Handing<K> {
    /// A player that has taken nothing, with its sink.
    pub fn new(alloc: Global, player: Player, sink: Option<K>) -> Handing<K>
        ensures player { result.reading.player ≡ player }
        ensures kept { result.reading.instalments.items ≡ [] }
        ensures sink { result.sink ≡ sink }
    {
        Handing {
            reading: Transcribing {
                player,
                instalments: Vec::new(alloc),
            },
            sink,
        }
    }

    /// The player, with the instalment that its sink refused or, without a sink, all that it took; and the sink.
    pub fn into_parts(self) -> (Transcribing, Option<K>)
        ensures reading { result.0 ≡ self.reading }
        ensures sink { result.1 ≡ self.sink }
    {
        let Handing { reading, sink } = self;
        (reading, sink)
    }
}

/// Takes the next instalment, and hands it on. One that is refused is kept, and the player then reads no more.
fn hand_next<M: BlockMedium, N: Rings, R: Wait, K: Sink>(
    rt: &R,
    alloc: Global,
    cabinet: &Cabinet<M, N>,
    reading: &mut Transcribing,
    sink: &mut K,
) -> Result<(), Refusal>
    requires { reading.old.player.pass.cell ≡ cabinet.now.gauge }
    ensures { HandsTo K.accepted K.has_refused reading.old sink.old reading.new sink.new }
{
    if !reading.instalments.is_empty() {
        return Err(Refusal::OutOfMemory);
    }
    let answer = reading.write_next(rt, alloc, cabinet);
    let Some(instalment) = reading.instalments.pop() else {
        return answer;
    };
    match sink.accept(instalment) {
        Ok(()) => answer,
        Err(refused) => {
            reading.instalments.push_reserved(refused);
            Err(Refusal::OutOfMemory)
        }
    }
}

/// Takes the next instalment, and hands it on if there is a sink.
fn take_next<M: BlockMedium, N: Rings, R: Wait, K: Sink>(
    rt: &R,
    alloc: Global,
    cabinet: &Cabinet<M, N>,
    reading: &mut Transcribing,
    sink: &mut Option<K>,
) -> Result<(), Refusal>
    requires { reading.old.player.pass.cell ≡ cabinet.now.gauge }
    ensures { HandsOnInstalments K.accepted K.has_refused reading.old sink.old reading.new sink.new }
{
    match sink {
        Some(sink) => hand_next(rt, alloc, cabinet, reading, sink),
        None => reading.write_next(rt, alloc, cabinet),
    }
}

impl<K: Sink> SessionReader for Handing<K> {
    ghost gauge = { λ handing. handing.reading.player.pass.cell };

    ghost reads_on = { λ old new. HandsOnInstalments K.accepted K.has_refused old.reading old.sink new.reading new.sink };

    ghost queue = { λ handing. handing.reading.player.cursor.reading.queue };

    fn pass_over(&mut self, alloc: Global) {
        pass_over(alloc, &mut self.reading.player);
    }

    fn read_next<M: BlockMedium, N: Rings, R: Wait>(
        &mut self,
        rt: &R,
        alloc: Global,
        cabinet: &Cabinet<M, N>,
    ) -> Result<(), Refusal> {
        take_next(rt, alloc, cabinet, &mut self.reading, &mut self.sink)
    }

    ghost stays_at = { λ r s reads. hands_at K.accepted K.has_refused r.reading r.sink s.reading s.sink reads };

    ghost reads_none = { λ r. hands_stay K.accepted K.has_refused r.reading r.sink };

    ghost reads_join = { λ r s t first then. hands_both K.accepted K.has_refused r.reading r.sink s.reading s.sink
        t.reading t.sink first then };
}
