//! What is published of a recorder.

ghost use Rattle.std.specs.Prelude.{◌≡◌, [], ◌∷◌, ◌++◌, MatchResult};
ghost use Rattle.r10_held.specs.Publishing.{next_triple};

use crate::rings::Rings;
use crate::sight::Publisher;
use r10_body::Refusal;
use r10_control::Recorder;
use r10_lane::LaneOut;
use r10_medium::BlockMedium;
use std::sync::Wait;

/// Publishes the number of a recorder's last file and its shown bytes, or two zeros where there is no file.
fn publish<M: BlockMedium, L: LaneOut, N: Rings, R: Wait>(
    rt: &R,
    recorder: &Recorder<M, L>,
    gauge: &mut Publisher<N>,
)
    ensures same { gauge.new.cell ≡ gauge.old.cell }
    ensures grows { gauge.new.published ≡ gauge.old.published ++ next_triple gauge.old.published recorder.now.kept.work ∷ [] }
{
    match recorder.last_shown() {
        Some((file, bytes)) => gauge.publish(rt, file as u64, bytes),
        None => gauge.publish(rt, 0, 0),
    }
}

/// Does so where a call on the recorder answered Ok.
pub(crate) fn publish_if_done<T, M: BlockMedium, L: LaneOut, N: Rings, R: Wait>(
    rt: &R,
    answer: &Result<T, Refusal>,
    recorder: &Recorder<M, L>,
    gauge: &mut Publisher<N>,
)
    ensures same { gauge.new.cell ≡ gauge.old.cell }
    ensures grows { MatchResult answer.now
        (λ _. gauge.new.published ≡ gauge.old.published ++ next_triple gauge.old.published recorder.now.kept.work ∷ [])
        (λ _. gauge.new.published ≡ gauge.old.published) }
{
    if answer.is_ok() {
        publish(rt, recorder, gauge);
    }
}
