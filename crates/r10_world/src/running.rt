//! Runs of a world.

ghost use Rattle.std.specs.Prelude.{◌≡◌, ◌<◌, ◌≤◌, ◌+◌, [], ◌∷◌, Ok, Err, IfOk, OnErr, length, take, drop, vec_len};
ghost use Rattle.r10_world.specs.Answering.{AnswersEach};
ghost use Rattle.r10_world.specs.Copies.{IsCopy};
ghost use Rattle.r10_world.specs.PowerLoss.{RunsSafely};
ghost use Rattle.r10_world.specs.WorldSteps.{WorldRuns};

use crate::world::World;
use r10_body::Message;
use r10_machine::{Event, Reply, runs_join};
use r10_medium::BlockMedium;
use std::alloc::{AllocError, Global};

/// A copy of the message that is offered, if the event is an offer.
fn message_of(alloc: Global, event: &Event) -> Result<Option<Message>, AllocError>
    ensures { IfOk result (λ copy. IsCopy event.now copy) }
{
    match event {
        Event::Offer { message, .. } => Ok(Some(message.duplicate(alloc)?)),
        _ => Ok(None),
    }
}

/// Does events in order, until one can't be given or taken for want of memory, and adds their replies. It answers how many events
/// it did; it fails only where it did none though there are some. Of every machine for which the world stands, the events that were
/// done and their replies are a run to one for which it stands then. Whatever files the medium has, also where no machine stands
/// for them: a refusal names the first check that doesn't hold, or what is lacking, and changes nothing but the count of a loss,
/// unless the medium failed; and any other reply comes where all checks hold, and says what the event did.
pub fn run<M: BlockMedium>(
    world: &mut World<M>,
    events: &[Event],
    replies: &mut Vec<Reply>,
) -> Result<usize, AllocError>
    ensures run { IfOk result
        (λ n. WorldRuns M.disk world.old (take n events.now) (drop (vec_len replies.old) replies.new.items) world.new) }
    ensures answers { IfOk result
        (λ n. AnswersEach M.disk world.old (take n events.now) (drop (vec_len replies.old) replies.new.items) world.new) }
    ensures power_loss { IfOk result
        (λ n. RunsSafely M.disk world.old (take n events.now) (drop (vec_len replies.old) replies.new.items) world.new) }
    ensures config { world.new.recorder.kept.config ≡ world.old.recorder.kept.config }
    ensures within { IfOk result (λ n. n ≤ length events.now) }
    ensures some { IfOk result (λ n. 0 < length events.now → 0 < n) }
    ensures count { IfOk result (λ n. vec_len replies.new ≡ vec_len replies.old + n) }
    ensures earlier { take (vec_len replies.old) replies.new.items ≡ replies.old.items }
    ensures err { OnErr result (0 < length events.now) }
    ensures world_kept { OnErr result (world.new ≡ world.old) }
    ensures replies_kept { OnErr result (replies.new.items ≡ replies.old.items) }
{
    // For the proof: one run after another is a run.
    runs_join();
    let alloc = world.alloc();
    for (i, event) in events.iter().enumerate() {
        let copy = message_of(alloc, event);
        let place = replies.reserve(1);
        let (Ok(mut copy), Ok(())) = (copy, place) else {
            return if i == 0 { Err(AllocError) } else { Ok(i) };
        };
        let reply = world.step(event, &mut copy);
        replies.push_reserved(reply);
    }
    Ok(events.len())
}

/// Does one event that is given away, as `run` does it, and gives its reply. An offer takes its message, so nothing is copied.
pub fn run_one<M: BlockMedium>(world: &mut World<M>, event: Event) -> Reply
    ensures run { WorldRuns M.disk world.old (event ∷ []) (result ∷ []) world.new }
    ensures answers { AnswersEach M.disk world.old (event ∷ []) (result ∷ []) world.new }
    ensures power_loss { RunsSafely M.disk world.old (event ∷ []) (result ∷ []) world.new }
    ensures config { world.new.recorder.kept.config ≡ world.old.recorder.kept.config }
{
    // For the proof: one run after another is a run.
    runs_join();
    world.give(event)
}
