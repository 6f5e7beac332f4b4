//! An event is done over a medium that stays the one that it is.

ghost use Rattle.std.specs.Prelude.{◌≡◌, Some, true};
ghost use Rattle.r10_calls.specs.EventCalls.{StepsToReply, leaves_medium};

use r10_machine::{Event, Reply};
use r10_medium::BlockMedium;
use r10_region::{Bound, NamesMedium, SteadyMedium};
use r10_world::World;

/// Does one event, and gives its reply.
fn run_one<M: BlockMedium>(world: &mut World<M>, event: Event) -> Reply
    ensures steps { StepsToReply M.disk world.old event result world.new }
    ensures config { world.new.recorder.kept.config ≡ world.old.recorder.kept.config }
{
    r10_world::run_one(world, event)
}

/// The same of an event that leaves the medium itself.
pub(crate) fn run_quiet<M: SteadyMedium>(world: &mut World<M>, event: Event) -> Reply
    requires { leaves_medium event ≡ true }
    ensures steps { StepsToReply M.disk world.old event result world.new }
    ensures config { world.new.recorder.kept.config ≡ world.old.recorder.kept.config }
    ensures stays { M.identity world.new.recorder.medium ≡ M.identity world.old.recorder.medium }
{
    run_one(world, event)
}

/// The same over the medium that is named.
pub(crate) fn run_bound<M: SteadyMedium, N: NamesMedium>(
    world: World<M>,
    event: Event,
) -> (World<M>, Reply)
    requires { Some (M.identity world.recorder.medium) ≡ N.medium }
    ensures steps { StepsToReply M.disk world event result.1 result.0 }
    ensures config { result.0.recorder.kept.config ≡ world.recorder.kept.config }
    ensures named { Some (M.identity result.0.recorder.medium) ≡ N.medium }
{
    let (lifted, medium) = world.lift();
    let mut bound = lifted.over(Bound::<M, N>::new(medium));
    let reply = run_one(&mut bound, event);
    let (lifted, bound) = bound.lift();
    (lifted.over(bound.into_medium()), reply)
}

/// Whether an event leaves the medium itself, whatever it is answered.
pub(crate) fn leaves_medium(event: &Event) -> bool
    ensures { result ≡ leaves_medium event.now }
{
    matches!(
        event,
        Event::Offer { .. }
            | Event::Lose { .. }
            | Event::Next { .. }
            | Event::Close { .. }
            | Event::Files
            | Event::Status
    )
}
