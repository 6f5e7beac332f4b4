// A lane, with both ends in one thread.

ghost use Rattle.std.specs.Prelude.{◌≡◌};

use crate::lane_inputs::{CHANNEL, count, empty};
use r10_body::{Gap, Refusal, Sample};
use r10_lane::LaneOut;
use r10_port::{Port, lane};
use std::alloc::Global;
use std::test::Fail;

fn offer(port: &mut Port, alloc: Global, units: u32) -> Result<(), Refusal>
    ensures { port.new.ring ≡ port.old.ring }
{
    port.offer(count(units), empty(alloc))
}

/// The count, and what was lost before it.
fn count_and_gap(taken: Option<Sample>) -> Option<(u64, Gap)> {
    let Sample { count, gap, .. } = taken?;
    Some((count.get(), gap))
}

#[test]
fn a_full_lane_loses_messages_and_tells_how_many(rt: HostRuntime) -> Result<(), Fail> {
    let alloc = rt.alloc();
    let (mut port, mut outlet) = lane(alloc, CHANNEL)?;
    let mut answers = [Ok(()); 5];
    for (place, units) in [1, 2, 3, 4].into_iter().enumerate() {
        answers[place] = offer(&mut port, alloc, units);
    }
    let held = outlet.held();
    let lent = outlet.front().map(|first| first.count.get());
    let first = count_and_gap(outlet.take());
    answers[4] = offer(&mut port, alloc, 5);
    let taken = [
        first,
        count_and_gap(outlet.take()),
        count_and_gap(outlet.take()),
        count_and_gap(outlet.take()),
    ];
    let full = Err(Refusal::Overflow);
    assert_eq!(rt; answers, [Ok(()), Ok(()), full, full, Ok(())]);
    assert_eq!(rt;
        taken,
        [
            Some((1, Gap::Whole)),
            Some((2, Gap::Whole)),
            Some((5, Gap::Lost(2))),
            None
        ]
    );
    assert_eq!(rt; (held, lent, port.sent(), port.lost()), (2, Some(1), 3, 2));
    Ok(())
}

#[test]
fn a_sender_sees_how_full_its_lane_is(rt: HostRuntime) -> Result<(), Fail> {
    let alloc = rt.alloc();
    let (mut port, mut outlet) = lane(alloc, CHANNEL)?;
    let none = port.waiting();
    let answers = [offer(&mut port, alloc, 1), offer(&mut port, alloc, 2)];
    let both = port.waiting();
    let taken = count_and_gap(outlet.take());
    let not_seen = port.waiting();
    port.look();
    assert_eq!(rt; answers, [Ok(()), Ok(())]);
    assert_eq!(rt; taken, Some((1, Gap::Whole)));
    assert_eq!(rt; (none, both, not_seen, port.waiting()), (0, 2, 2, 1));
    Ok(())
}

/// The rest goes into room that is there, and what finds none waits on.
#[test]
fn the_rest_goes_into_room(rt: HostRuntime) -> Result<(), Fail> {
    let alloc = rt.alloc();
    let (mut port, mut outlet) = lane(alloc, CHANNEL)?;
    let answers = [offer(&mut port, alloc, 1), offer(&mut port, alloc, 2)];
    let left = outlet.rest_len(&mut port);
    let mut room = Vec::with_capacity(alloc, 1)?;
    outlet.rest_into(&mut port, &mut room);
    let moved = count_and_gap(room.pop());
    let rest = outlet.rest(alloc, &mut port)?.len();
    assert_eq!(rt; answers, [Ok(()), Ok(())]);
    assert_eq!(rt; (left, moved, rest), (2, Some((1, Gap::Whole)), 1));
    Ok(())
}
