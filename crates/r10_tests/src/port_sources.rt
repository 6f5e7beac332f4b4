// A source that gives what it was made of.

use crate::lane_inputs::{CHANNEL, count, empty};
use r10_body::Timed;
use r10_port::lane;
use r10_source::{ChannelSource, Given, Pumped, SourceItem, pump_source};
use std::alloc::{AllocError, Global};
use std::collections::VecDeque;
use std::test::Fail;

#[derive(Drop)]
struct ListSource {
    left: VecDeque<SourceItem>,
}

impl ChannelSource for ListSource {
    ghost rest = { λ source. source.left.items };

    fn next(&mut self) -> Given {
        match self.left.pop_front() {
            Some(SourceItem::Message(Timed { count, message })) => Given::Item(count, message),
            Some(SourceItem::Lost(lost)) => Given::Lost(lost),
            None => Given::End,
        }
    }
}

fn three(alloc: Global) -> Result<ListSource, AllocError> {
    let mut left = VecDeque::new(alloc);
    for units in [1, 2, 3] {
        let (count, message) = (count(units), empty(alloc));
        left.push_back(SourceItem::Message(Timed { count, message }))?;
    }
    Ok(ListSource { left })
}

#[test]
fn a_pump_uses_its_turns_or_the_source_up(rt: HostRuntime) -> Result<(), Fail> {
    let alloc = rt.alloc();
    let (mut port, _outlet) = lane(alloc, CHANNEL)?;
    let mut source: Box<dyn ChannelSource + Send> = Box::new(alloc, three(alloc)?)?;
    let ten = pump_source(&mut source, &mut port, 10);
    let (mut other, _outlet) = lane(alloc, CHANNEL)?;
    let mut source: Box<dyn ChannelSource + Send> = Box::new(alloc, three(alloc)?)?;
    let two = pump_source(&mut source, &mut other, 2);
    let pumped = |accepted, refused, ended| Pumped {
        accepted,
        refused,
        ended,
    };
    assert_eq!(rt; [ten, two], [pumped(2, 1, true), pumped(2, 0, false)]);
    Ok(())
}
