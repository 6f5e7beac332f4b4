// A source that gives what it was made of.

use r10_body::{Message, Timed, UartMessage};
use r10_count::{Bytes, Count};
use r10_shared::StopFlag;
use r10_source::{ChannelSource, Given, SourceItem};
use std::alloc::Global;
use std::collections::VecDeque;
use std::sync::Arc;
use std::test::Fail;

/// Messages that wait.
#[derive(Drop)]
pub struct ListSource {
    pub left: VecDeque<SourceItem>,
}

impl ChannelSource for ListSource {
    ghost rest = { λ source. source.left.items };

    fn next(&mut self) -> Given {
        match self.left.pop_front() {
            Some(SourceItem::Message(Timed { count, message })) => Given::Item(count, message),
            Some(SourceItem::Lost(lost)) => Given::Lost(lost),
            None => Given::End,
        }
    }
}

/// Messages that wait, of a source that asks a stop when so many are left.
#[derive(Drop)]
pub struct Stopping {
    pub listed: ListSource,
    pub at: usize,
    pub stop: Arc<StopFlag, Global>,
}

impl ChannelSource for Stopping {
    ghost rest = { λ source. source.listed.left.items };

    fn next(&mut self) -> Given {
        let given = self.listed.next();
        if self.listed.left.len() == self.at {
            self.stop.ask();
        }
        given
    }
}

impl ListSource {
    /// So many messages without bytes, which take no memory, at the counts from this one on.
    pub fn of(alloc: Global, first: u64, messages: u64) -> Result<ListSource, Fail> {
        let mut left = VecDeque::new(alloc);
        for place in 0..messages {
            let count = Count::of(place.wrapping_add(first)).ok_or("no count")?;
            let message = Message::Uart(UartMessage {
                parity: false,
                sub: 0,
                bytes: Bytes::of(Vec::new(alloc)),
            });
            left.push_back(SourceItem::Message(Timed { count, message }))?;
        }
        Ok(ListSource { left })
    }
}
