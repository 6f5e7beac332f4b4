//! A source of messages and losses that are there from the start.

ghost use Rattle.std.specs.Prelude.{◌≡◌};

use r10_body::Timed;
use r10_count::Items;
use r10_script::FeedItem;
use r10_source::{ChannelSource, Given};
use std::collections::VecDeque;

/// A source that gives the items of a list, in turn.
#[derive(Drop)]
pub struct ListSource {
    left: VecDeque<FeedItem>,
}

impl ListSource {
    /// A source of these items.
    pub fn of(items: Items<FeedItem>) -> ListSource
        ensures { result.left.items ≡ items }
    {
        ListSource {
            left: VecDeque::from_vec(items.into_vec()),
        }
    }
}

impl ChannelSource for ListSource {
    ghost use Rattle.r10_session.specs.Turns.{turns_in};

    ghost rest = { λ source. turns_in source.left.items };

    fn next(&mut self) -> Given {
        match self.left.pop_front() {
            Some(FeedItem::Message(Timed { count, message })) => Given::Item(count, message),
            Some(FeedItem::Lost(lost)) => Given::Lost(lost),
            None => Given::End,
        }
    }
}
