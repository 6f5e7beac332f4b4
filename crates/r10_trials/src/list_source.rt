//! A source that gives what it was made of, and what its messages are.

use r10_body::{Gap, Message, Timed, UartMessage};
use r10_count::{Bytes, Count};
use r10_source::{ChannelSource, Given, SourceItem};
use std::alloc::{AllocError, Global};
use std::collections::VecDeque;

/// How many messages each source has.
pub const MESSAGES: u8 = 10;

/// The count of the first.
const FIRST: u64 = 2000;

/// Messages that wait.
#[derive(Drop)]
pub struct ListSource {
    left: VecDeque<SourceItem>,
}

impl ChannelSource for ListSource {
    ghost rest = { λ source. source.left.items };

    fn next(&mut self) -> Given {
        match self.left.pop_front() {
            Some(SourceItem::Message(Timed { count, message })) => Given::Item(count, message),
            Some(SourceItem::Lost(lost)) => Given::Lost(lost),
            None => Given::End,
        }
    }
}

/// The message of this number.
fn message(alloc: Global, number: u8) -> Result<Timed, AllocError> {
    let Some(count) = Count::of(FIRST + u64::from(number)) else {
        return Err(AllocError);
    };
    let message = Message::Uart(UartMessage {
        parity: false,
        sub: 0,
        bytes: Bytes::copy_of(alloc, &[number])?,
    });
    Ok(Timed { count, message })
}

/// A source of all messages.
pub fn source(alloc: Global) -> Result<Box<ListSource>, AllocError> {
    let mut left = VecDeque::new(alloc);
    for number in 0..MESSAGES {
        left.push_back(SourceItem::Message(message(alloc, number)?))?;
    }
    match Box::new(alloc, ListSource { left }) {
        Ok(source) => Ok(source),
        Err(_) => Err(AllocError),
    }
}

/// Whether this is the message of this number, after no overflow.
pub fn is_message(number: u64, count: Count, message: &Message, gap: Gap) -> bool {
    match message {
        Message::Uart(UartMessage { parity, sub, bytes }) => {
            let bytes = bytes.as_slice();
            gap == Gap::Whole
                && count.get() == FIRST.saturating_add(number)
                && !*parity
                && *sub == 0
                && bytes.len() == 1
                && u64::from(bytes[0]) == number
        }
        _ => false,
    }
}
