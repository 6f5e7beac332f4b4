//! The order of a replay: `r10_machine`.

use r10_body::{Entry, Gap, Message, UartMessage};
use r10_count::{Bytes, Count};
use r10_machine::instalment;
use std::alloc::{AllocError, Global};
use std::test::Fail;

fn count(units: u32) -> Count {
    let Some(count) = Count::of(u64::from(units)) else {
        unreachable!()
    };
    count
}

/// A UART message without bytes, as an entry.
fn entry(alloc: Global, channel: u16, units: u32) -> Entry {
    Entry {
        channel,
        count: count(units),
        message: Message::Uart(UartMessage {
            parity: false,
            sub: 0,
            bytes: Bytes::of(Vec::new(alloc)),
        }),
        gap: Gap::Whole,
    }
}

/// Entries without bytes, at these channels and counts.
fn entries(alloc: Global, places: &[(u16, u32)]) -> Result<Vec<Entry>, AllocError> {
    let mut entries = Vec::new(alloc);
    for (channel, units) in places {
        entries.push(entry(alloc, *channel, *units))?;
    }
    Ok(entries)
}

/// The channels and counts of the first three of some entries.
fn places(entries: &[Entry]) -> [Option<(u16, u64)>; 3] {
    [0, 1, 2].map(|n| entries
        .get(n)
        .map(|entry| (entry.channel, entry.count.get())))
}

/// An instalment has what is wanted, by count and then by channel.
#[test]
fn an_instalment_is_in_order(rt: HostRuntime) -> Result<(), Fail> {
    let alloc = rt.alloc();
    let shown = entries(alloc, &[(6, 20), (5, 10), (7, 5), (5, 20), (5, 31)])?;
    let read = instalment(alloc, &shown, &[5, 6], count(10), count(30))?;
    assert_eq!(rt; read.len(), 3);
    assert_eq!(rt;
        places(&read),
        [Some((5, 10)), Some((5, 20)), Some((6, 20))]
    );
    Ok(())
}
