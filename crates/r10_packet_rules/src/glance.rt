//! The entries of each kind of channel, read where they stand.

use crate::bus::split_bus;
use crate::fixed::{split_states, split_word};
use crate::scan::{Glimpse, ScannedEntry};
use r10_a429::{ArincEntry, LONGEST_GAP};
use r10_b1553::{BusEntry, MOST_BYTES, NAMED_BITS};
use r10_body::{ENTRY_COST, split_text};
use r10_count::Count;
use r10_discrete::{DiscreteEntry, has_only};
use r10_message::{MessageEntry, MessageHeader};
use r10_uart::{UartEntry, UartHeader};

impl ScannedEntry for UartEntry {
    #[inline(always)]
    fn may_open(counter: u64, count: Count) -> bool {
        let _ = (counter, count);
        true
    }

    #[inline(always)]
    fn glance(setting: u32, before: u64, bytes: &[u8]) -> Option<(Glimpse, &[u8])> {
        let _ = (setting, before);
        let Some(front) = split_text(bytes) else {
            return None;
        };
        let Some(header) = UartHeader::of(front.header) else {
            return None;
        };
        let glimpse = Glimpse {
            count: front.count,
            cost: ENTRY_COST + 12 + header.length as u64,
        };
        Some((glimpse, front.rest))
    }
}

impl ScannedEntry for MessageEntry {
    #[inline(always)]
    fn may_open(counter: u64, count: Count) -> bool {
        let _ = (counter, count);
        true
    }

    #[inline(always)]
    fn glance(setting: u32, before: u64, bytes: &[u8]) -> Option<(Glimpse, &[u8])> {
        let _ = (setting, before);
        let Some(front) = split_text(bytes) else {
            return None;
        };
        let header = MessageHeader::of(front.header);
        let glimpse = Glimpse {
            count: front.count,
            cost: ENTRY_COST + 12 + header.length as u64,
        };
        Some((glimpse, front.rest))
    }
}

impl ScannedEntry for BusEntry {
    #[inline(always)]
    fn may_open(counter: u64, count: Count) -> bool {
        let _ = (counter, count);
        true
    }

    #[inline(always)]
    fn glance(setting: u32, before: u64, bytes: &[u8]) -> Option<(Glimpse, &[u8])> {
        let _ = (setting, before);
        let Some(front) = split_bus(bytes) else {
            return None;
        };
        if front.status & NAMED_BITS != front.status {
            return None;
        }
        if front.size % 2 == 1 {
            return None;
        }
        if front.size > MOST_BYTES {
            return None;
        }
        let glimpse = Glimpse {
            count: front.count,
            cost: ENTRY_COST + 14 + u64::from(front.size),
        };
        Some((glimpse, front.rest))
    }
}

impl ScannedEntry for ArincEntry {
    #[inline(always)]
    fn may_open(counter: u64, count: Count) -> bool {
        count.get() == counter
    }

    #[inline(always)]
    fn glance(setting: u32, before: u64, bytes: &[u8]) -> Option<(Glimpse, &[u8])> {
        let _ = setting;
        let Some((header, _word, rest)) = split_word(bytes) else {
            return None;
        };
        let gap = header % 0x20_0000;
        if gap > LONGEST_GAP {
            return None;
        }
        let Some(count) = Count::of(before.saturating_add(u64::from(gap))) else {
            return None;
        };
        let cost = ENTRY_COST + 8;
        Some((Glimpse { count, cost }, rest))
    }
}

impl ScannedEntry for DiscreteEntry {
    #[inline(always)]
    fn may_open(counter: u64, count: Count) -> bool {
        let _ = (counter, count);
        true
    }

    #[inline(always)]
    fn glance(setting: u32, before: u64, bytes: &[u8]) -> Option<(Glimpse, &[u8])> {
        let _ = before;
        let Some(change) = split_states(bytes) else {
            return None;
        };
        if !has_only(setting as usize, change.states) {
            return None;
        }
        let glimpse = Glimpse {
            count: change.count,
            cost: ENTRY_COST + 12,
        };
        Some((glimpse, change.rest))
    }
}
