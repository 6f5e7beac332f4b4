//! What came of a run whose memory may be refused.

use crate::tally::push_number;
use std::alloc::Global;

/// How often memory is asked for after what is done: more often than a number that is refused.
const BEHIND: u32 = 5_000;

/// What was done again where memory was refused, and what came otherwise than it is to come: the first of each.
#[derive(Clone, Copy, Default)]
pub struct Notes {
    pub again: Option<&'static str>,
    pub wrong: Option<&'static str>,
    /// How often memory was asked for, before what was done and after it, before an ask that was refused, if one was.
    before: Option<u32>,
    behind: Option<u32>,
}

impl Notes {
    /// This was done again.
    pub fn do_again(&mut self, what: &'static str) {
        if self.again.is_none() {
            self.again = Some(what);
        }
    }

    /// This is not as it is to be, unless it is.
    pub fn want(&mut self, right: bool, otherwise: &'static str) {
        if !right && self.wrong.is_none() {
            self.wrong = Some(otherwise);
        }
    }

    /// Asks for memory so often before what is done: so a refused allocation of a fixed number falls on another one after them.
    pub fn ask_before(&mut self, alloc: Global, times: u32) {
        self.before = ask(alloc, times);
    }

    /// Asks for memory after what was done.
    pub fn ask_behind(&mut self, alloc: Global) {
        self.behind = ask(alloc, BEHIND);
    }

    /// Adds what came, which ask was refused, before what was done or after it, if one was, and the end of the line.
    pub fn push(&self, alloc: Global, text: &mut String) {
        let (came, what) = match (self.wrong, self.again) {
            (Some(what), _) => ("not as wanted: ", what),
            (None, Some(what)) => ("as wanted, ", what),
            (None, None) => ("as wanted", ""),
        };
        let _ = text.push_str(came);
        let _ = text.push_str(what);
        let (asks, place) = match (self.before, self.behind) {
            (Some(asks), _) => (asks, " asks before\n"),
            (None, Some(asks)) => (asks, " asks at the end\n"),
            (None, None) => {
                let _ = text.push_str("\n");
                return;
            }
        };
        let _ = text.push_str(", refused behind ");
        push_number(alloc, u64::from(asks), place, text);
    }
}

/// Asks for memory so often, and gives it back. It answers how many asks came before one that was refused.
fn ask(alloc: Global, times: u32) -> Option<u32> {
    let mut refused = None;
    for asked in 0..times {
        let is_refused = Vec::<u8>::with_capacity(alloc, 1).is_err();
        if is_refused && refused.is_none() {
            refused = Some(asked);
        }
    }
    refused
}
