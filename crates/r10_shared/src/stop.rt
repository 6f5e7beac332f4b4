//! A stop from outside.

ghost use Rattle.std.specs.Prelude.{◌≡◌, Bool, false, ⊤};

use std::sync::atomic::{AtomicBool, Ordering};

/// Whether the feeds of a session are to end before their sources do. Each feed asks it before each turn of its source. After the
/// feeds and the orders the writer takes in what waits, commits and ends; and then each reader takes one more instalment.
pub trait Stop {
    /// It may answer so. Where a stop says nothing of it, it may give any answer.
    ghost answers: { Self → Bool → Type 0 } = { λ stop answer. ⊤ };

    /// Whether feeds are to end. This returns at once.
    fn is_asked(&self) -> bool
        ensures { answers self.now result };
}

/// A power loss that is never asked.
#[derive(Clone, Copy)]
pub struct Never;

impl Stop for Never {
    ghost answers = { λ stop answer. answer ≡ false };

    fn is_asked(&self) -> bool
        ensures { result ≡ false }
    {
        false
    }
}

/// A power loss that any thread may ask, once and for all.
#[derive(Drop)]
pub struct StopFlag {
    asked: AtomicBool,
}

impl StopFlag {
    /// Not asked yet.
    pub fn new() -> StopFlag {
        StopFlag {
            asked: AtomicBool::new(false),
        }
    }

    /// Asks the feeds to end, each after the turn that it is in.
    pub fn ask(&self) {
        self.asked.store(true, Ordering::SeqCst);
    }
}

impl Stop for StopFlag {
    fn is_asked(&self) -> bool {
        self.asked.load(Ordering::SeqCst)
    }
}
