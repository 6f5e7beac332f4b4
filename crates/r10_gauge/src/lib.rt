//! What was published last, for threads that look without a lock: one growing list of triples, and passes that have seen a
//! beginning of it.
#![tactic(auto)]

mod cell;
mod gauge;
mod kind;
mod pass;
mod watch;

pub use gauge::Gauge;
pub use kind::{Commits, GaugeKind, Level, Levels};
pub use pass::Pass;
pub use watch::Watch;
