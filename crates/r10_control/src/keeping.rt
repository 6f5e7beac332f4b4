//! What a recorder keeps beside its lanes and its medium.

use crate::clock::ClockTick;
use crate::work::Doing;
use r10_count::Count;
use r10_machine::Settings;

/// What a recorder keeps beside its lanes and its medium. Contracts see it as `kept_of` says.
#[derive(Drop)]
pub(crate) struct Keeping {
    pub(crate) settings: Settings,
    pub(crate) work: Doing,
    pub(crate) tick: Option<ClockTick>,
    pub(crate) last_event: Option<Count>,
    pub(crate) generation: u64,
    pub(crate) taken: Vec<u64>,
    pub(crate) erased: Vec<u64>,
    pub(crate) found: Option<usize>,
}
