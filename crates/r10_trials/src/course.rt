//! What a recorder does, and over which medium.

use crate::scene::{medium_of, run_events};
use r10_machine::{Event, Reply, Settings};
use r10_medium::{Crashing, Faulty, Memory};
use std::alloc::{AllocError, Global};

/// A recorder's settings, the bytes that its medium has, and the steps that it does.
#[derive(Clone, Copy)]
pub struct Course<'a> {
    pub settings: &'a Settings,
    pub image: &'a [u8],
    pub events: &'a [Event],
    /// The replies over a medium that never fails.
    pub replies: &'a [Reply],
    /// The steps that a new recorder is to do after these.
    pub rest: &'a [Event],
}

/// Does the steps over a medium that stops after so many calls, adds the replies, and answers the medium.
pub fn run_to_stop(
    alloc: Global,
    course: &Course<'_>,
    calls: u64,
    replies: &mut Vec<Reply>,
) -> Result<Crashing, AllocError> {
    let medium = Crashing::new(alloc, medium_of(alloc, course.image)?, calls)?;
    run_events(alloc, course.settings, medium, course.events, replies)
}

/// The same over a medium whose call of this number fails, from 1.
pub fn run_to_failure(
    alloc: Global,
    course: &Course<'_>,
    call: u64,
    replies: &mut Vec<Reply>,
) -> Result<Faulty<Memory>, AllocError> {
    let medium = Faulty::new(medium_of(alloc, course.image)?, call);
    run_events(alloc, course.settings, medium, course.events, replies)
}
