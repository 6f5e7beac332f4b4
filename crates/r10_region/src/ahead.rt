//! The ring that comes after the one in hand.

ghost use Rattle.std.specs.Prelude.{◌≡◌};
ghost use Rattle.r10_region.specs.Links.{IsLookedAt};

use crate::link::Link;
use std::snapshot::Snapshot;

/// A link that was taken out, whose ring is not in hand yet.
#[derive(Drop)]
pub struct Ahead {
    pub(crate) link: Link,
    // as it came out
    pub(crate) was: Snapshot<Link>,
    ghost same: { IsLookedAt was.value link },
}

impl Ahead {
    /// This link.
    pub(crate) fn new(link: Link) -> Ahead
        ensures { result.was.value ≡ link }
    {
        let was = Snapshot::of(&link);
        Ahead { link, was }
    }
}
