//! Where an index is written.

ghost use Rattle.std.specs.Prelude.{◌≡◌, ◌+◌, ◌^◌, ◌<◌};
ghost use Rattle.r10_index.specs.UnfinishedIndex.{first_place};

/// Where the next packet of an index stands.
#[derive(Clone, Copy)]
pub struct IndexPlace {
    /// How many packets on channel 0 stand before its group.
    pub(crate) number: usize,
    /// The offset of its group in the file.
    pub(crate) start: u64,
    /// The offset of the root before its group, where there is one.
    pub(crate) link: Option<u64>,
    /// How many nodes stand before its group.
    pub(crate) before: usize,
    /// How many nodes of its group stand before it.
    pub(crate) done: usize,
}

impl IndexPlace {
    /// Of the first packet, after so many packets on channel 0, at an offset in the file.
    pub fn first(number: usize, end: u64) -> IndexPlace
        ensures { result ≡ first_place number end }
    {
        IndexPlace {
            number,
            start: end,
            link: None,
            before: 0,
            done: 0,
        }
    }

    /// Of the packet after a node of its group.
    pub(crate) fn behind_node(self) -> IndexPlace
        requires { self.done < 2 ^ 32 }
        ensures { result ≡ record self { done = self.done + 1 } }
    {
        IndexPlace {
            number: self.number,
            start: self.start,
            link: self.link,
            before: self.before,
            done: self.done + 1,
        }
    }
}
