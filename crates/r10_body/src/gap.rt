//! What was lost before a message.

ghost use Rattle.std.specs.Prelude.{◌≡◌, ◌↔◌, IsTrue};
ghost use Rattle.r10_body.specs.Gaps.{IsSoundGap, gap_after, is_gap};

/// Whether messages of a channel were lost between a message and the one before it: its lane was full, or they were lost before
/// they were offered.
#[derive(Clone, Copy, Debug, PartialEq, Eq)]
pub enum Gap {
    /// None were.
    Whole,
    /// So many were, at least one.
    Lost(u64),
    /// At least one was: only a file that was found says so.
    Unknown,
}

impl Gap {
    /// The gap after so many lost messages.
    pub fn after(missed: u64) -> Gap
        ensures is { result ≡ gap_after missed }
        ensures sound { IsSoundGap result }
    {
        if missed == 0 {
            Gap::Whole
        } else {
            Gap::Lost(missed)
        }
    }

    /// Whether a packet that begins after it is flagged.
    pub fn is_gap(&self) -> bool
        ensures { result ≡ is_gap self.now }
    {
        match self {
            Gap::Whole => false,
            Gap::Lost(_) | Gap::Unknown => true,
        }
    }

    /// Whether it tells no loss of none.
    pub fn is_sound(&self) -> bool
        ensures { IsTrue result ↔ IsSoundGap self.now }
    {
        match self {
            Gap::Lost(lost) => *lost > 0,
            Gap::Whole | Gap::Unknown => true,
        }
    }
}
