//! What the packets of each channel come to.

ghost use Rattle.std.specs.Prelude.{◌≡◌, ◌<◌, ◌∷◌, [], ◌++◌, ℕ, List, OnOk, Some, nat_eq};
ghost use Rattle.std.specs.HashMap.{get, spare};
ghost use Rattle.r10_survey.specs.Looks.{IsSeen};
ghost use Rattle.r10_survey.specs.Counts.{AreCounts, IsCountOfChannel};

use crate::channel::ChannelCount;
use crate::look::SeenPacket;
use std::alloc::{AllocError, Global};
use std::collections::HashMap;

/// What the packets of each channel come to, by its ID.
#[derive(Drop)]
pub(crate) struct ChannelCounts {
    known: HashMap<u16, ChannelCount>,
}

impl ChannelCounts {
    /// Of no packets.
    pub(crate) fn new(alloc: Global) -> ChannelCounts
        ensures { AreCounts result.known [] }
    {
        ChannelCounts {
            known: HashMap::new(alloc),
        }
    }

    /// Asks for the memory of one channel more.
    pub(crate) fn ready(&mut self) -> Result<(), AllocError>
        ensures same { (channel : ℕ) → get nat_eq self.new.known channel ≡ get nat_eq self.old.known channel }
        ensures room { OnOk result (0 < spare self.new.known) }
    {
        self.known.reserve(1)
    }

    /// What a channel's packets come to; `None` where it has none.
    pub(crate) fn find(&self, channel: u16) -> Option<ChannelCount>
        ensures { result ≡ get nat_eq self.now.known channel }
    {
        self.known.get(&channel).copied()
    }

    /// Adds a packet.
    pub(crate) fn add(&mut self, seen: &SeenPacket)
        requires { 0 < spare self.old.known }
        ensures { (packets : List (List ℕ)) (p : List ℕ) → AreCounts self.old.known packets → IsSeen seen.now p
            → AreCounts self.new.known (packets ++ p ∷ []) }
    {
        let channel = seen.header.channel;
        let count = count_with(self.find(channel), seen);
        let _ = self.known.insert(channel, count);
    }
}

/// What a packet's channel comes to, with the packet.
fn count_with(count: Option<ChannelCount>, seen: &SeenPacket) -> ChannelCount
    ensures { (packets : List (List ℕ)) (p : List ℕ) → IsCountOfChannel packets seen.now.header.channel count
        → IsSeen seen.now p → IsCountOfChannel (packets ++ p ∷ []) seen.now.header.channel (Some result) }
{
    match count {
        Some(count) => count.with(seen),
        None => ChannelCount::of_first(seen),
    }
}
