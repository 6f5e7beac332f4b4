//! What is kept of each channel, and the rules of channels, sequence numbers and counts.

ghost use Rattle.std.specs.Prelude.{◌≡◌, ◌+◌, ◌<◌, ◌≤◌, ◌||◌, ◌↔◌, ◌∷◌, [], ◌++◌, ℕ, List, IsTrue, OnOk, nat_eq};
ghost use Rattle.std.specs.HashMap.{get, spare};
ghost use Rattle.r10_body.specs.Content.{type_of};
ghost use Rattle.r10_body.specs.Files.{on_channel};
ghost use Rattle.r10_body.specs.Packets.{Packet, packet_entries, file_entries};
ghost use Rattle.r10_body.specs.Rules.{EachFollows, KeepsChannels, KeepsSequence, KeepsCounts, is_setup_packet};
ghost use Rattle.r10_body.specs.Rules.{is_time, is_event, is_index, is_report_packet};
ghost use Rattle.r10_body.specs.declared.gap.Gap.TheVariants.{Whole};
ghost use Rattle.r10_packet_rules.specs.Facts.{AreFactsOf};
ghost use Rattle.r10_body.specs.Sequence.{next_sequence, last_count};
ghost use Rattle.r10_file_rules.specs.Channels.{HaveType, IsKeptOfChannel, AreKept};

use crate::kinds::{is_data_kind, is_index_kind, is_report_kind, is_setup_kind};
use r10_count::Count;
use r10_packet_rules::{Facts, Spread};
use std::alloc::{AllocError, Global};
use std::collections::HashMap;

/// What is kept of a channel that has packets.
#[derive(Clone, Copy)]
pub(crate) struct ChannelTrack {
    /// The data type of its packets.
    data_type: u8,
    /// The sequence number of its next packet.
    sequence: u8,
    /// The count of its last entry, or 0.
    last: u64,
}

/// What is kept of each channel, by its ID.
#[derive(Drop)]
pub(crate) struct ChannelTracks {
    known: HashMap<u16, ChannelTrack>,
}

impl ChannelTracks {
    /// Of no packets.
    pub(crate) fn new(alloc: Global) -> ChannelTracks
        ensures { AreKept result.known [] }
    {
        ChannelTracks {
            known: HashMap::new(alloc),
        }
    }

    /// Asks for the memory of one channel more.
    pub(crate) fn ready(&mut self) -> Result<(), AllocError>
        ensures same { (channel : ℕ) → get nat_eq self.new.known channel ≡ get nat_eq self.old.known channel }
        ensures room { OnOk result (0 < spare self.new.known) }
    {
        self.known.reserve(1)
    }

    /// What is kept of a channel.
    pub(crate) fn find(&self, channel: u16) -> Option<ChannelTrack>
        ensures { result ≡ get nat_eq self.now.known channel }
    {
        self.known.get(&channel).copied()
    }

    /// Adds a packet.
    pub(crate) fn add(&mut self, facts: &Facts)
        requires { 0 < spare self.old.known }
        ensures { (packets : List Packet) (p : Packet) → AreKept self.old.known packets → AreFactsOf facts.now p
            → KeepsChannels packets p → AreKept self.new.known (packets ++ p ∷ []) }
    {
        let track = track_with(self.find(facts.channel), facts);
        let _ = self.known.insert(facts.channel, track);
    }
}

/// What is kept of a packet's channel, with the packet.
fn track_with(track: Option<ChannelTrack>, facts: &Facts) -> ChannelTrack
    ensures { (packets : List Packet) (p : Packet) → IsKeptOfChannel packets facts.now.channel track → AreFactsOf facts.now p
        → KeepsChannels packets p → IsKeptOfChannel (packets ++ p ∷ []) facts.now.channel (Some result) }
{
    ChannelTrack {
        data_type: facts.data_type,
        sequence: next_of(track).wrapping_add(1),
        last: last_with(track, facts),
    }
}

/// The count of a channel's last entry with a packet more, or 0.
fn last_with(track: Option<ChannelTrack>, facts: &Facts) -> u64
    ensures { (packets : List Packet) (p : Packet) → IsKeptOfChannel packets facts.now.channel track → AreFactsOf facts.now p
        → result ≡ last_count 0 (on_channel p.channel (file_entries packets) ++ packet_entries p) }
{
    match facts.counts {
        Some(counts) => counts.last.get(),
        None => last_of(track),
    }
}

/// The count of a channel's last entry, or 0.
fn last_of(track: Option<ChannelTrack>) -> u64
    ensures { (packets : List Packet) (channel : ℕ) → IsKeptOfChannel packets channel track
        → result ≡ last_count 0 (on_channel channel (file_entries packets)) }
{
    match track {
        Some(track) => track.last,
        None => 0,
    }
}

/// The sequence number of a channel's next packet.
pub(crate) fn next_of(track: Option<ChannelTrack>) -> u8
    ensures { (packets : List Packet) (channel : ℕ) → IsKeptOfChannel packets channel track
        → result ≡ next_sequence channel packets }
{
    match track {
        Some(track) => track.sequence,
        None => 0,
    }
}

/// Rule 5: whether a packet may be on its channel.
pub(crate) fn keeps_channels(track: Option<ChannelTrack>, facts: &Facts) -> bool
    ensures { (packets : List Packet) (p : Packet) → IsKeptOfChannel packets facts.now.channel track → AreFactsOf facts.now p
        → (IsTrue result ↔ KeepsChannels packets p) }
{
    is_at_home(facts) && suits_channel(track, facts)
}

/// Whether a packet has the data type of its channel, and a flag only if it has data.
fn suits_channel(track: Option<ChannelTrack>, facts: &Facts) -> bool
    ensures { (packets : List Packet) (p : Packet) → IsKeptOfChannel packets facts.now.channel track → AreFactsOf facts.now p
        → (IsTrue result ↔ ((0 < p.channel → HaveType p.channel (type_of p.content) packets)
        × (IsTrue (is_setup_packet p || is_time p || is_event p || is_index p || is_report_packet p) → p.gap ≡ Whole))) }
{
    keeps_type(track, facts) && may_have_flag(facts)
}

/// Whether channel 0 has the packet exactly where it is a setup or an index packet or a loss report.
fn is_at_home(facts: &Facts) -> bool
    ensures { (p : Packet) → AreFactsOf facts.now p
        → (IsTrue result ↔ (IsTrue (is_setup_packet p || is_index p || is_report_packet p) ↔ (p.channel ≡ 0))) }
{
    if is_setup_kind(&facts.kind) || is_index_kind(&facts.kind) || is_report_kind(&facts.kind) {
        facts.channel == 0
    } else {
        facts.channel != 0
    }
}

/// Whether a packet has the data type of its channel, where the channel has one.
fn keeps_type(track: Option<ChannelTrack>, facts: &Facts) -> bool
    ensures { (packets : List Packet) (p : Packet) → IsKeptOfChannel packets facts.now.channel track → AreFactsOf facts.now p
        → (IsTrue result ↔ (0 < p.channel → HaveType p.channel (type_of p.content) packets)) }
{
    match track {
        Some(track) => facts.channel == 0 || track.data_type == facts.data_type,
        None => true,
    }
}

/// Whether only a packet of data is flagged.
fn may_have_flag(facts: &Facts) -> bool
    ensures { (p : Packet) → AreFactsOf facts.now p → (IsTrue result
        ↔ (IsTrue (is_setup_packet p || is_time p || is_event p || is_index p || is_report_packet p) → p.gap ≡ Whole)) }
{
    if is_data_kind(&facts.kind) {
        true
    } else {
        !facts.flagged
    }
}

/// Rule 6: whether a packet has its channel's next sequence number.
pub(crate) fn keeps_sequence(track: Option<ChannelTrack>, facts: &Facts) -> bool
    ensures { (packets : List Packet) (p : Packet) → IsKeptOfChannel packets facts.now.channel track → AreFactsOf facts.now p
        → (IsTrue result ↔ KeepsSequence packets p) }
{
    facts.sequence == next_of(track)
}

/// Rule 7: whether a packet's counts go on from those of its channel.
pub(crate) fn keeps_counts(track: Option<ChannelTrack>, facts: &Facts) -> bool
    ensures { (packets : List Packet) (p : Packet) → IsKeptOfChannel packets facts.now.channel track → EachFollows [] packets
        → AreFactsOf facts.now p → (IsTrue result ↔ KeepsCounts packets p) }
{
    match facts.counts {
        Some(counts) => goes_on(last_of(track), facts.counter, counts),
        None => true,
    }
}

/// Whether counts rise from a count on, begin at their packet's counter, and end within a tenth of a second.
fn goes_on(last: u64, counter: Count, counts: Spread) -> bool
    ensures { IsTrue result
        ↔ ((counter ≡ counts.first) × (last ≤ counts.first) × IsTrue counts.rise × (counts.greatest ≤ counter + 1000000)) }
{
    let first = counts.first.get();
    counter.get() == first
        && last <= first
        && counts.rise
        && counts.greatest.get() <= counter.get() + 1_000_000
}
