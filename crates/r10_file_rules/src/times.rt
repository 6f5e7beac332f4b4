//! How many packets there are, the counter of the first, the last time, and the rules of the start and of counters.

ghost use Rattle.std.specs.Prelude.{◌≡◌, ◌||◌, ◌^◌, ◌<◌, ◌↔◌, ◌∷◌, [], ◌++◌, ℕ, List, length, take, IsTrue, None};
ghost use Rattle.std.specs.List.{AllByRecursion};
ghost use Rattle.r10_count.specs.Count.{IsCount};
ghost use Rattle.r10_body.specs.Packets.{Packet, file_bytes};
ghost use Rattle.r10_body.specs.Rules.{KeepsStart, KeepsCounters, is_index, is_report_packet, last_time};
ghost use Rattle.r10_packet_rules.specs.Facts.{AreFactsOf};
ghost use Rattle.r10_file_rules.specs.Times.{AreTimes, last_mark};

use crate::kinds::{is_index_kind, is_report_kind, is_setup_kind, is_time_kind};
use r10_count::{Civil, Count};
use r10_packet_rules::{Facts, PacketKind};

/// What a time packet says.
#[derive(Clone, Copy)]
pub struct TimeMark {
    /// Its counter.
    pub count: Count,
    /// The civil time at that count.
    pub civil: Civil,
}

#[derive(Clone, Copy)]
pub(crate) struct TimeTracks {
    /// How many packets there are.
    pub(crate) packets: u64,
    /// The counter of the first, or 0.
    first: u64,
    /// The last time.
    pub(crate) last: Option<TimeMark>,
}

impl TimeTracks {
    /// Of no packets.
    pub(crate) fn new() -> TimeTracks
        ensures { AreTimes result [] }
    {
        TimeTracks {
            packets: 0,
            first: 0,
            last: None,
        }
    }

    /// The counter of the last time packet, or 0.
    pub(crate) fn counter(&self) -> u64
        ensures reported { (packets : List Packet) → AreTimes self.now packets → result ≡ last_time 0 packets }
        ensures range { IsCount result }
    {
        match self.last {
            Some(mark) => mark.count.get(),
            None => 0,
        }
    }

    /// Rule 4: whether the first packet alone is a setup packet, and the second a time packet.
    pub(crate) fn keeps_start(&self, facts: &Facts) -> bool
        ensures { (packets : List Packet) (p : Packet) → AreTimes self.now packets → AreFactsOf facts.now p
            → (IsTrue result ↔ KeepsStart packets p) }
    {
        match self.packets {
            0 => is_setup_kind(&facts.kind),
            1 => is_time_kind(&facts.kind),
            _ => !is_setup_kind(&facts.kind),
        }
    }

    /// Rule 9: whether the first time has the counter of the setup packet, and an index packet or a
    /// loss report that of the last time.
    pub(crate) fn keeps_counters(&self, facts: &Facts) -> bool
        ensures { (packets : List Packet) (p : Packet) → AreTimes self.now packets → AreFactsOf facts.now p
            → (IsTrue result ↔ KeepsCounters packets p) }
    {
        self.is_setup_counter(facts) && self.is_last_counter(facts)
    }

    /// Whether the second packet has the counter of the first.
    fn is_setup_counter(&self, facts: &Facts) -> bool
        ensures { (packets : List Packet) (p : Packet) → AreTimes self.now packets → AreFactsOf facts.now p
            → (IsTrue result ↔ (length packets ≡ 1 → AllByRecursion (λ q. q.counter ≡ p.counter) packets)) }
    {
        if self.packets == 1 {
            self.first == facts.counter.get()
        } else {
            true
        }
    }

    /// Whether an index packet or a loss report has the counter of the last time.
    fn is_last_counter(&self, facts: &Facts) -> bool
        ensures { (packets : List Packet) (p : Packet) → AreTimes self.now packets → AreFactsOf facts.now p
            → (IsTrue result ↔ (IsTrue (is_index p || is_report_packet p) → p.counter ≡ last_time 0 packets)) }
    {
        if is_index_kind(&facts.kind) || is_report_kind(&facts.kind) {
            facts.counter.get() == self.counter()
        } else {
            true
        }
    }

    /// Adds a packet.
    pub(crate) fn add(&mut self, facts: &Facts)
        ensures { (packets : List Packet) (p : Packet) → AreTimes self.old packets → AreFactsOf facts.now p
            → length (file_bytes (packets ++ p ∷ [])) < 2 ^ 63 → AreTimes self.new (packets ++ p ∷ []) }
    {
        *self = TimeTracks {
            packets: self.packets.saturating_add(1),
            first: self.first_with(facts),
            last: self.last_with(facts),
        };
    }

    /// The counter of the first packet, with a packet more.
    fn first_with(&self, facts: &Facts) -> u64
        ensures { (packets : List Packet) (p : Packet) → AreTimes self.now packets → AreFactsOf facts.now p
            → AllByRecursion (λ q. q.counter ≡ result) (take 1 (packets ++ p ∷ [])) }
    {
        if self.packets == 0 {
            facts.counter.get()
        } else {
            self.first
        }
    }

    /// The last time, with a packet more.
    fn last_with(&self, facts: &Facts) -> Option<TimeMark>
        ensures { (packets : List Packet) (p : Packet) → self.now.last ≡ last_mark None packets → AreFactsOf facts.now p
            → result ≡ last_mark None (packets ++ p ∷ []) }
    {
        match facts.kind {
            PacketKind::Time { civil } => Some(TimeMark {
                count: facts.counter,
                civil,
            }),
            _ => self.last,
        }
    }
}
