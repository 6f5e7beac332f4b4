//! Whether a file keeps the rules, packet by packet.

ghost use Rattle.std.specs.Prelude.{◌≡◌, ◌↔◌, ◌⊎◌, ◌+◌, ◌<◌, ◌≤◌, ◌^◌, ◌++◌, ℕ, Bool, List, [], length, take, true, false, IsTrue};
ghost use Rattle.std.specs.Prelude.{IfOk, IfErr, MatchOption, MatchResult, OnOk, OnErr, Ok, None, Some, is_some};
ghost use Rattle.r10_packet.specs.Framing.{framing_fault, body_at};
ghost use Rattle.r10_body.specs.Faults.{HasFault, IsFollowedByFlagged, IsAtFault, IsReportAnswered};
ghost use Rattle.r10_body.specs.Files.{IsStrict};
ghost use Rattle.r10_body.specs.Foreign.{IsForeignPacket};
ghost use Rattle.r10_body.specs.Packets.{Packet, FitsPacket, packet_body, packet_bytes};
ghost use Rattle.r10_body.specs.Rules.{EndsIndex, EndsReports, IsGapTold, KeepsChecksums, last_report};
ghost use Rattle.r10_body.specs.Rules.{is_index as is_index_packet};
ghost use Rattle.r10_judge.specs.Judged.{TracksJudged, KeepsRulesSoFar, BreaksRuleOfFileFirst, TracksStrictFile, MayMiss};
ghost use Rattle.r10_judge.specs.Judged.{SaysClosed, TellsAnswer, least_of_index, stopped_at, unanswered_at};
ghost use Rattle.r10_packet_rules.specs.Facts.{AreFactsOf, kind_of};
ghost use Rattle.r10_packet_rules.specs.Strict.{FindsPacket};
ghost use Rattle.r10_packet_rules.specs.Tracks.{IsFirst};
ghost use Rattle.r10_file_rules.specs.Tracks.{IsTracked};

use r10_body::FileFault;
use r10_file_rules::Tracks;
use r10_indexbody::LossBody;
use r10_packet_rules::{
    AnyPacket, Facts, FirstFault, ForeignPacket, PacketKind, StrictReading, read_any, read_checked,
    read_foreign,
};
use std::alloc::{AllocError, Global};

/// How far a file is judged.
///
/// It takes the packets of a file one after the other, each whole, and keeps none of them.
#[derive(Drop)]
pub struct Judge {
    tracks: Tracks,
    /// Whether the file's directory entry is closed.
    closed: bool,
    /// Where a packet first breaks a rule, if one does.
    broken: Option<FirstFault>,
}

impl Judge {
    /// The start of a file whose directory entry is closed or not.
    pub fn new(alloc: Global, closed: bool) -> Judge
        ensures stands { TracksJudged result [] }
        ensures closed { result.closed ≡ closed }
    {
        Judge {
            tracks: Tracks::new(alloc),
            closed,
            broken: None,
        }
    }

    /// Takes the next packet, whoever wrote it. Where memory is refused, it isn't taken.
    pub fn take(&mut self, packet: &[u8]) -> Result<(), AllocError>
        ensures taken { (before : List ℕ) → TracksJudged self.old before → IsForeignPacket packet.now
            → length (before ++ packet.now) < 2 ^ 63 → OnOk result (TracksJudged self.new (before ++ packet.now)) }
        ensures kept { (before : List ℕ) → TracksJudged self.old before → OnErr result (TracksJudged self.new before) }
        ensures closed { self.new.closed ≡ self.old.closed }
    {
        if self.is_broken() {
            return Ok(());
        }
        let reading = read_checked(packet);
        self.take_read(&reading, packet)
    }

    /// Takes the next packet, whoever wrote it, of which this is what its strict reading finds. Where memory is refused, it
    /// isn't taken.
    fn take_read(&mut self, reading: &StrictReading, packet: &[u8]) -> Result<(), AllocError>
        ensures taken { (before : List ℕ) → TracksJudged self.old before → IsForeignPacket packet.now
            → FindsPacket packet.now reading.now → length (before ++ packet.now) < 2 ^ 63
            → OnOk result (TracksJudged self.new (before ++ packet.now)) }
        ensures kept { (before : List ℕ) → TracksJudged self.old before → OnErr result (TracksJudged self.new before) }
        ensures closed { self.new.closed ≡ self.old.closed }
    {
        if self.broken.is_some() {
            return Ok(());
        }
        if !self.is_answered(packet) {
            self.stop_at_report();
            return Ok(());
        }
        match reading {
            StrictReading::Strict(facts) => self.take_strict(facts, body_of(packet)),
            StrictReading::Breaks(rule) => {
                self.stop(*rule);
                Ok(())
            }
        }
    }

    /// Takes the packet that stands first in bytes that follow, and says how it is: each body that this recorder wrote is
    /// read once. A packet at fault isn't taken.
    pub(crate) fn take_first(
        &mut self,
        bytes: &[u8],
    ) -> Result<Result<ForeignPacket, FileFault>, AllocError>
        ensures found { IfOk result (λ r. IfOk r (IsFirst bytes.now)) }
        ensures taken { IfOk result (λ r. IfOk r
            (λ packet. (before : List ℕ) → TracksJudged self.old before → length (before ++ take packet.length bytes.now) < 2 ^ 63
            → TracksJudged self.new (before ++ take packet.length bytes.now))) }
        ensures fault { IfOk result (λ r. IfErr r (HasFault bytes.now)) }
        ensures kept { IfOk result (λ r. OnErr r (self.new ≡ self.old)) }
        ensures closed { self.new.closed ≡ self.old.closed }
    {
        if self.is_broken() {
            return Ok(read_foreign(bytes));
        }
        match read_any(bytes) {
            Ok(any) => self.take_any(&any, bytes),
            Err(fault) => Ok(Err(fault)),
        }
    }

    /// Takes the packet that stands first in bytes, with what its strict reading finds, and hands it back.
    fn take_any(
        &mut self,
        any: &AnyPacket,
        bytes: &[u8],
    ) -> Result<Result<ForeignPacket, FileFault>, AllocError>
        requires { any.now.packet.length ≤ length bytes.now }
        ensures packet { IfOk result (λ r. r ≡ Ok any.now.packet) }
        ensures taken { IsFirst bytes.now any.now.packet → FindsPacket (take any.now.packet.length bytes.now) any.now.reading
            → IfOk result (λ _. (before : List ℕ) → TracksJudged self.old before
            → length (before ++ take any.now.packet.length bytes.now) < 2 ^ 63
            → TracksJudged self.new (before ++ take any.now.packet.length bytes.now)) }
        ensures closed { self.new.closed ≡ self.old.closed }
    {
        self.take_read(&any.reading, &bytes[..any.packet.length])?;
        Ok(Ok(any.packet))
    }

    /// Whether a packet breaks a rule. What comes after it isn't read as this recorder's.
    fn is_broken(&self) -> bool
        ensures { result ≡ is_some self.now.broken }
    {
        self.broken.is_some()
    }

    /// Whether the packets so far are a strict file, whatever its directory entry is: closed by an
    /// index, or without index packets.
    pub fn is_strict(&self) -> bool
        ensures { (bytes : List ℕ) → TracksJudged self.now bytes → self.now.closed ≡ true → (IsTrue result ↔ IsStrict bytes) }
    {
        match self.broken {
            None => self.is_whole(),
            Some(_) => false,
        }
    }

    /// Where and how the file that ends here is at fault under its directory entry; `None` where it is a
    /// strict file with that closing.
    pub fn end(&self) -> Option<FirstFault>
        ensures { (bytes : List ℕ) → TracksJudged self.now bytes
            → MatchOption result (SaysClosed bytes self.now.closed) (λ at. IsAtFault bytes self.now.closed at.offset at.fault) }
    {
        match self.first_broken() {
            Some(at) => Some(at),
            None => self.end_of_packets(),
        }
    }

    /// What is kept of the packets of a strict file with the closing of its directory entry; else where and
    /// how the file is at fault that ends here.
    pub fn finish(self) -> Result<Tracks, FirstFault>
        ensures { (bytes : List ℕ) → TracksJudged self bytes → MatchResult result
            (λ tracks. TracksStrictFile self.closed tracks bytes) (λ at. IsAtFault bytes self.closed at.offset at.fault) }
    {
        match self.first_broken() {
            Some(at) => Err(at),
            None => self.finish_packets(),
        }
    }

    /// What is kept of packets that keep the rules, or the fault of the file that ends after them.
    fn finish_packets(self) -> Result<Tracks, FirstFault>
        ensures { (bytes : List ℕ) → KeepsRulesSoFar self.closed self.tracks bytes → MatchResult result
            (λ tracks. TracksStrictFile self.closed tracks bytes) (λ at. IsAtFault bytes self.closed at.offset at.fault) }
    {
        match self.end_of_packets() {
            Some(missing) => Err(missing),
            None => Ok(self.tracks),
        }
    }

    /// Whether what stands next answers the report that stands last, where one does: it is a packet of the channel
    /// that the report names, and flagged.
    pub fn is_answered(&self, rest: &[u8]) -> bool
        ensures { TellsAnswer result self.now.tracks rest.now }
    {
        match self.tracks.report() {
            Some(loss) => answers(&loss, rest),
            None => true,
        }
    }

    /// Where and how the file is at fault whose next packet has this fault of framing, checksum or body: there, or
    /// where a packet before it breaks a rule. It is reported whether that packet answers the report that stands last.
    pub fn fault_behind(&self, fault: FileFault, answered: bool) -> FirstFault
        ensures { (before rest : List ℕ) → TracksJudged self.now before → (0 < length rest) ⊎ (length before ≡ 0)
            → HasFault rest fault → TellsAnswer answered self.now.tracks rest
            → IsAtFault (before ++ rest) self.now.closed result.offset result.fault }
    {
        match self.first_broken() {
            Some(at) => at,
            None => self.next_fault(fault, answered),
        }
    }

    /// The fault of a file whose packets keep the rules and whose next packet has this fault.
    fn next_fault(&self, fault: FileFault, answered: bool) -> FirstFault
        ensures { (before rest : List ℕ) → KeepsRulesSoFar self.now.closed self.now.tracks before
            → (0 < length rest) ⊎ (length before ≡ 0) → HasFault rest fault → TellsAnswer answered self.now.tracks rest
            → IsAtFault (before ++ rest) self.now.closed result.offset result.fault }
    {
        if !answered {
            return self.unanswered();
        }
        let offset = self.tracks.bytes();
        FirstFault { offset, fault }
    }

    /// The fault of a report that stands last and isn't answered.
    fn unanswered(&self) -> FirstFault
        ensures { (packets : List Packet) → IsTracked self.now.tracks packets → result ≡ unanswered_at packets }
    {
        let offset = self.tracks.bytes().saturating_sub(44);
        let fault = FileFault::Rule(11);
        FirstFault { offset, fault }
    }

    fn first_broken(&self) -> Option<FirstFault>
        ensures { result ≡ self.now.broken }
    {
        self.broken
    }

    /// The fault of a file whose packets keep the rules.
    fn end_of_packets(&self) -> Option<FirstFault>
        ensures { (bytes : List ℕ) → KeepsRulesSoFar self.now.closed self.now.tracks bytes
            → MatchOption result (SaysClosed bytes self.now.closed) (λ at. IsAtFault bytes self.now.closed at.offset at.fault) }
    {
        if self.tracks.report().is_some() {
            return Some(self.unanswered());
        }
        let offset = self.tracks.bytes();
        match self.missing() {
            Some(fault) => Some(FirstFault { offset, fault }),
            None => None,
        }
    }

    /// What is missing after packets that keep the rules: a first packet, a time, or the index.
    fn missing(&self) -> Option<FileFault>
        ensures { (bytes : List ℕ) (goes : KeepsRulesSoFar self.now.closed self.now.tracks bytes)
            → MayMiss self.now.closed goes.packets result }
    {
        let packets = self.tracks.packets();
        if packets == 0 {
            return Some(FileFault::Truncated);
        }
        if packets == 1 {
            return Some(FileFault::Rule(4));
        }
        self.missing_index()
    }

    /// That the index is missing, or nodes or a root of it, of a file with setup and time whose directory entry is closed.
    fn missing_index(&self) -> Option<FileFault>
        ensures { (bytes : List ℕ) (goes : KeepsRulesSoFar self.now.closed self.now.tracks bytes) → 2 ≤ length goes.packets
            → MayMiss self.now.closed goes.packets result }
    {
        if !self.closed {
            return None;
        }
        if self.tracks.has_whole_index() {
            return None;
        }
        Some(FileFault::Rule(8))
    }

    /// Whether the packets are two at least, have a whole index or no index packet, and no report stands last.
    fn is_whole(&self) -> bool
        ensures { (packets : List Packet) → IsTracked self.now.tracks packets
            → (IsTrue result ↔ ((2 ≤ length packets) × EndsIndex packets × EndsReports packets)) }
    {
        if self.tracks.packets() < 2 {
            return false;
        }
        if self.tracks.report().is_some() {
            return false;
        }
        self.has_all_or_none()
    }

    /// Whether the packets have a whole index or no index packet.
    fn has_all_or_none(&self) -> bool
        ensures { (packets : List Packet) → IsTracked self.now.tracks packets → (IsTrue result ↔ EndsIndex packets) }
    {
        self.tracks.has_whole_index() || !self.tracks.has_index()
    }

    /// Takes the next packet, which keeps the first three rules: it is added, or breaks another one.
    fn take_strict(&mut self, facts: &Facts, body: &[u8]) -> Result<(), AllocError>
        requires { self.old.broken ≡ None }
        ensures taken { (before : List ℕ) (p : Packet) (goes : KeepsRulesSoFar self.old.closed self.old.tracks before)
            → KeepsChecksums p → IsGapTold (last_report goes.packets) p → IsReportAnswered goes.packets (packet_bytes p)
            → AreFactsOf facts.now p → body.now ≡ packet_body p → FitsPacket p
            → length (before ++ packet_bytes p) < 2 ^ 63 → OnOk result (TracksJudged self.new (before ++ packet_bytes p)) }
        ensures kept { (before : List ℕ) → TracksJudged self.old before → OnErr result (TracksJudged self.new before) }
        ensures closed { self.new.closed ≡ self.old.closed }
    {
        match self.rule(facts, body) {
            Some(rule) => {
                self.stop(rule);
                Ok(())
            }
            None => self.tracks.add(facts),
        }
    }

    /// The least of the rules from 4 on that the next packet breaks.
    fn rule(&self, facts: &Facts, body: &[u8]) -> Option<u8>
        ensures { (packets : List Packet) (p : Packet) → IsTracked self.now.tracks packets → FitsPacket p
            → KeepsChecksums p → IsGapTold (last_report packets) p → AreFactsOf facts.now p → body.now ≡ packet_body p
            → BreaksRuleOfFileFirst self.now.closed packets p result }
    {
        let rule = self.tracks.rule(facts, body);
        if self.closed {
            return rule;
        }
        if !is_index(&facts.kind) {
            return rule;
        }
        Some(index_rule(rule))
    }

    /// Stops at the rule that the next packet breaks.
    fn stop(&mut self, rule: u8)
        ensures tracks { self.new.tracks ≡ self.old.tracks }
        ensures closed { self.new.closed ≡ self.old.closed }
        ensures broken { (packets : List Packet) → IsTracked self.old.tracks packets
            → self.new.broken ≡ Some (stopped_at packets rule) }
    {
        let offset = self.tracks.bytes();
        let fault = FileFault::Rule(rule);
        self.broken = Some(FirstFault { offset, fault });
    }

    /// Stops at the report that stands last.
    fn stop_at_report(&mut self)
        ensures tracks { self.new.tracks ≡ self.old.tracks }
        ensures closed { self.new.closed ≡ self.old.closed }
        ensures broken { (packets : List Packet) → IsTracked self.old.tracks packets
            → self.new.broken ≡ Some (unanswered_at packets) }
    {
        self.broken = Some(self.unanswered());
    }
}

/// Whether a flagged packet stands first that is of the channel of a report.
fn answers(loss: &LossBody, rest: &[u8]) -> bool
    ensures { IsTrue result ↔ IsFollowedByFlagged loss.now rest.now }
{
    match r10_packet::Packet::read(rest) {
        Ok((view, _)) => { view.header.channel == loss.channel && view.header.flags / 16 % 2 == 1 }
        Err(_) => false,
    }
}

/// The least rule that an index packet of an unclosed file breaks, beside those of the packets before it.
fn index_rule(rule: Option<u8>) -> u8
    ensures { result ≡ least_of_index rule }
{
    match rule {
        Some(rule) => rule.min(8),
        None => 8,
    }
}

fn is_index(kind: &PacketKind) -> bool
    ensures { (p : Packet) → kind.now ≡ kind_of p.content → result ≡ is_index_packet p }
{
    matches!(*kind, PacketKind::Node | PacketKind::Root)
}

/// The body of a packet without a fault of framing.
fn body_of(packet: &[u8]) -> &[u8]
    ensures { framing_fault packet.now ≡ None → result.now ≡ body_at packet.now }
{
    if packet.len() < 24 {
        return &[];
    }
    let size = u32::from_le_bytes([packet[8], packet[9], packet[10], packet[11]]) as usize;
    let rest = &packet[24..];
    &rest[..size.min(rest.len())]
}
