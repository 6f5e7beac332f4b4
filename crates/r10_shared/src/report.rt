//! What became of a session.

ghost use Rattle.std.specs.Prelude.{◌≡◌, ◌↔◌, ◌-◌, IfErr, IfOk, IsTrue, None, OnOk, length};
ghost use Rattle.r10_held.specs.Auditing.{AreAbsentOrRead, IsFirstRefused, audit_refusal};
ghost use Rattle.r10_held.specs.Recorder.{OnlyReads, RefusesCall};
ghost use Rattle.r10_held.specs.Transcripts.{AllAgree};

use r10_body::{Refusal, Sample};
use r10_held::{Recorder, Transcript, audit_all};
use r10_lane::Spent;
use r10_medium::BlockMedium;
use r10_port::Outlet;
use std::alloc::Global;
use std::snapshot::Snapshot;

/// What became of the messages of a feed, each number up to `u64::MAX`. Of a session whose recorder failed, `erased` and `filed`
/// are what the recorder had counted: what the failed call took is in neither, and what was not committed may be in no file.
#[derive(Drop)]
pub struct FeedReport {
    pub channel: u16,
    /// The messages that were sent: the erased ones, then the filed ones, then the rest.
    pub accepted: u64,
    /// The messages that the port refused.
    pub refused: u64,
    /// The messages that were lost: refused because the port was full, or lost before they were offered.
    pub lost: u64,
    /// The messages that erases took.
    pub erased: u64,
    /// The messages in the recorder's own files.
    pub filed: u64,
    /// The messages that the recorder did not take in, in order.
    pub rest: Vec<Sample>,
}

impl FeedReport {
    /// How many messages the recorder took from the feed's lane: all that were sent, but the rest.
    pub fn taken(&self) -> u64
        ensures { result ≡ self.now.accepted - length self.now.rest.items }
    {
        self.accepted.saturating_sub(self.rest.len() as u64)
    }
}

/// What became of a session: the recorder, with lanes that give nothing; of each feed its report; and what the players wrote down.
#[derive(Drop)]
pub struct SessionReport<M: BlockMedium> {
    pub recorder: Recorder<M, Spent>,
    pub feeds: Vec<FeedReport>,
    pub transcripts: Vec<Transcript>,
    /// The recorder's lanes before the rest was taken out of them, for contracts alone: it has no bytes.
    pub lanes: Snapshot<Vec<Outlet>>,
}

/// Whether what the players wrote down agrees with the recorder's files as they stand: each transcript's file is there, each
/// instalment begins where the one before it ended, and has what was wanted between its places, in order. Refused: Failed, BadFile
/// of the first that doesn't agree, Medium, OutOfMemory.
pub fn audit<M: BlockMedium>(alloc: Global, report: &mut SessionReport<M>) -> Result<bool, Refusal>
    ensures agrees { IfOk result (λ yes. IsTrue yes
        ↔ AllAgree report.old.recorder.kept.work (M.disk report.old.recorder.medium).blocks report.old.transcripts.items) }
    ensures there { OnOk result
        (AreAbsentOrRead report.old.recorder.kept.work (M.disk report.old.recorder.medium).blocks report.old.transcripts.items) }
    ensures passed { OnOk result (audit_refusal report.old.recorder.kept ≡ None) }
    ensures refused { IfErr result (RefusesCall M.disk (audit_refusal report.old.recorder.kept)
        (IsFirstRefused report.old.recorder.kept.work (M.disk report.old.recorder.medium).blocks report.old.transcripts.items)
        report.old.recorder.kept report.new.recorder.kept report.old.recorder.medium report.new.recorder.medium) }
    ensures reads { OnlyReads M.disk report.old.recorder report.new.recorder result }
    ensures same { (report.new.feeds ≡ report.old.feeds) × (report.new.transcripts ≡ report.old.transcripts)
        × (report.new.lanes ≡ report.old.lanes) }
{
    audit_all(alloc, &mut report.recorder, report.transcripts.as_slice())
}
