//! What is reported of a session, by its report.

ghost use Rattle.std.specs.Prelude.{◌≡◌, ◌↔◌, IfOk, IsTrue, map};
ghost use Rattle.r10_medium.specs.MemoryDisk.{memory_disk};
ghost use Rattle.r10_session.specs.Counting.{entries_in};
ghost use Rattle.r10_session.specs.Feeds.{feed_end};
ghost use Rattle.r10_session.specs.Readers.{fill};
ghost use Rattle.r10_shared.specs.Recorder.{AllAgree};

use crate::ended::{Ended, FeedEnd, Left};
use crate::fault::SessionFault;
use crate::readers::reader_ends;
use r10_body::Refusal;
use r10_machine::Reply;
use r10_medium::Memory;
use r10_shared::{FeedReport, SessionReport, Transcript, audit};
use std::alloc::{AllocError, Global};

/// What a report tells of a feed.
fn feed_end(report: &FeedReport) -> FeedEnd
    ensures { result ≡ feed_end report.now }
{
    FeedEnd {
        channel: report.channel,
        accepted: report.accepted,
        refused: report.refused,
        lost: report.lost,
        erased: report.erased,
        filed: report.filed,
        rest: report.rest.len(),
    }
}

/// What reports tell of feeds, in their order.
fn feed_ends(alloc: Global, reports: &[FeedReport]) -> Result<Vec<FeedEnd>, AllocError>
    ensures { IfOk result (λ ends. ends.items ≡ map feed_end reports.now) }
{
    let mut ends = Vec::new(alloc);
    for report in reports {
        ends.push(feed_end(report))?;
    }
    Ok(ends)
}

/// How many entries a transcript has, up to `usize::MAX`.
fn entries_in(transcript: &Transcript) -> usize
    ensures { result ≡ entries_in transcript.now.instalments.items }
{
    let mut entries = 0usize;
    for instalment in &transcript.instalments {
        entries = entries.saturating_add(instalment.entries.len());
    }
    entries
}

/// How many entries each transcript has.
fn numbers_of(alloc: Global, transcripts: &[Transcript]) -> Result<Vec<usize>, AllocError>
    ensures { IfOk result (λ numbers. numbers.items ≡ map (λ transcript. entries_in transcript.instalments.items) transcripts.now) }
{
    let mut numbers = Vec::new(alloc);
    for transcript in transcripts {
        numbers.push(entries_in(transcript))?;
    }
    Ok(numbers)
}

/// What an audit of the report says. Where memory is refused it says nothing. The medium is only read.
fn audit_answer(
    alloc: Global,
    report: &mut SessionReport<Memory>,
) -> Result<Result<bool, Refusal>, AllocError>
    ensures says { IfOk result (λ answer. IfOk answer (λ yes. IsTrue yes
        ↔ AllAgree report.old.recorder.kept.work (memory_disk report.old.recorder.medium).blocks report.old.transcripts.items)) }
    ensures same { (report.new.feeds ≡ report.old.feeds) × (report.new.transcripts ≡ report.old.transcripts) }
    ensures medium { (memory_disk report.new.recorder.medium).blocks ≡ (memory_disk report.old.recorder.medium).blocks }
{
    match audit(alloc, report) {
        Err(Refusal::OutOfMemory) => Err(AllocError),
        Ok(yes) => Ok(Ok(yes)),
        Err(refusal) => Ok(Err(refusal)),
    }
}

/// What a session left, by its report: the audit is done.
pub(crate) fn settle(
    alloc: Global,
    report: SessionReport<Memory>,
    replies: Vec<Reply>,
    refused: &[Option<Refusal>],
) -> Result<Left, SessionFault>
    ensures replies { IfOk result (λ left. left.ended.replies.items ≡ replies.items) }
    ensures feeds { IfOk result (λ left. left.ended.feeds.items ≡ map feed_end report.feeds.items) }
    ensures readers { IfOk result (λ left. left.ended.readers.items
        ≡ fill refused.now (map (λ transcript. entries_in transcript.instalments.items) report.transcripts.items)) }
    ensures audited { IfOk result (λ left. IfOk left.ended.audit (λ yes. IsTrue yes
        ↔ AllAgree report.recorder.kept.work (memory_disk report.recorder.medium).blocks report.transcripts.items)) }
    ensures medium { IfOk result (λ left. (memory_disk left.medium).blocks ≡ (memory_disk report.recorder.medium).blocks) }
{
    let mut report = report;
    let audit = audit_answer(alloc, &mut report)?;
    let feeds = feed_ends(alloc, report.feeds.as_slice())?;
    let numbers = numbers_of(alloc, report.transcripts.as_slice())?;
    let readers = reader_ends(alloc, refused, numbers.as_slice())?;
    let ended = Ended {
        replies,
        feeds,
        readers,
        audit,
    };
    let medium = report.recorder.into_medium();
    Ok(Left { ended, medium })
}
