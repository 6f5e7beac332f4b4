//! What became of each message, compared with the files that are found.

use crate::list_source::{MESSAGES, is_message};
use crate::notes::Notes;
use crate::plan::Plan;
use crate::recovered::found_on;
use crate::session::EndedSession;
use crate::standing::{CHANNELS, RecorderState};
use r10_body::{Entry, Refusal};
use r10_medium::{Faulty, Memory};
use r10_shared::{FeedReport, SessionReport, audit};
use std::alloc::{AllocError, Global};

/// The messages of a channel among those that were found are these of its source, each once and in order, from this number on. It
/// answers how many there are, or None where one is another.
fn filed_from(entries: &[Entry], channel: u16, from: u64) -> Option<u64> {
    let mut filed = 0u64;
    for entry in entries {
        if entry.channel == channel {
            let number = from.saturating_add(filed);
            if !is_message(number, entry.count, &entry.message, entry.gap) {
                return None;
            }
            filed = filed.saturating_add(1);
        }
    }
    Some(filed)
}

/// Whether what is left are the messages of the source from this number on.
fn is_rest(report: &FeedReport, from: u64) -> bool {
    let mut number = from;
    for sample in &report.rest {
        if !is_message(number, sample.count, &sample.message, sample.gap) {
            return false;
        }
        number = number.saturating_add(1);
    }
    true
}

/// A feed's account: all messages were sent. The recorder took the first of them, of which erases took the first, and the files
/// have those after these; and the others are left. Each is there once and in order. Of a recorder that failed the files may lack
/// some. Of any other they have all, and the numbers are those that it had under its lock.
fn settle_feed(
    report: &FeedReport,
    entries: &[Entry],
    place: usize,
    standing: &RecorderState,
    call: u64,
    notes: &mut Notes,
) {
    let place = place.min(1);
    let taken = report.taken();
    let counted = report.erased.saturating_add(report.filed);
    notes.want(
        report.channel == CHANNELS[place],
        "a report is of another channel",
    );
    notes.want(
        report.accepted == u64::from(MESSAGES) && report.refused == 0,
        "not all messages of a feed were sent",
    );
    let Some(filed) = filed_from(entries, report.channel, report.erased) else {
        notes.want(false, "the files have other messages than the source");
        return;
    };
    if call == 0 {
        notes.want(
            filed == report.filed,
            "the files have other messages than the account says",
        );
        notes.want(counted == taken, "the numbers of a feed don't add up");
        notes.want(
            Some(report.erased) == standing.erased[place] && Some(counted) == standing.taken[place],
            "the end tells other numbers than the recorder had",
        );
    } else {
        notes.want(
            report.erased.saturating_add(filed) <= taken,
            "the files have more messages than the recorder took",
        );
        notes.want(
            counted <= taken,
            "the recorder counted more messages than it took",
        );
        notes.want(
            call > 1 || taken == 0,
            "a recorder that failed at its first call took messages",
        );
    }
    notes.want(
        is_rest(report, taken),
        "other messages are left than the account says",
    );
}

/// How many messages the reader wrote down.
fn read_in(report: &SessionReport<Faulty<Memory>>) -> u64 {
    let mut read = 0u64;
    for transcript in &report.transcripts {
        for instalment in &transcript.instalments {
            let entries = instalment.entries.as_slice().len() as u64;
            read = read.saturating_add(entries);
        }
    }
    read
}

/// Audits what the reader wrote down, and closes the file that is recorded, if one is, so that all that the recorder took in is
/// shown; both again where memory was refused.
pub fn audit_and_close(
    alloc: Global,
    report: &mut SessionReport<Faulty<Memory>>,
    plan: Plan,
    notes: &mut Notes,
) {
    let agreed = match audit(alloc, report) {
        Err(Refusal::OutOfMemory) => {
            notes.do_again("the audit was made again");
            audit(alloc, report)
        }
        other => other,
    };
    match agreed {
        Ok(agreed) => notes.want(
            agreed || plan.erases,
            "the reader wrote down what no file has",
        ),
        Err(_) => notes.want(false, "the audit was refused"),
    }
    let closed = match report.recorder.stop_file() {
        Ok(_) | Err(Refusal::NotRecording) => true,
        Err(Refusal::OutOfMemory) => {
            notes.do_again("the file was closed again");
            report.recorder.stop_file().is_ok()
        }
        Err(_) => false,
    };
    notes.want(closed, "the file was not closed");
}

/// Compares the account of a session with the files that a new recorder finds on the medium. The session was run over a medium of
/// which this call failed, from 1; or none, where it is 0.
pub fn settle(
    alloc: Global,
    ended: EndedSession,
    plan: Plan,
    call: u64,
    notes: &mut Notes,
) -> Result<(), AllocError> {
    let EndedSession {
        report,
        standing,
        ..
    } = ended;
    let read = read_in(&report);
    let SessionReport {
        recorder,
        feeds,
        ..
    } = report;
    let medium = recorder.into_medium().into_medium();
    let entries = found_on(alloc, &medium, notes)?;
    settle_feeds(
        feeds.as_slice(),
        entries.as_slice(),
        &standing,
        read,
        plan,
        call,
        notes,
    );
    Ok(())
}

/// Compares the reports of both feeds with these messages, of which the reader wrote down so many.
fn settle_feeds(
    feeds: &[FeedReport],
    entries: &[Entry],
    standing: &RecorderState,
    read: u64,
    plan: Plan,
    call: u64,
    notes: &mut Notes,
) {
    notes.want(feeds.len() == 2, "there are not two reports");
    let mut left = 0u64;
    for (place, feed) in feeds.iter().enumerate() {
        settle_feed(feed, entries, place, standing, call, notes);
        left = left.saturating_add(feed.rest.len() as u64);
    }
    let all = u64::from(MESSAGES) * 2;
    if call > 0 {
        notes.want(
            plan.erases || read <= entries.len() as u64,
            "the files have fewer messages than the reader was shown",
        );
    } else if plan.is_unwritten {
        notes.want(left == all, "something was written");
    } else if left > 0 || (!plan.stops && read < all) {
        notes.do_again("a worker ended early");
    }
}
