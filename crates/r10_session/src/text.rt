//! The text of what came of a session.

ghost use Rattle.std.specs.Prelude.{◌≡◌, ◌++◌, ℕ, List, IfOk, codes, string_bytes};
ghost use Rattle.r10_session.specs.Text.{audit_line, feed_line, feed_lines, feed_part, is_asked, kept_text};
ghost use Rattle.r10_session.specs.Text.{lost_line, offered_text, reader_line};
ghost use Rattle.r10_session.specs.Text.{reader_lines, refused_line, session_text, step_lines};

use crate::ended::{Ended, FeedEnd, ReaderEnd};
use r10_body::Refusal;
use r10_machine::Reply;
use r10_text::reply_lines;
use std::alloc::{AllocError, Global};

/// The line of a refusal: that of a reply without its number.
fn refusal_line(alloc: Global, refusal: Refusal) -> Result<String, AllocError>
    ensures { IfOk result (λ line. string_bytes line ≡ refused_line refusal) }
{
    let lines = reply_lines(alloc, 0, &Reply::Refused(refusal))?;
    String::from_str(alloc, behind_number(lines.as_str()))
}

/// What stands after the number 0 in a line.
fn behind_number(line: &str) -> &str
    ensures { (rest : List ℕ) → line.now ≡ codes "0 " ++ rest → result.now ≡ rest }
{
    match line.strip_prefix("0 ") {
        Some(rest) => rest,
        None => line,
    }
}

/// A feed's channel, and how many of its messages were accepted and refused.
fn offered_text(alloc: Global, end: &FeedEnd) -> Result<String, AllocError>
    ensures { IfOk result (λ text. string_bytes text ≡ offered_text end.now) }
{
    let (channel, accepted, refused) = (end.channel, end.accepted, end.refused);
    format!(in alloc; "feed {channel} accepted {accepted} refused {refused}")
}

/// Where the accepted messages are.
fn kept_text(alloc: Global, end: &FeedEnd) -> Result<String, AllocError>
    ensures { IfOk result (λ text. string_bytes text ≡ kept_text end.now) }
{
    let (erased, filed, rest) = (end.erased, end.filed, end.rest);
    format!(in alloc; "erased {erased} filed {filed} rest {rest}")
}

/// The line of a feed.
fn feed_line(alloc: Global, end: &FeedEnd) -> Result<String, AllocError>
    ensures { IfOk result (λ line. string_bytes line ≡ feed_line end.now) }
{
    let offered = offered_text(alloc, end)?;
    let kept = kept_text(alloc, end)?;
    format!(in alloc; "{offered} {kept}\n")
}

/// The line of what a feed's channel lost.
fn lost_line(alloc: Global, end: &FeedEnd) -> Result<String, AllocError>
    ensures { IfOk result (λ line. string_bytes line ≡ lost_line end.now) }
{
    let (channel, lost) = (end.channel, end.lost);
    format!(in alloc; "lost {channel} {lost}\n")
}

/// The line of a feed, and that of its losses if it is asked for.
fn feed_part(alloc: Global, asked: bool, end: &FeedEnd) -> Result<String, AllocError>
    ensures { IfOk result (λ text. string_bytes text ≡ feed_part asked end.now) }
{
    let line = feed_line(alloc, end)?;
    if !asked {
        return Ok(line);
    }
    let lost = lost_line(alloc, end)?;
    format!(in alloc; "{line}{lost}")
}

/// Whether the losses of the feed of this number are asked for.
fn is_asked(asked: &[bool], number: usize) -> bool
    ensures { result ≡ is_asked asked.now number }
{
    match asked.get(number) {
        Some(yes) => *yes,
        None => false,
    }
}

/// The line of a reader of this number.
fn reader_line(alloc: Global, number: usize, end: &ReaderEnd) -> Result<String, AllocError>
    ensures { IfOk result (λ line. string_bytes line ≡ reader_line number end.now) }
{
    match end {
        ReaderEnd::Refused(refusal) => refusal_line(alloc, *refusal),
        ReaderEnd::Read(entries) => format!(in alloc; "reader {number} entries {entries}\n"),
    }
}

/// The line of an audit.
fn audit_line(alloc: Global, answer: Result<bool, Refusal>) -> Result<String, AllocError>
    ensures { IfOk result (λ line. string_bytes line ≡ audit_line answer) }
{
    match answer {
        Ok(true) => String::from_str(alloc, "audit yes\n"),
        Ok(false) => String::from_str(alloc, "audit no\n"),
        Err(refusal) => refusal_line(alloc, refusal),
    }
}

/// The lines of the replies to steps, numbered from 1.
fn steps_text(alloc: Global, replies: &[Reply]) -> Result<String, AllocError>
    ensures { IfOk result (λ lines. string_bytes lines ≡ step_lines 0 replies.now) }
{
    let mut lines = String::new(alloc);
    for (place, reply) in replies.iter().enumerate() {
        let line = reply_lines(alloc, place + 1, reply)?;
        lines.push_str(&line)?;
    }
    Ok(lines)
}

/// The lines of feeds, with their losses where these are asked for.
fn feeds_text(alloc: Global, asked: &[bool], feeds: &[FeedEnd]) -> Result<String, AllocError>
    ensures { IfOk result (λ lines. string_bytes lines ≡ feed_lines asked.now 0 feeds.now) }
{
    let mut lines = String::new(alloc);
    for (number, end) in feeds.iter().enumerate() {
        let part = feed_part(alloc, is_asked(asked, number), end)?;
        lines.push_str(&part)?;
    }
    Ok(lines)
}

/// The lines of readers, numbered from 0.
fn readers_text(alloc: Global, readers: &[ReaderEnd]) -> Result<String, AllocError>
    ensures { IfOk result (λ lines. string_bytes lines ≡ reader_lines 0 readers.now) }
{
    let mut lines = String::new(alloc);
    for (number, end) in readers.iter().enumerate() {
        let line = reader_line(alloc, number, end)?;
        lines.push_str(&line)?;
    }
    Ok(lines)
}

/// The lines of what came of a session: of the replies to its steps, of its feeds and its readers, and of the audit.
/// After the line of a feed whose losses are asked for stands that of what its channel lost.
pub fn session_text(alloc: Global, asked: &[bool], ended: &Ended) -> Result<String, AllocError>
    ensures { IfOk result (λ text. string_bytes text ≡ session_text asked.now ended.now) }
{
    let steps = steps_text(alloc, ended.replies.as_slice())?;
    let feeds = feeds_text(alloc, asked, ended.feeds.as_slice())?;
    let readers = readers_text(alloc, ended.readers.as_slice())?;
    let audit = audit_line(alloc, ended.audit)?;
    let mut text = steps;
    text.push_str(&feeds)?;
    text.push_str(&readers)?;
    text.push_str(&audit)?;
    Ok(text)
}
