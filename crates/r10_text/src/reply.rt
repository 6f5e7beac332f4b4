//! The lines of a reply.

ghost use Rattle.r10_count.specs.Printed.{shown_byte};
ghost use Rattle.std.specs.Prelude.{◌≡◌, ◌<◌, IfOk, map, string_bytes};
ghost use Rattle.std.specs.List.{flat_map};
ghost use Rattle.r10_text.specs.Replies.{channel_line, file_line, file_lines, found_text, mode_text, reply_lines, reply_rest};
ghost use Rattle.r10_text.specs.Replies.{reply_text, status_text, tick_text};

use crate::line::{entry_text, flag_text};
use crate::refusal::refusal_text;
use r10_count::Count;
use r10_machine::{ChannelStatus, FileInfo, Found, Mode, Reply, Status};
use std::alloc::{AllocError, Global};

/// The lines of the reply to the step of this number, each with its line feed. The first one begins with the number; after it
/// stands a line for each file that is listed, or for each channel of a status.
pub fn reply_lines(alloc: Global, number: usize, reply: &Reply) -> Result<String, AllocError>
    ensures { IfOk result (λ lines. string_bytes lines ≡ reply_lines number reply.now) }
{
    let text = reply_text(alloc, reply)?;
    let rest = reply_rest(alloc, reply)?;
    let mut lines = format!(in alloc; "{number} {text}\n")?;
    lines.push_str(&rest)?;
    Ok(lines)
}

fn reply_text(alloc: Global, reply: &Reply) -> Result<String, AllocError>
    ensures { IfOk result (λ text. string_bytes text ≡ reply_text reply.now) }
{
    match reply {
        Reply::Done => String::from_str(alloc, "ok"),
        Reply::Moved(moved) => format!(in alloc; "moved {moved}"),
        Reply::Stopped(stopped) => {
            let (taken, left) = (stopped.taken, stopped.left);
            format!(in alloc; "stopped {taken} {left}")
        }
        Reply::Files(files) => {
            let count = files.len();
            format!(in alloc; "files {count}")
        }
        Reply::Status(status) => status_text(alloc, status),
        Reply::Cursor(id) => format!(in alloc; "cursor {id}"),
        Reply::Advanced(queued) => format!(in alloc; "advanced {queued}"),
        Reply::Next(Some(entry)) => entry_text(alloc, entry),
        Reply::Found(Some(found)) => found_text(alloc, found),
        Reply::CountAt(Some(count)) => {
            let count = count.get();
            format!(in alloc; "count {count}")
        }
        Reply::Next(None) | Reply::Found(None) | Reply::CountAt(None) => {
            String::from_str(alloc, "none")
        }
        Reply::Refused(refusal) => refusal_text(alloc, refusal),
    }
}

/// An entry that was found, after its number on its channel.
fn found_text(alloc: Global, found: &Found) -> Result<String, AllocError>
    ensures { IfOk result (λ text. string_bytes text ≡ found_text found.now) }
{
    let number = found.number;
    let entry = entry_text(alloc, &found.entry)?;
    format!(in alloc; "found {number} {entry}")
}

/// The first line of a status, without the channels.
fn status_text(alloc: Global, status: &Status) -> Result<String, AllocError>
    ensures { IfOk result (λ text. string_bytes text ≡ status_text status.now) }
{
    let mode = mode_text(status.mode);
    let tick = tick_text(alloc, status.tick)?;
    let (files, free) = (status.files, status.free);
    format!(in alloc; "status {mode} {tick} {files} {free}")
}

fn mode_text(mode: Mode) -> &'static str
    ensures { result.now ≡ mode_text mode }
{
    match mode {
        Mode::Unmounted => "unmounted",
        Mode::Idle => "idle",
        Mode::Recording => "recording",
        Mode::Failed => "failed",
    }
}

/// The count of the last tick, `-` where there was none.
fn tick_text(alloc: Global, tick: Option<Count>) -> Result<String, AllocError>
    ensures { IfOk result (λ text. string_bytes text ≡ tick_text tick) }
{
    match tick {
        Some(count) => {
            let count = count.get();
            format!(in alloc; "{count}")
        }
        None => String::from_str(alloc, "-"),
    }
}

/// The lines after the first one.
fn reply_rest(alloc: Global, reply: &Reply) -> Result<String, AllocError>
    ensures { IfOk result (λ text. string_bytes text ≡ reply_rest reply.now) }
{
    match reply {
        Reply::Files(files) => file_lines(alloc, files.as_slice()),
        Reply::Status(status) => channel_lines(alloc, status.channels.as_slice()),
        _ => Ok(String::new(alloc)),
    }
}

/// A line for each file, in order.
fn file_lines(alloc: Global, files: &[FileInfo]) -> Result<String, AllocError>
    ensures { IfOk result (λ lines. string_bytes lines ≡ file_lines 0 files.now) }
{
    let mut lines = String::new(alloc);
    for (number, file) in files.iter().enumerate() {
        let line = file_line(alloc, number, file)?;
        lines.push_str(&line)?;
    }
    Ok(lines)
}

fn file_line(alloc: Global, number: usize, file: &FileInfo) -> Result<String, AllocError>
    ensures { IfOk result (λ line. string_bytes line ≡ file_line number file.now) }
{
    let name = shown_name(alloc, file.name.as_slice())?;
    let (size, blocks) = (file.size, file.blocks);
    let closed = flag_text(file.closed);
    format!(in alloc; "file {number} {name} {size} {blocks} {closed}\n")
}

/// The name, with `?` in place of a byte that no name has.
fn shown_name(alloc: Global, name: &[u8]) -> Result<String, AllocError>
    ensures { IfOk result (λ text. string_bytes text ≡ map shown_byte name.now) }
{
    let mut text = String::new(alloc);
    for byte in name {
        text.push(char::from(shown_byte(*byte)))?;
    }
    Ok(text)
}

fn shown_byte(byte: u8) -> u8
    ensures byte { result ≡ shown_byte byte }
    ensures ascii { result < 128 }
{
    match byte {
        b'0'..=b'9' | b'A'..=b'Z' | b'a'..=b'z' | b'.' | b'_' | b'-' => byte,
        _ => b'?',
    }
}

/// A line for each channel, in order.
fn channel_lines(alloc: Global, channels: &[ChannelStatus]) -> Result<String, AllocError>
    ensures { IfOk result (λ lines. string_bytes lines ≡ flat_map channel_line channels.now) }
{
    let mut lines = String::new(alloc);
    for channel in channels {
        let line = channel_line(alloc, *channel)?;
        lines.push_str(&line)?;
    }
    Ok(lines)
}

fn channel_line(alloc: Global, status: ChannelStatus) -> Result<String, AllocError>
    ensures { IfOk result (λ line. string_bytes line ≡ channel_line status) }
{
    let ChannelStatus {
        channel,
        waiting,
        lost,
        erased,
    } = status;
    format!(in alloc; "channel {channel} {waiting} {lost} {erased}\n")
}
