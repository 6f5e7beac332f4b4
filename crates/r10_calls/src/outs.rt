//! What a call leaves in the memory that was lent to it, by its reply: what the reply tells, or what was there.

ghost use Rattle.std.specs.Prelude.{◌≡◌};
ghost use Rattle.r10_calls.specs.Outs.{cursor_in, left_out, moved_in, queued_in, taken_out};
ghost use Rattle.r10_calls.specs.Reading.{count_in, found_in, is_count_in, lent, next_out, place_in};

use crate::entry_out::{EntryOut, put_entry};
use r10_machine::Reply;

/// How many messages were moved.
pub(crate) fn moved_in(reply: &Reply, old: usize) -> usize
    ensures { result ≡ moved_in reply.now old }
{
    match reply {
        Reply::Moved(count) => *count,
        _ => old,
    }
}

/// How many messages a stop took.
pub(crate) fn taken_in(reply: &Reply, old: usize) -> usize
    ensures { result ≡ taken_out reply.now old }
{
    match reply {
        Reply::Stopped(stopped) => stopped.taken,
        _ => old,
    }
}

/// How many messages a stop left.
pub(crate) fn left_in(reply: &Reply, old: usize) -> usize
    ensures { result ≡ left_out reply.now old }
{
    match reply {
        Reply::Stopped(stopped) => stopped.left,
        _ => old,
    }
}

/// The number of a cursor.
pub(crate) fn cursor_in(reply: &Reply, old: usize) -> usize
    ensures { result ≡ cursor_in reply.now old }
{
    match reply {
        Reply::Cursor(id) => *id,
        _ => old,
    }
}

/// How many entries were queued.
pub(crate) fn queued_in(reply: &Reply, old: usize) -> usize
    ensures { result ≡ queued_in reply.now old }
{
    match reply {
        Reply::Advanced(count) => *count,
        _ => old,
    }
}

/// The number of what was found, on its channel.
pub(crate) fn place_in(reply: &Reply, old: usize) -> usize
    ensures { result ≡ place_in reply.now old }
{
    match reply {
        Reply::Found(Some(found)) => found.number,
        _ => old,
    }
}

/// Whether a count was reported.
pub(crate) fn is_count_in(reply: &Reply, old: bool) -> bool
    ensures { result ≡ is_count_in reply.now old }
{
    match reply {
        Reply::CountAt(Some(_)) => true,
        Reply::CountAt(None) => false,
        _ => old,
    }
}

/// The count that was reported.
pub(crate) fn count_in(reply: &Reply, old: u64) -> u64
    ensures { result ≡ count_in reply.now old }
{
    match reply {
        Reply::CountAt(Some(count)) => count.get(),
        _ => old,
    }
}

/// Puts the entry that a cursor gave.
pub(crate) fn put_next(
    reply: &Reply,
    there: &mut bool,
    out: &mut EntryOut,
    bytes: &mut [u8],
    words: &mut [u16],
)
    ensures { lent there.new out.new bytes.new words.new ≡ next_out reply.now (lent there.old out.old bytes.old words.old) }
{
    match reply {
        Reply::Next(Some(entry)) => {
            *there = true;
            put_entry(entry, out, bytes, words);
        }
        Reply::Next(None) => *there = false,
        _ => (),
    }
}

/// Puts the entry that was found.
pub(crate) fn put_found(
    reply: &Reply,
    there: &mut bool,
    out: &mut EntryOut,
    bytes: &mut [u8],
    words: &mut [u16],
)
    ensures { lent there.new out.new bytes.new words.new ≡ found_in reply.now (lent there.old out.old bytes.old words.old) }
{
    match reply {
        Reply::Found(Some(found)) => {
            *there = true;
            put_entry(&found.entry, out, bytes, words);
        }
        Reply::Found(None) => *there = false,
        _ => (),
    }
}
