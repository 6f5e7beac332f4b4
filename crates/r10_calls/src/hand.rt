//! The entry that a reader's program has in hand, which knows its length before it lends memory.

ghost use Rattle.std.specs.Prelude.{◌≡◌, ◌≤◌, ◌<◌, ◌⊎◌, Some, None, length};
ghost use Rattle.r10_body.specs.declared.entry.Entry.{Entry};
ghost use Rattle.r10_body.specs.Statuses.{place_status, room_status};
ghost use Rattle.r10_calls.specs.Copies.{copied};
ghost use Rattle.r10_calls.specs.Entries.{out_bytes, words_of};
ghost use Rattle.r10_calls.specs.Hand.{TakesInHand, entry_in, is_next_in, next_fields};
ghost use Rattle.r10_calls.specs.EventCalls.{KeepsMedium, reply_number};

use crate::copies::copy_front;
use crate::desk::{Desk, reply_number};
use crate::entry_out::{EntryOut, bytes_of, fields, words_of};
use r10_body::Entry;
use r10_body::status::{PLACE, ROOM};
use r10_machine::{Event, Reply};
use r10_region::SteadyMedium;

/// Whether a cursor gave an entry.
pub(crate) fn is_next_in(reply: &Reply, old: bool) -> bool
    ensures { result ≡ is_next_in reply.now old }
{
    match reply {
        Reply::Next(Some(_)) => true,
        Reply::Next(None) => false,
        _ => old,
    }
}

/// The fields of the entry that a cursor gave.
pub(crate) fn next_fields(reply: &Reply, old: EntryOut) -> EntryOut
    ensures { result ≡ next_fields reply.now old }
{
    match reply {
        Reply::Next(Some(entry)) => fields(entry),
        _ => old,
    }
}

/// Copies the bytes or words of an entry: 0, or 42 where there is less room than it has of them.
fn copy_entry(entry: &Entry, bytes: &mut [u8], words: &mut [u16]) -> u32
    ensures copies { length (out_bytes entry.now) ≤ length bytes.old → length (words_of entry.now) ≤ length words.old
        → (result ≡ 0) × (bytes.new ≡ copied (out_bytes entry.now) bytes.old)
        × (words.new ≡ copied (words_of entry.now) words.old) }
    ensures room { (length bytes.old < length (out_bytes entry.now)) ⊎ (length words.old < length (words_of entry.now))
        → (result ≡ room_status) × (bytes.new ≡ bytes.old) × (words.new ≡ words.old) }
{
    let (from, words_from) = (bytes_of(entry), words_of(entry));
    if bytes.len() < from.len() || words.len() < words_from.len() {
        return ROOM;
    }
    copy_front(from, bytes);
    copy_front(words_from, words);
    0
}

impl<M: SteadyMedium + Drop> Desk<M> {
    /// Takes the first entry of a cursor's queue into the hand, if there is one, and gives its fields: 0, or 21, 30. What was in
    /// hand is gone.
    pub fn take(&mut self, id: usize, there: &mut bool, out: &mut EntryOut) -> u32
        ensures does { TakesInHand M.disk self.old id (λ reply. (result ≡ reply_number reply)
            × (there.new ≡ is_next_in reply there.old) × (out.new ≡ next_fields reply out.old)) self.new }
        ensures stays { KeepsMedium M.identity self.old self.new }
    {
        let reply = self.tell(Event::Next { id });
        *there = is_next_in(&reply, *there);
        *out = next_fields(&reply, *out);
        let number = reply_number(&reply);
        self.hand = reply;
        number
    }

    /// Copies the bytes or words of the entry in hand: 0, or 42 where there is less room than it has of them, or 43 where there is
    /// none in hand.
    pub fn copy(&self, bytes: &mut [u8], words: &mut [u16]) -> u32
        ensures none { entry_in self.now.hand ≡ None → (result ≡ place_status) × (bytes.new ≡ bytes.old) × (words.new ≡ words.old) }
        ensures copies { (e : Entry) → entry_in self.now.hand ≡ Some e → length (out_bytes e) ≤ length bytes.old
            → length (words_of e) ≤ length words.old
            → (result ≡ 0) × (bytes.new ≡ copied (out_bytes e) bytes.old) × (words.new ≡ copied (words_of e) words.old) }
        ensures room { (e : Entry) → entry_in self.now.hand ≡ Some e
            → (length bytes.old < length (out_bytes e)) ⊎ (length words.old < length (words_of e))
            → (result ≡ room_status) × (bytes.new ≡ bytes.old) × (words.new ≡ words.old) }
    {
        match &self.hand {
            Reply::Next(Some(entry)) => copy_entry(entry, bytes, words),
            _ => PLACE,
        }
    }
}
