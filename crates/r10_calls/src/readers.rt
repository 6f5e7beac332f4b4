//! Readers: cursors on files, and what is found in them.

ghost use Rattle.std.specs.Prelude.{◌≡◌, ◌≤◌, ◌<◌, ◌⊎◌, length};
ghost use Rattle.r10_body.specs.Statuses.{room_status};
ghost use Rattle.r10_calls.specs.Outs.{cursor_in, queued_in};
ghost use Rattle.r10_calls.specs.Reading.{count_in, found_in, is_count_in, lent, next_out, place_in};
ghost use Rattle.r10_calls.specs.EventCalls.{DoesEvent, KeepsMedium, reply_number};
ghost use Rattle.r10_machine.specs.declared.event.Event.TheVariants as events;

use crate::desk::{Desk, reply_number};
use crate::entry_out::{EntryOut, MOST_BYTES, MOST_WORDS};
use crate::outs::{count_in, cursor_in, is_count_in, place_in, put_found, put_next, queued_in};
use r10_body::status::{OUT_OF_MEMORY, ROOM};
use r10_count::{Items, Parts};
use r10_machine::Event;
use r10_region::SteadyMedium;

impl<M: SteadyMedium + Drop> Desk<M> {
    /// Opens a cursor on a file, for these channels, or all where there are none, and counts from `from` to `to`: 0, or 1, 2, 10,
    /// 19, 27, 28, 30.
    pub fn cursor(
        &mut self,
        file: usize,
        channels: &[u16],
        from: u64,
        to: u64,
        id: &mut usize,
    ) -> u32
        ensures does { DoesEvent M.disk self.old (events.Cursor file channels.now from to)
            (λ reply. (result ≡ reply_number reply) × (id.new ≡ cursor_in reply id.old)) self.new }
        ensures stays { KeepsMedium M.identity self.old self.new }
    {
        let Ok(channels) = Vec::from_slice(self.alloc, channels) else {
            return OUT_OF_MEMORY;
        };
        let channels = Items::of(channels);
        let reply = self.tell(Event::Cursor {
            file,
            channels,
            from,
            to,
        });
        *id = cursor_in(&reply, *id);
        reply_number(&reply)
    }

    /// Queues a cursor's next instalment, and says how many entries: 0, or 1, 2, 20, 21, 22, 27, 28, 30.
    pub fn advance(&mut self, id: usize, queued: &mut usize) -> u32
        ensures does { DoesEvent M.disk self.old (events.Advance id)
            (λ reply. (result ≡ reply_number reply) × (queued.new ≡ queued_in reply queued.old)) self.new }
        ensures stays { KeepsMedium M.identity self.old self.new }
    {
        let reply = self.tell(Event::Advance { id });
        *queued = queued_in(&reply, *queued);
        reply_number(&reply)
    }

    /// Takes the first entry of a cursor's queue, if there is one: 0, or 21, 30, or 42 where there is room for fewer than 65,535
    /// bytes or 36 words; then nothing is taken.
    pub fn next(
        &mut self,
        id: usize,
        there: &mut bool,
        out: &mut EntryOut,
        bytes: &mut [u8],
        words: &mut [u16],
    ) -> u32
        ensures does { 65_535 ≤ length bytes.old → 36 ≤ length words.old
            → DoesEvent M.disk self.old (events.Next id) (λ reply. (result ≡ reply_number reply)
            × (lent there.new out.new bytes.new words.new ≡ next_out reply (lent there.old out.old bytes.old words.old))) self.new }
        ensures room { (length bytes.old < 65_535) ⊎ (length words.old < 36) → (result ≡ room_status) × (self.new ≡ self.old)
            × (lent there.new out.new bytes.new words.new ≡ lent there.old out.old bytes.old words.old) }
        ensures stays { KeepsMedium M.identity self.old self.new }
    {
        if bytes.len() < MOST_BYTES || words.len() < MOST_WORDS {
            return ROOM;
        }
        let reply = self.tell(Event::Next { id });
        put_next(&reply, there, out, bytes, words);
        reply_number(&reply)
    }

    /// Closes a cursor: 0, or 21, 30.
    pub fn close_cursor(&mut self, id: usize) -> u32
        ensures does { DoesEvent M.disk self.old (events.Close id) (λ reply. result ≡ reply_number reply) self.new }
        ensures stays { KeepsMedium M.identity self.old self.new }
    {
        let reply = self.tell(Event::Close { id });
        reply_number(&reply)
    }

    /// Finds the first shown entry of a channel with at least this count, and its number on the channel from 0: 0, or 1, 2, 10, 19,
    /// 27, 28, 30, or 42 as `next`.
    pub fn find(
        &mut self,
        file: usize,
        channel: u16,
        count: u64,
        there: &mut bool,
        number: &mut usize,
        out: &mut EntryOut,
        bytes: &mut [u8],
        words: &mut [u16],
    ) -> u32
        ensures does { 65_535 ≤ length bytes.old → 36 ≤ length words.old
            → DoesEvent M.disk self.old (events.Find file channel count) (λ reply. (result ≡ reply_number reply)
            × (number.new ≡ place_in reply number.old)
            × (lent there.new out.new bytes.new words.new ≡ found_in reply (lent there.old out.old bytes.old words.old))) self.new }
        ensures room { (length bytes.old < 65_535) ⊎ (length words.old < 36)
            → (result ≡ room_status) × (self.new ≡ self.old) × (number.new ≡ number.old)
            × (lent there.new out.new bytes.new words.new ≡ lent there.old out.old bytes.old words.old) }
        ensures stays { KeepsMedium M.identity self.old self.new }
    {
        if bytes.len() < MOST_BYTES || words.len() < MOST_WORDS {
            return ROOM;
        }
        let reply = self.tell(Event::Find {
            file,
            channel,
            count,
        });
        *number = place_in(&reply, *number);
        put_found(&reply, there, out, bytes, words);
        reply_number(&reply)
    }

    /// The count at a civil time, by the last shown time entry that isn't later, if there is one: 0, or 1, 2, 13, 19, 27, 28, 30.
    pub fn count_at(&mut self, file: usize, parts: Parts, there: &mut bool, count: &mut u64) -> u32
        ensures does { DoesEvent M.disk self.old (events.CountAt file parts) (λ reply. (result ≡ reply_number reply)
            × (there.new ≡ is_count_in reply there.old) × (count.new ≡ count_in reply count.old)) self.new }
        ensures stays { KeepsMedium M.identity self.old self.new }
    {
        let reply = self.tell(Event::CountAt { file, parts });
        *there = is_count_in(&reply, *there);
        *count = count_in(&reply, *count);
        reply_number(&reply)
    }
}
