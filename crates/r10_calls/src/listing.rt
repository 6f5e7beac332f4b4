//! Files, and how the recorder is, as a caller of another language has them.

ghost use Rattle.std.specs.Prelude.{◌≡◌};
ghost use Rattle.r10_calls.specs.Copies.{copied};
ghost use Rattle.r10_calls.specs.Listing.{file_out, status_out, channel_out, mode_number, tick_number, files_in, file_in, name_in};
ghost use Rattle.r10_calls.specs.Listing.{file_place, status_given, channel_given, lane_place};
ghost use Rattle.r10_calls.specs.EventCalls.{DoesEvent, KeepsMedium, reply_number};
ghost use Rattle.r10_machine.specs.declared.event.Event.TheVariants as events;

use crate::copies::copy_front;
use crate::desk::{Desk, reply_number};
use r10_body::status::PLACE;
use r10_machine::{ChannelStatus, Event, FileInfo, Mode, Reply, Status};
use r10_region::SteadyMedium;

/// A file, without its name.
#[repr(C)]
#[derive(Clone, Copy)]
pub struct FileOut {
    /// the bytes that the medium shows of it
    pub size: u64,
    /// the blocks that hold these bytes
    pub blocks: u64,
    /// how many bytes the name has, at most 56
    pub name_length: usize,
    pub closed: bool,
}

/// How a recorder is.
#[repr(C)]
#[derive(Clone, Copy)]
pub struct StatusOut {
    /// the count of the last tick, in units of 100 ns; 0 where there was none
    pub tick: u64,
    /// the bytes that are free: of the open file's area, or of the next file's
    pub free: u64,
    /// how many files the medium has; 0 where none is mounted
    pub files: usize,
    /// how many channels the settings have
    pub channels: usize,
    /// 0 unmounted, 1 idle, 2 recording, 3 failed
    pub mode: u8,
    /// there was a tick
    pub ticked: bool,
}

/// How a channel is.
#[repr(C)]
#[derive(Clone, Copy)]
pub struct ChannelOut {
    /// the messages that were refused because the lane was full, up to 2^64 - 1
    pub lost: u64,
    /// the entries that erases took, up to 2^64 - 1
    pub erased: u64,
    /// the messages that wait
    pub waiting: usize,
    pub channel: u16,
}

fn file_of(info: &FileInfo) -> FileOut
    ensures { result ≡ file_out info.now }
{
    FileOut {
        size: info.size,
        blocks: info.blocks,
        name_length: info.name.len(),
        closed: info.closed,
    }
}

fn mode_of(mode: Mode) -> u8
    ensures { result ≡ mode_number mode }
{
    match mode {
        Mode::Unmounted => 0,
        Mode::Idle => 1,
        Mode::Recording => 2,
        Mode::Failed => 3,
    }
}

fn status_of(status: &Status) -> StatusOut
    ensures { result ≡ status_out status.now }
{
    let (tick, ticked) = match status.tick {
        Some(tick) => (tick.get(), true),
        None => (0, false),
    };
    StatusOut {
        tick,
        free: status.free,
        files: status.files,
        channels: status.channels.len(),
        mode: mode_of(status.mode),
        ticked,
    }
}

fn channel_of(status: &ChannelStatus) -> ChannelOut
    ensures { result ≡ channel_out status.now }
{
    ChannelOut {
        lost: status.lost,
        erased: status.erased,
        waiting: status.waiting,
        channel: status.channel,
    }
}

/// How many files were reported.
fn files_in(reply: &Reply, old: usize) -> usize
    ensures { result ≡ files_in reply.now old }
{
    match reply {
        Reply::Files(files) => files.len(),
        _ => old,
    }
}

/// Puts the file of this number, and answers the call's number.
fn put_file(reply: &Reply, number: usize, out: &mut FileOut, name: &mut [u8]) -> u32
    ensures number { result ≡ file_place reply.now number }
    ensures file { out.new ≡ file_in reply.now number out.old }
    ensures name { name.new ≡ name_in reply.now number name.old }
{
    let Reply::Files(files) = reply else {
        return reply_number(reply);
    };
    match files.as_slice().get(number) {
        Some(info) => {
            *out = file_of(info);
            copy_front(info.name.as_slice(), name);
            0
        }
        None => PLACE,
    }
}

/// How the recorder was set to be.
fn status_in(reply: &Reply, old: StatusOut) -> StatusOut
    ensures { result ≡ status_given reply.now old }
{
    match reply {
        Reply::Status(status) => status_of(status),
        _ => old,
    }
}

/// Puts the channel at this place, and answers the call's number.
fn put_channel(reply: &Reply, place: usize, out: &mut ChannelOut) -> u32
    ensures number { result ≡ lane_place reply.now place }
    ensures channel { out.new ≡ channel_given reply.now place out.old }
{
    let Reply::Status(status) = reply else {
        return reply_number(reply);
    };
    match status.channels.as_slice().get(place) {
        Some(channel) => {
            *out = channel_of(channel);
            0
        }
        None => PLACE,
    }
}

impl<M: SteadyMedium + Drop> Desk<M> {
    /// How many files the medium has: 0, or 1, 2, 30.
    pub fn files(&mut self, count: &mut usize) -> u32
        ensures does { DoesEvent M.disk self.old events.Files
            (λ reply. (result ≡ reply_number reply) × (count.new ≡ files_in reply count.old)) self.new }
        ensures stays { KeepsMedium M.identity self.old self.new }
    {
        let reply = self.tell(Event::Files);
        *count = files_in(&reply, *count);
        reply_number(&reply)
    }

    /// The file of this number, from 0: 0, or 1, 2, 30, or 43 where there are fewer. Of its name, what fits.
    pub fn file(&mut self, number: usize, out: &mut FileOut, name: &mut [u8]) -> u32
        ensures does { DoesEvent M.disk self.old events.Files (λ reply. (result ≡ file_place reply number)
            × (out.new ≡ file_in reply number out.old) × (name.new ≡ name_in reply number name.old)) self.new }
        ensures stays { KeepsMedium M.identity self.old self.new }
    {
        let reply = self.tell(Event::Files);
        put_file(&reply, number, out, name)
    }

    /// How the recorder is: 0, or 30.
    pub fn status(&mut self, out: &mut StatusOut) -> u32
        ensures does { DoesEvent M.disk self.old events.Status
            (λ reply. (result ≡ reply_number reply) × (out.new ≡ status_given reply out.old)) self.new }
        ensures stays { KeepsMedium M.identity self.old self.new }
    {
        let reply = self.tell(Event::Status);
        *out = status_in(&reply, *out);
        reply_number(&reply)
    }

    /// How the channel at this place of the settings is, from 0: 0, or 30, or 43 where there are fewer.
    pub fn channel(&mut self, place: usize, out: &mut ChannelOut) -> u32
        ensures does { DoesEvent M.disk self.old events.Status
            (λ reply. (result ≡ lane_place reply place) × (out.new ≡ channel_given reply place out.old)) self.new }
        ensures stays { KeepsMedium M.identity self.old self.new }
    {
        let reply = self.tell(Event::Status);
        put_channel(&reply, place, out)
    }
}
