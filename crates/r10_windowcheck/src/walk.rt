//! Packets that stand in bytes after those that were taken.

ghost use Rattle.std.specs.Prelude.{◌≡◌, ◌+◌, ◌<◌, ◌≤◌, ◌^◌, ◌++◌, ℕ, List, [], length, take, drop, IfOk, IsTrue, true};
ghost use Rattle.r10_judge.specs.Walks.{EndsWithFault, TracksWalked};
ghost use Rattle.r10_windowcheck.specs.Given.{TakesWindow};

use r10_body::FileFault;
use r10_judge::{Judge, Walk};
use r10_packet_rules::{ForeignTrack, read_foreign};
use std::alloc::{AllocError, Global};

/// How many bytes a file may not have.
const TOO_MANY: u64 = 1 << 63;

/// What stands first in bytes.
#[derive(Clone, Copy)]
pub(crate) enum FirstTaken {
    /// A packet of so many bytes, which was taken.
    Packet(usize),
    /// No whole packet of any recorder: this is its fault.
    Fault(FileFault),
}

/// What was taken of bytes.
#[derive(Clone, Copy)]
pub(crate) struct PacketsTaken {
    /// How many bytes the packets have.
    pub(crate) length: usize,
    /// The fault of what stands after them, where something does.
    pub(crate) fault: Option<FileFault>,
}

/// The start of a file.
pub(crate) fn start(alloc: Global) -> Walk
    ensures walked { TracksWalked result [] }
    ensures closed { result.judge.closed ≡ true }
{
    Walk {
        track: ForeignTrack::new(),
        judge: Judge::new(alloc, true),
    }
}

/// Whether so many bytes more are fewer than 2^63.
fn has_room(offset: u64, more: usize) -> bool
    ensures { IsTrue result → offset + more < 2 ^ 63 }
{
    offset < TOO_MANY && (more as u64) < TOO_MANY - offset
}

/// Takes the packet that stands first in bytes.
fn take_first(walk: &mut Walk, bytes: &[u8]) -> Result<FirstTaken, AllocError>
    ensures taken { IfOk result (TakesWindow walk.old walk.new bytes.now) }
    ensures closed { walk.new.judge.closed ≡ walk.old.judge.closed }
{
    if !has_room(walk.track.offset, bytes.len()) {
        return Err(AllocError);
    }
    let packet = match read_foreign(bytes) {
        Ok(packet) => packet,
        Err(fault) => return Ok(FirstTaken::Fault(fault)),
    };
    walk.judge.take(&bytes[..packet.length])?;
    walk.track.add(&packet);
    Ok(FirstTaken::Packet(packet.length))
}

/// Takes the packets that stand in bytes, up to the first that is at fault or not whole.
pub(crate) fn take_packets(walk: &mut Walk, bytes: &[u8]) -> Result<PacketsTaken, AllocError>
    ensures inside { IfOk result (λ taken. taken.length ≤ length bytes.now) }
    ensures walked { IfOk result (λ taken. (before : List ℕ) → TracksWalked walk.old before
        → TracksWalked walk.new (before ++ take taken.length bytes.now)) }
    ensures ends { IfOk result (λ taken. EndsWithFault taken.fault (drop taken.length bytes.now)) }
    ensures closed { walk.new.judge.closed ≡ walk.old.judge.closed }
{
    let mut done = 0;
    while done < bytes.len() {
        match take_first(walk, &bytes[done..])? {
            FirstTaken::Packet(length) => done += length,
            FirstTaken::Fault(fault) => {
                return Ok(PacketsTaken {
                    length: done,
                    fault: Some(fault),
                });
            }
        }
    }
    Ok(PacketsTaken {
        length: done,
        fault: None,
    })
}
