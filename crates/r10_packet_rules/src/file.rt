//! A file of any recorder, packet by packet.

ghost use Rattle.std.specs.Prelude.{◌≡◌, ◌+◌, ◌<◌, ◌≤◌, ◌^◌, ◌⊎◌, ◌++◌, ℕ, List, [], length, take, IfOk, IfErr, OnErr};
ghost use Rattle.r10_body.specs.Foreign.{IsForeignFile};
ghost use Rattle.r10_body.specs.Faults.{HasFault, IsFaulty};

use crate::packet::{ForeignPacket, read_foreign};
use r10_body::FileFault;
use thiserror::Error;

/// The first fault of a file.
#[derive(Clone, Copy, Debug, PartialEq, Eq, Error)]
#[error("the packet at byte {offset} is at fault: {fault}")]
pub struct FirstFault {
    /// Where the packet at fault stands, in bytes from the start of the file.
    pub offset: u64,
    pub fault: FileFault,
}

/// How far a file is judged: all packets so far are ones that any recorder may have written.
#[derive(Clone, Copy)]
pub struct ForeignTrack {
    /// How many bytes they have.
    pub offset: u64,
    /// How many of them are opaque.
    pub opaque: u64,

    pub ghost few: { opaque ≤ offset },
}

impl ForeignTrack {
    ghost use Rattle.r10_packet_rules.specs.Tracks.{IsFirst, TracksForeign};

    /// The start of a file.
    pub fn new() -> ForeignTrack
        ensures { TracksForeign result [] }
    {
        ForeignTrack {
            offset: 0,
            opaque: 0,
        }
    }

    /// Takes the packet that stands first in bytes that follow, and says how it is. A packet at
    /// fault isn't taken.
    pub fn take(&mut self, bytes: &[u8]) -> Result<ForeignPacket, FirstFault>
        requires { self.old.offset + length bytes.now < 2 ^ 64 }
        ensures found { IfOk result (IsFirst bytes.now) }
        ensures taken { IfOk result (λ packet. (before : List ℕ) → TracksForeign self.old before
            → TracksForeign self.new (before ++ take packet.length bytes.now)) }
        ensures fault { IfErr result (λ at. (at.offset ≡ self.old.offset) × HasFault bytes.now at.fault) }
        ensures faulty { IfErr result (λ at. (before : List ℕ) → TracksForeign self.old before
            → (0 < length bytes.now) ⊎ (self.old.offset ≡ 0) → IsFaulty (before ++ bytes.now) at.offset at.fault) }
        ensures kept { OnErr result (self.new ≡ self.old) }
    {
        let packet = match read_foreign(bytes) {
            Ok(packet) => packet,
            Err(fault) => {
                let offset = self.offset;
                return Err(FirstFault { offset, fault });
            }
        };
        self.add(&packet);
        Ok(packet)
    }

    /// Takes a packet that stands first in bytes that follow, and that any recorder may have written.
    pub fn add(&mut self, packet: &ForeignPacket)
        requires some { 24 ≤ packet.now.length }
        requires short { self.old.offset + packet.now.length < 2 ^ 64 }
        ensures { (before bytes : List ℕ) → TracksForeign self.old before → IsFirst bytes packet.now
            → TracksForeign self.new (before ++ take packet.now.length bytes) }
    {
        *self = ForeignTrack {
            offset: self.offset + packet.length as u64,
            opaque: self.opaque + u64::from(packet.opaque),
        };
    }

    /// The number of opaque packets of a file that ends here; a file without a packet is at fault.
    pub fn end(&self) -> Result<u64, FirstFault>
        ensures file { IfOk result (λ opaque. (bytes : List ℕ) → TracksForeign self.now bytes → IsForeignFile bytes opaque) }
        ensures faulty { IfErr result (λ at. (bytes : List ℕ) → TracksForeign self.now bytes → IsFaulty bytes at.offset at.fault) }
    {
        let offset = self.offset;
        if offset == 0 {
            let fault = FileFault::Truncated;
            return Err(FirstFault { offset, fault });
        }
        Ok(self.opaque)
    }
}
