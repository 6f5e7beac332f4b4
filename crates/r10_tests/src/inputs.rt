// A recorder of two channels, and the lock round it.

ghost use Rattle.std.specs.Prelude.{◌≡◌, [], ◌∷◌, IfOk};
ghost use Rattle.r10_held.specs.Account.{IsNew};
ghost use Rattle.r10_held.specs.LockFact.{outlet_received, outlet_spec};
ghost use Rattle.r10_held.specs.Naming.{AreNamed};
ghost use Rattle.r10_medium.specs.MemoryDisk.{memory_disk};

use r10_body::{ChannelSpec, Kind, Message, UartMessage};
use r10_control::Recorder;
use r10_count::{Bytes, Count, Parts};
use r10_held::{Gauged, new_recorders_account_for_their_lanes};
use r10_machine::Settings;
use r10_medium::{BlockMedium, Memory};
use r10_port::{Outlet, Port, lane};
use r10_shared::{Cabinet, Pass, Rings};
use r10_volume::format;
use std::alloc::{AllocError, Global};
use std::test::Fail;

/// A UART channel that has room for two messages.
const CHANNEL: ChannelSpec = ChannelSpec {
    id: 5,
    kind: Kind::Uart,
    capacity: 2,
    check: 0,
    bytes: 524_288,
    number: 65_535,
    bits: 0,
};

/// A time of a day that not each year has.
pub const LEAP_DAY: Parts = Parts {
    year: 2024,
    month: 2,
    day: 29,
    hour: 12,
    minute: 34,
    second: 56,
    centi: 78,
};

/// 64 blocks, 2 of them for the directory, and these channels.
fn settings(alloc: Global, one: ChannelSpec, other: ChannelSpec) -> Result<Settings, Fail>
    ensures { IfOk result (λ s. s.channels ≡ one ∷ other ∷ []) }
{
    let channels = Vec::from_slice(alloc, &[one, other])?;
    let volume = Vec::from_slice(alloc, b"VOL")?;
    match Settings::of(64, 2, volume, 100, 1, 2, channels) {
        Ok(settings) => Ok(settings),
        Err(_) => Err(Fail::new("settings that are not good")),
    }
}

/// A medium of these settings without files.
pub fn formatted_medium(alloc: Global) -> Result<Memory, Fail> {
    let settings = settings(alloc, CHANNEL, ChannelSpec { id: 6, ..CHANNEL })?;
    let mut medium = Memory::new(alloc, settings.blocks())?;
    format(&mut medium, &settings)?;
    Ok(medium)
}

/// Two lanes.
fn both(alloc: Global, one: Outlet, other: Outlet) -> Result<Vec<Outlet>, AllocError>
    ensures { IfOk result (λ lanes. lanes.items ≡ one ∷ other ∷ []) }
{
    let mut lanes = Vec::with_capacity(alloc, 2)?;
    lanes.push_reserved(one);
    lanes.push_reserved(other);
    Ok(lanes)
}

/// A recorder of the UART channels 5 and 6, of which nothing was asked, and the sending ends of its lanes.
#[derive(Drop)]
pub struct NewRecorder {
    pub gauged: Gauged<Memory>,
    pub five: Port,
    pub six: Port,
}

/// A recorder over a medium of so many blocks, with lanes of this capacity.
pub fn make(alloc: Global, capacity: usize, medium: Memory) -> Result<NewRecorder, Fail>
    ensures new { IfOk result (λ made. IsNew memory_disk outlet_spec outlet_received made.gauged.recorder) }
    ensures named { IfOk result
        (λ made. AreNamed (record { channel = 5; ring = made.five.ring } ∷ record { channel = 6; ring = made.six.ring } ∷ [])
        made.gauged.recorder.lanes) }
{
    let one = ChannelSpec {
        capacity,
        ..CHANNEL
    };
    let other = ChannelSpec { id: 6, ..one };
    let settings = settings(alloc, one, other)?;
    if medium.blocks() != settings.blocks() {
        return Err(Fail::new("a medium of other settings"));
    }
    let (five, first) = lane(alloc, one)?;
    let (six, second) = lane(alloc, other)?;
    let lanes = both(alloc, first, second)?;
    let Ok(recorder) = Recorder::new(alloc, settings, medium, lanes) else {
        return Err(Fail::new("no memory"));
    };
    match Gauged::new(alloc, recorder) {
        Ok(gauged) => Ok(NewRecorder { gauged, five, six }),
        Err(_) => Err(Fail::new("no memory")),
    }
}

/// The lock round it, and the first pass.
pub fn cabinet_of<N: Rings>(gauged: Gauged<Memory>) -> (Cabinet<Memory, N>, Pass)
    requires new { IsNew memory_disk outlet_spec outlet_received gauged.recorder }
    requires named { AreNamed N.rings gauged.recorder.lanes }
    requires gauge { gauged.cell ≡ N.gauge }
    ensures { result.1.cell ≡ result.0.gauge }
{
    new_recorders_account_for_their_lanes::<Memory, N>();
    Cabinet::<Memory, N>::new(gauged)
}

/// Offers a message of a byte at the count 1001, which the lane has room for.
pub fn offer(alloc: Global, port: &mut Port) -> Result<(), Fail> {
    let message = Message::Uart(UartMessage {
        parity: false,
        sub: 0,
        bytes: Bytes::copy_of(alloc, b"A")?,
    });
    let count = Count::of(1001).ok_or("no count")?;
    match port.offer(count, message) {
        Ok(_) => Ok(()),
        Err(_) => Err(Fail::new("a lane without room")),
    }
}
