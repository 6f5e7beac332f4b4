//! A recorder over a medium in memory, with a lane between threads for each of two UART channels.

ghost use Rattle.std.specs.Prelude.{◌≡◌, [], ◌∷◌, IfOk};
ghost use Rattle.r10_held.specs.Account.{IsNew};
ghost use Rattle.r10_held.specs.LockFact.{outlet_received, outlet_spec};
ghost use Rattle.r10_held.specs.Naming.{AreNamed};
ghost use Rattle.r10_medium.specs.FaultyParts.{faulty_disk};

use crate::scene::{image_recorded, medium_of};
use r10_body::{ChannelSpec, Kind};
use r10_control::Recorder;
use r10_count::Parts;
use r10_held::Gauged;
use r10_machine::Settings;
use r10_medium::{BlockMedium, Faulty, Memory};
use r10_port::{Outlet, Port, lane};
use std::alloc::{AllocError, Global};

/// The time at count 1000.
pub const START: Parts = Parts {
    year: 2024,
    month: 2,
    day: 29,
    hour: 12,
    minute: 34,
    second: 56,
    centi: 78,
};

/// The largest count.
pub const LAST: u64 = 281_474_976_710_655;

/// A UART channel with a lane of 1,000 messages.
const FIVE: ChannelSpec = ChannelSpec {
    id: 5,
    kind: Kind::Uart,
    capacity: 1000,
    check: 0,
    bytes: 524_288,
    number: 65_535,
    bits: 0,
};

/// A UART channel like it.
const SIX: ChannelSpec = ChannelSpec { id: 6, ..FIVE };

/// The recorder, and the sending ends of its lanes.
#[derive(Drop)]
pub struct Apparatus {
    pub recorder: Recorder<Faulty<Memory>, Outlet>,
    pub five: Port,
    pub six: Port,
}

/// The recorder with its gauge, and the sending ends of its lanes.
#[derive(Drop)]
pub struct Ready {
    pub gauged: Gauged<Faulty<Memory>>,
    pub five: Port,
    pub six: Port,
}

/// 64 blocks, 2 of them for the directory, and these channels.
fn settings_for(alloc: Global, five: ChannelSpec, six: ChannelSpec) -> Result<Settings, AllocError>
    ensures { IfOk result (λ s. s.channels ≡ five ∷ six ∷ []) }
{
    let channels = Vec::from_slice(alloc, &[five, six])?;
    let volume = Vec::from_slice(alloc, b"VOL")?;
    match Settings::of(64, 2, volume, 100, 1, 2, channels) {
        Ok(settings) => Ok(settings),
        Err(_) => Err(AllocError),
    }
}

/// Two lanes.
fn both(alloc: Global, five: Outlet, six: Outlet) -> Result<Vec<Outlet>, AllocError>
    ensures { IfOk result (λ lanes. lanes.items ≡ five ∷ six ∷ []) }
{
    let mut lanes = Vec::with_capacity(alloc, 2)?;
    lanes.push_reserved(five);
    lanes.push_reserved(six);
    Ok(lanes)
}

/// A new recorder over a medium that reads as these bytes, whose call of this number fails, from 1; none fails where it is 0. A
/// medium of another size, which no caller has, counts as refused memory.
pub fn over(alloc: Global, image: &[u8], call: u64) -> Result<Apparatus, AllocError>
    ensures new { IfOk result (λ a. IsNew faulty_disk outlet_spec outlet_received a.recorder) }
    ensures named { IfOk result (λ a. AreNamed
        (record { channel = 5; ring = a.five.ring } ∷ record { channel = 6; ring = a.six.ring } ∷ []) a.recorder.lanes) }
{
    let medium = Faulty::new(medium_of(alloc, image)?, call);
    let settings = settings_for(alloc, FIVE, SIX)?;
    if medium.blocks() != settings.blocks() {
        return Err(AllocError);
    }
    let (five, first) = lane(alloc, FIVE)?;
    let (six, second) = lane(alloc, SIX)?;
    let lanes = both(alloc, first, second)?;
    match Recorder::new(alloc, settings, medium, lanes) {
        Ok(recorder) => Ok(Apparatus {
            recorder,
            five,
            six,
        }),
        Err(_) => Err(AllocError),
    }
}

/// The bytes of a medium that was formatted for such a recorder.
pub fn apparatus_image(alloc: Global) -> Result<Vec<u8>, AllocError> {
    let settings = settings_for(alloc, FIVE, SIX)?;
    image_recorded(alloc, &settings, &[])
}
