//! A recorder over a medium in memory, which records a file of four UART channels.

ghost use Rattle.std.specs.Prelude.{◌≡◌, length, map, IfOk};
ghost use Rattle.r10_machine.specs.Machine.{fresh_lane};
ghost use Rattle.r10_medium.specs.MemoryDisk.{memory_disk};

use crate::fault::BenchFault;
use r10_body::{ChannelSpec, Kind};
use r10_control::Recorder;
use r10_count::Parts;
use r10_lane::RingLane;
use r10_machine::Settings;
use r10_medium::{BlockMedium, Memory};
use r10_volume::format;
use std::alloc::{AllocError, Global};

/// A recorder over a medium in memory, with lanes of one thread.
pub(crate) type InMemory = Recorder<Memory, RingLane>;

/// The channels, which take messages in turn.
pub(crate) const CHANNELS: [u16; 4] = [3, 4, 5, 6];

/// How many messages may wait on a channel.
pub(crate) const WAITING: usize = 256;

/// What a recorder counts at most for a message in a packet of its own, in bytes of the medium, beside the message's own.
const COST: u64 = 117;

/// How many blocks a medium may have.
const MOST_BLOCKS: u64 = 16_777_216;

/// The time at count 0.
const START: Parts = Parts {
    year: 2026,
    month: 11,
    day: 24,
    hour: 0,
    minute: 0,
    second: 0,
    centi: 0,
};

/// The channel of the message of this number.
pub(crate) fn channel_of(number: u64) -> u16 {
    CHANNELS[(number % 4) as usize]
}

/// The first channel: UART messages with a data checksum of 16 bits.
const CHANNEL: ChannelSpec = ChannelSpec {
    id: 3,
    kind: Kind::Uart,
    capacity: WAITING,
    check: 16,
    bytes: 524_288,
    number: 1,
    bits: 0,
};

/// Settings for so many messages of so many bytes each, of which so many stand in a packet at most: the medium has room for them.
fn settings_for(
    alloc: Global,
    messages: u32,
    bytes: u16,
    number: usize,
) -> Result<Settings, BenchFault> {
    let three = ChannelSpec { number, ..CHANNEL };
    let four = ChannelSpec { id: 4, ..three };
    let five = ChannelSpec { id: 5, ..three };
    let six = ChannelSpec { id: 6, ..three };
    let channels = Vec::from_slice(alloc, &[three, four, five, six])?;
    let volume = Vec::from_slice(alloc, b"BENCH")?;
    let blocks = (COST + u64::from(bytes)) * u64::from(messages) / 512 + 64;
    let blocks = blocks.min(MOST_BLOCKS) as usize;
    let Ok(settings) = Settings::of(blocks, 2, volume, 32_765, 1, 2, channels) else {
        return Err(BenchFault::Settings);
    };
    Ok(settings)
}

/// A lane for each channel, of which nothing has come yet.
fn lanes_of(alloc: Global, channels: &[ChannelSpec]) -> Result<Vec<RingLane>, AllocError>
    ensures { IfOk result (λ lanes. lanes.items ≡ map fresh_lane channels.now) }
{
    let mut lanes = Vec::new(alloc);
    for spec in channels {
        lanes.push(RingLane::new(alloc, *spec)?)?;
    }
    Ok(lanes)
}

/// A medium in memory of so many blocks. Its last block is written, so that all of its memory is in use before anything is timed.
fn make_medium(alloc: Global, blocks: usize) -> Result<Memory, AllocError>
    ensures { IfOk result (λ m. length (memory_disk m).blocks ≡ blocks) }
{
    let mut medium = Memory::new(alloc, blocks)?;
    if blocks > 0 {
        let _ = medium.write(blocks - 1, &[0; 512]);
    }
    Ok(medium)
}

/// A recorder over a formatted medium of these settings.
fn make_recorder(alloc: Global, settings: Settings) -> Result<InMemory, BenchFault> {
    let mut medium = make_medium(alloc, settings.blocks())?;
    format(&mut medium, &settings)?;
    let lanes = lanes_of(alloc, settings.channels())?;
    match Recorder::new(alloc, settings, medium, lanes) {
        Ok(recorder) => Ok(recorder),
        Err(_) => Err(BenchFault::Memory(AllocError)),
    }
}

/// A recorder that records a file, with room for so many messages of so many bytes each. A packet has so many of them at most.
pub(crate) fn begin(
    alloc: Global,
    messages: u32,
    bytes: u16,
    number: usize,
) -> Result<InMemory, BenchFault> {
    let settings = settings_for(alloc, messages, bytes, number)?;
    let mut recorder = make_recorder(alloc, settings)?;
    recorder.mount()?;
    recorder.tick(0, START)?;
    recorder.start_file(b"BENCH", b"ABCD")?;
    Ok(recorder)
}
