//! The measuring of a lane and a builder.

ghost use Rattle.std.specs.Prelude.{◌≡◌, ◌≤◌, IfOk, OnOk};
ghost use Rattle.r10_lane.specs.Lanes.{reached};
ghost use Rattle.r10_bench.specs.BuilderAfterLane.{IsBehind};

use crate::copy::copy_all;
use crate::fault::BenchFault;
use crate::figures::{Packets, lap, show};
use crate::messages::make;
use crate::path::{offer_all, pack_all};
use r10_body::{ChannelSpec, Kind};
use r10_builder::Builder;
use r10_lane::RingLane;
use std::alloc::{AllocError, Global};
use std::ops::Range;
use std::time::CpuClock;

/// How many messages go through the lane at once.
const BATCH: usize = 1024;

/// A UART channel of the longest packets.
const CHANNEL: ChannelSpec = ChannelSpec {
    id: 1,
    kind: Kind::Uart,
    capacity: BATCH,
    check: 0,
    bytes: 524_288,
    number: 65_535,
    bits: 0,
};

/// Where messages go: their bytes to `copied`, and then they to the lane and the builder. And what was measured of that.
#[derive(Drop)]
struct Bench {
    copied: Vec<u8>,
    lane: RingLane,
    builder: Builder,
    messages: u64,
    packets: Packets,
    /// Processor time of the plain copy.
    copying: u64,
    /// Processor time of lane and builder.
    packing: u64,
}

impl Bench {
    fn new(alloc: Global) -> Result<Bench, AllocError>
        ensures { IfOk result (λ b. IsBehind b.lane.spec (reached b.lane) b.builder) }
    {
        let mut builder = Builder::new(alloc, CHANNEL);
        builder.ready()?;
        Ok(Bench {
            copied: Vec::with_capacity(alloc, CHANNEL.bytes)?,
            lane: RingLane::new(alloc, CHANNEL)?,
            builder,
            messages: 0,
            packets: Packets {
                number: 0,
                bytes: 0,
            },
            copying: 0,
            packing: 0,
        })
    }

    /// Makes the messages of these numbers, and times how they are copied and how they get into packets.
    fn round<R: CpuClock>(
        &mut self,
        rt: &R,
        alloc: Global,
        numbers: Range<u32>,
    ) -> Result<(), BenchFault>
        requires { IsBehind self.old.lane.spec (reached self.old.lane) self.old.builder }
        ensures { OnOk result (IsBehind self.new.lane.spec (reached self.new.lane) self.new.builder) }
    {
        let messages = make(alloc, numbers, &[0x55; 8])?;
        let mut last = 0;
        lap(rt, &mut last);
        copy_all(messages.as_slice(), &mut self.copied);
        let copying = lap(rt, &mut last);
        offer_all(messages, &mut self.lane)?;
        let number = pack_all(&mut self.lane, &mut self.builder, &mut self.packets);
        self.messages = self.messages.saturating_add(number);
        self.copying = self.copying.saturating_add(copying);
        self.packing = self.packing.saturating_add(lap(rt, &mut last));
        Ok(())
    }
}

/// Sends so many messages through a lane and a builder, and copies their bytes. Answers how many came through.
pub(crate) fn run<R: Print + CpuClock>(
    rt: &R,
    alloc: Global,
    number: u32,
) -> Result<u64, BenchFault>
    ensures { IfOk result (λ messages. messages ≡ number) }
{
    let mut bench = Bench::new(alloc)?;
    for first in (0..number).step_by(BATCH) {
        let next = number.min(first.saturating_add(BATCH as u32));
        bench.round(rt, alloc, first..next)?;
    }
    if let Some(closed) = bench.builder.flush() {
        bench.packets.add(&closed);
    }
    let (messages, packets) = (bench.messages, bench.packets);
    if messages != u64::from(number) {
        return Err(BenchFault::Lost);
    }
    let bytes = messages.saturating_mul(8);
    let figures = [
        ("channel-packets", packets.number, "packets", 0),
        ("channel-file", packets.bytes, "bytes", 0),
        ("copy", messages, "messages", bench.copying),
        ("copy-bytes", bytes, "bytes", bench.copying),
        ("channel", messages, "messages", bench.packing),
        ("channel-bytes", bytes, "bytes", bench.packing),
    ];
    show(rt, true, &figures)?;
    Ok(messages)
}
