//! A medium over memory that a program lends.

ghost use Rattle.std.specs.Prelude.{◌≡◌, ◌<◌, ◌^◌, length};
ghost use Rattle.r10_medium.specs.Disk.{IsWhole};
ghost use Rattle.r10_region.specs.Device.{device_of, AreWhole};
ghost use Rattle.r10_region.specs.Line.{told_by};

use crate::line::Line;
use crate::operation::{Operation, has_its_bytes};
use crate::orders::Orders;
use crate::queueing::tell_write;
use crate::steady::SteadyMedium;
use crate::strip::Strip;
use r10_medium::{BlockMedium, MediumFault};
use rtrb::{Consumer, RingBuffer};
use std::alloc::{AllocError, Global};
use std::snapshot::Snapshot;

/// A medium over memory that a program lends. The memory reads as it was last written. What a power loss leaves is what it leaves
/// of a disk that held what was lent, and does the operations that `Orders` hands out, in order. A write or a sync fails only
/// where memory for one operation more is refused, or where `Orders` was reported that the disk failed.
pub struct Region {
    blocks: &'static mut [[u8; 512]],
    pub(crate) line: Line,
    // where the other end tells that the disk failed
    pub(crate) news: Consumer<bool, Global>,
    // what was lent
    was: Snapshot<Strip>,
    failures: u64,
    ghost reads: { (device_of was.value.held (told_by line)).reads ≡ blocks.now },
    ghost whole: { IsWhole was.value.held },
    ghost each_whole: { AreWhole (told_by line) },
    ghost fits: { length blocks.now < 2 ^ 64 },
}

/// Letting it go is one call, so that a body that holds one has one exit for it.
impl Drop for Region {
    fn drop(self) {
        let Region {
            blocks: _,
            line: _,
            news: _,
            was: _,
            failures: _,
        } = self;
    }
}

/// Each block has 512 bytes.
fn are_whole(blocks: &[[u8; 512]])
    ensures { IsWhole blocks.now }
{
    for n in 0..blocks.len() {
        has_its_bytes(&blocks[n]);
    }
}

impl Region {
    ghost use Rattle.std.specs.Prelude.{[], IfOk};
    ghost use Rattle.r10_medium.specs.Disk.{IsSynced};
    ghost use Rattle.r10_region.specs.Orders.{IsOtherEnd};
    ghost use Rattle.r10_region.specs.Queue.{queue_room, places_known};
    ghost use Rattle.r10_region.specs.RegionDisk.{region_disk, lent_to, asked};

    /// The medium of these blocks, and the orders of its disk, of which as many as `room` may wait before more memory is asked for.
    /// The disk holds what the blocks hold.
    pub fn over(alloc: Global, strip: Strip, room: usize) -> Result<(Region, Orders), AllocError>
        ensures blocks { IfOk result (λ r. (region_disk r.0).blocks ≡ strip.held) }
        ensures lent { IfOk result (λ r. lent_to r.0 ≡ strip.held) }
        ensures durable { IfOk result (λ r. IsSynced (region_disk r.0)) }
        ensures failures { IfOk result (λ r. (region_disk r.0).failures ≡ 0) }
        ensures none_yet { IfOk result (λ r. asked r.0 ≡ []) }
        ensures other_end { IfOk result (λ r. IsOtherEnd r.0 r.1) }
        ensures room { IfOk result (λ r. (queue_room r.0 ≡ room) × (places_known r.0 ≡ room)) }
        ensures each_call { IfOk result (λ r. r.1.room ≡ room) }
    {
        let (line, ring, links, spares) = Line::new(alloc, room)?;
        let (tell, news) = RingBuffer::new(alloc, 1)?;
        let was = Snapshot::of(&strip);
        let lent = Snapshot::of(&strip);
        let blocks = strip.into_slice();
        are_whole(blocks);
        let _count = blocks.len();
        let region = Region {
            blocks,
            line,
            news,
            was,
            failures: 0,
        };
        let first = Snapshot::of(&ring);
        let done = Snapshot::of(&links);
        let orders = Orders {
            ring,
            links,
            ahead: None,
            done,
            first,
            was: lent,
            news: tell,
            spares,
            room,
        };
        Ok((region, orders))
    }
}

impl BlockMedium for Region {
    ghost use Rattle.std.specs.Prelude.{◌⊎◌, slice_set, IsOk, OnErr, OnOk};
    ghost use Rattle.r10_medium.specs.Disk.{block_at, Counts, IsSynced, Unchanged, Wrote};
    ghost use Rattle.r10_region.specs.Queue.{AsksDisk, FindsNoPlace, HearsFailure};
    ghost use Rattle.r10_region.specs.RegionDisk.{identity_of, region_disk};
    ghost use Rattle.r10_region.specs.declared.operation.Operation.TheVariants.{Write, Sync};

    ghost disk = { region_disk };

    fn blocks(&self) -> usize {
        self.blocks.len()
    }

    fn read(&mut self, n: usize, block: &mut [u8; 512]) -> Result<(), MediumFault>
        requires { n < length (region_disk self.old).blocks }
        ensures read { OnOk result (block.new ≡ block_at (region_disk self.old).blocks n) }
        ensures same { Unchanged (region_disk self.old) (region_disk self.new) }
        ensures counts { Counts (region_disk self.old) (region_disk self.new) result }
        ensures always { IsOk result × (self.new ≡ self.old) }
    {
        *block = self.blocks[n];
        Ok(())
    }

    fn write(&mut self, n: usize, block: &[u8; 512]) -> Result<(), MediumFault>
        requires { n < length (region_disk self.old).blocks }
        ensures written { OnOk result ((region_disk self.new).blocks ≡ slice_set (region_disk self.old).blocks n block.now) }
        ensures wrote { Wrote n block.now (region_disk self.old) (region_disk self.new) }
        ensures counts { Counts (region_disk self.old) (region_disk self.new) result }
        ensures stays { identity_of self.new ≡ identity_of self.old }
        ensures asks { OnOk result (AsksDisk (Write n block.now) self.old self.new) }
        ensures fails { OnErr result (FindsNoPlace self.old self.new ⊎ HearsFailure self.old self.new) }
    {
        if self.news.is_empty() && tell_write(self.blocks, &mut self.line, n, block) {
            return Ok(());
        }
        self.failures = self.failures.saturating_add(1);
        Err(MediumFault)
    }

    fn sync(&mut self) -> Result<(), MediumFault>
        ensures durable { OnOk result (IsSynced (region_disk self.new)) }
        ensures same { Unchanged (region_disk self.old) (region_disk self.new) }
        ensures counts { Counts (region_disk self.old) (region_disk self.new) result }
        ensures stays { identity_of self.new ≡ identity_of self.old }
        ensures asks { OnOk result (AsksDisk Sync self.old self.new) }
        ensures fails { OnErr result (FindsNoPlace self.old self.new ⊎ HearsFailure self.old self.new) }
    {
        if self.news.is_empty() && self.line.ask(Operation::Sync) {
            return Ok(());
        }
        self.failures = self.failures.saturating_add(1);
        Err(MediumFault)
    }

    fn failures(&self) -> u64 {
        self.failures
    }
}

impl SteadyMedium for Region {
    ghost use Rattle.r10_region.specs.RegionDisk.{identity_of};

    ghost identity = { identity_of };

    fn steady_read(&mut self, n: usize, block: &mut [u8; 512]) -> Result<(), MediumFault> {
        self.read(n, block)
    }

    fn steady_write(&mut self, n: usize, block: &[u8; 512]) -> Result<(), MediumFault> {
        self.write(n, block)
    }

    fn steady_sync(&mut self) -> Result<(), MediumFault> {
        self.sync()
    }
}
