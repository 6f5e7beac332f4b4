// The layer.
ghost use Rattle.std.specs.Prelude.{◌≡◌, ◌≤◌, false, true, length};
ghost use Rattle.r10_sector.specs.Held.{AreSectors};
ghost use Rattle.r10_doublewrite.specs.Guarding.{IsGuarded};

use crate::finding::find;
use crate::place::commit;
use crate::read::{index_of, push_sector, read_sector, read_through};
use crate::recovery::recover;
use r10_medium::{BlockMedium, MediumFault};
use r10_sector::{SectorDevice, Side, SlotFault};
use std::alloc::Global;

/// A medium of blocks over a device whose sectors tear.
///
/// What is written is kept in memory until a sync. The sync writes it into a slot of the journal, makes that durable, and then
/// writes it in place. So a power loss leaves in each block what is read, or what was read after the last sync that succeeded,
/// once `open` has put the slots in place. After a write or a sync that failed each sync fails, until it is opened anew.
#[derive(Drop)]
pub struct DoubleWrite<D: SectorDevice> {
    alloc: Global,
    device: D,
    // the sectors written since the last sync, by their first blocks, and their blocks
    firsts: Vec<usize>,
    blocks: Vec<[u8; 512]>,
    // the number of the newest slot, and the slot that is written next
    number: u64,
    next: Side,
    // a write or a sync failed
    failed: bool,
    // how often a call was refused by the layer itself
    refused: u64,
    ghost sectors: { AreSectors D.per (length (D.plate device).now.image) firsts.items blocks.items },
    ghost room: { length firsts.items ≤ D.room },
    ghost guarded: { failed ≡ false → IsGuarded (D.plate device) next number },
    ghost trusted: { failed ≡ false → (D.plate device).trusted ≡ true },
}

impl<D: SectorDevice + Drop> DoubleWrite<D> {
    ghost use Rattle.std.specs.Prelude.{IfOk};
    ghost use Rattle.r10_medium.specs.Disk.{IsSynced};
    ghost use Rattle.r10_sector.specs.Held.{recovered};
    ghost use Rattle.r10_doublewrite.specs.Guarding.{RecoveryGives};
    ghost use Rattle.r10_doublewrite.specs.LayerDisk.{device_in, layer_disk};

    /// The medium of this device, once what a power loss left of it was put right. The device is one that was opened anew after a
    /// failure.
    pub fn open(alloc: Global, mut device: D) -> Result<Self, SlotFault>
        requires { (D.plate device).trusted ≡ true }
        ensures reads { IfOk result (λ l. (layer_disk l).blocks ≡ recovered D.per (D.plate device).now) }
        ensures durable { IfOk result (λ l. IsSynced (layer_disk l)) }
        ensures gives { IfOk result (λ l. RecoveryGives (λ image. image ≡ recovered D.per (D.plate device).now)
            (D.plate device) (D.plate (device_in l))) }
    {
        match recover(alloc, &mut device) {
            Ok(found) => Ok(DoubleWrite {
                alloc,
                device,
                firsts: Vec::new(alloc),
                blocks: Vec::new(alloc),
                number: found.number,
                next: found.next,
                failed: false,
                refused: 0,
            }),
            Err(fault) => Err(fault),
        }
    }
}

impl<D: SectorDevice> DoubleWrite<D> {
    ghost use Rattle.std.specs.Prelude.{[], ◌<◌, ◌+◌, ◌%◌, take, drop, IfOk, IsErr, OnOk, OnErr, ◌⊎◌};
    ghost use Rattle.r10_medium.specs.Disk.{Counts, IsSynced, IsWhole, Rose, Unchanged};
    ghost use Rattle.r10_doublewrite.specs.Last.{IsLast};
    ghost use Rattle.r10_doublewrite.specs.LayerDisk.{device_in, layer_disk, IsLayerClosed};

    /// The device under it, as it stands. What was written since the last sync is lost.
    pub fn into_device(self) -> D
        ensures { result ≡ device_in self }
    {
        let DoubleWrite {
            alloc: _,
            device,
            firsts: _,
            blocks: _,
            number: _,
            next: _,
            failed: _,
            refused: _,
        } = self;
        device
    }

    // Puts what was written through the journal, and in place.
    fn flush(&mut self) -> Result<(), MediumFault>
        ensures same { Unchanged (layer_disk self.old) (layer_disk self.new) }
        ensures empty { OnOk result (self.new.firsts.items ≡ []) }
        ensures durable { OnOk result (IsSynced (layer_disk self.new)) }
        ensures counts { Counts (layer_disk self.old) (layer_disk self.new) result }
        ensures fails { OnErr result (IsLayerClosed self.old
            ⊎ Rose (D.plate self.old.device).failures (D.plate self.new.device).failures) }
        ensures closes { OnErr result (IsLayerClosed self.new) }
        ensures closed { IsLayerClosed self.old → IsErr result }
    {
        if self.failed || self.number == u64::MAX {
            self.refused = self.refused.saturating_add(1);
            return Err(MediumFault);
        }
        let Ok(()) = commit(
            &mut self.device,
            self.next,
            self.number,
            &self.firsts,
            &self.blocks,
        ) else {
            self.failed = true;
            return Err(MediumFault);
        };
        self.number += 1;
        self.next = self.next.other();
        self.firsts.clear();
        self.blocks.clear();
        Ok(())
    }

    // Makes room for one sector more.
    fn make_room(&mut self) -> Result<(), MediumFault>
        ensures same { Unchanged (layer_disk self.old) (layer_disk self.new) }
        ensures room { OnOk result (length self.new.firsts.items < D.room) }
        ensures counts { Counts (layer_disk self.old) (layer_disk self.new) result }
    {
        if self.firsts.len() < self.device.slot_sectors() {
            return Ok(());
        }
        self.flush()
    }

    // Reads the sector of block `n`, where there is room for it.
    fn load(&mut self, n: usize) -> Result<usize, MediumFault>
        requires within { n < length (layer_disk self.old).blocks }
        requires room { length self.old.firsts.items < D.room }
        ensures same { Unchanged (layer_disk self.old) (layer_disk self.new) }
        ensures last { IfOk result (λ i. IsLast D.per self.new.firsts.items n i) }
        ensures counts { Counts (layer_disk self.old) (layer_disk self.new) result }
    {
        let first = n - n % self.device.sector_blocks();
        match read_sector(
            self.alloc,
            &mut self.device,
            &self.firsts,
            &self.blocks,
            first,
        ) {
            Ok(sector) => self.add(n, first, sector),
            Err(SlotFault::Device) => Err(MediumFault),
            Err(SlotFault::Memory) => {
                self.refused = self.refused.saturating_add(1);
                Err(MediumFault)
            }
        }
    }

    // Puts the sector of block `n` after those that were written.
    fn add(&mut self, n: usize, first: usize, sector: Vec<[u8; 512]>) -> Result<usize, MediumFault>
        requires room { length self.old.firsts.items < D.room }
        requires from { first ≤ n }
        requires below { n < first + D.per }
        requires within { first + D.per ≤ length (D.plate self.old.device).now.image }
        requires aligned { first % D.per ≡ 0 }
        requires whole { IsWhole sector.items }
        requires sector { sector.items ≡ take D.per (drop first (layer_disk self.old).blocks) }
        ensures same { Unchanged (layer_disk self.old) (layer_disk self.new) }
        ensures last { IfOk result (λ i. IsLast D.per self.new.firsts.items n i) }
        ensures counts { Counts (layer_disk self.old) (layer_disk self.new) result }
    {
        if push_sector(&mut self.firsts, &mut self.blocks, first, sector) {
            return Ok(self.firsts.len() - 1);
        }
        self.refused = self.refused.saturating_add(1);
        Err(MediumFault)
    }

    // In which of the sectors that are kept block `n` lies; its sector is read where none has it.
    fn place(&mut self, n: usize) -> Result<usize, MediumFault>
        requires { n < length (layer_disk self.old).blocks }
        ensures same { Unchanged (layer_disk self.old) (layer_disk self.new) }
        ensures last { IfOk result (λ i. IsLast D.per self.new.firsts.items n i) }
        ensures counts { Counts (layer_disk self.old) (layer_disk self.new) result }
    {
        if let Some(i) = find(&self.firsts, self.device.sector_blocks(), n) {
            return Ok(i);
        }
        if let Err(fault) = self.make_room() {
            return Err(fault);
        }
        self.load(n)
    }
}

impl<D: SectorDevice> BlockMedium for DoubleWrite<D> {
    ghost use Rattle.std.specs.Prelude.{◌<◌, ◌⊎◌, IsErr, OnOk, OnErr};
    ghost use Rattle.r10_medium.specs.Disk.{block_at, Counts, IsSynced, Rose, Unchanged};
    ghost use Rattle.r10_doublewrite.specs.LayerDisk.{device_in, layer_disk, IsLayerClosed};

    ghost disk = { layer_disk };

    fn blocks(&self) -> usize {
        self.device.blocks()
    }

    /// A read fails only in a call in which the device failed.
    fn read(&mut self, n: usize, block: &mut [u8; 512]) -> Result<(), MediumFault>
        requires { n < length (layer_disk self.old).blocks }
        ensures read { OnOk result (block.new ≡ block_at (layer_disk self.old).blocks n) }
        ensures same { Unchanged (layer_disk self.old) (layer_disk self.new) }
        ensures counts { Counts (layer_disk self.old) (layer_disk self.new) result }
        ensures fails { OnErr result (Rose (D.plate (device_in self.old)).failures (D.plate (device_in self.new)).failures) }
    {
        let Ok(()) = read_through(&mut self.device, &self.firsts, &self.blocks, n, block) else {
            return Err(MediumFault);
        };
        Ok(())
    }

    fn write(&mut self, n: usize, block: &[u8; 512]) -> Result<(), MediumFault> {
        match self.place(n) {
            Ok(i) => {
                let at = index_of(
                    &self.firsts,
                    self.device.sector_blocks(),
                    n,
                    i,
                    self.blocks.len(),
                );
                self.blocks[at] = *block;
                Ok(())
            }
            Err(fault) => Err(fault),
        }
    }

    /// A sync fails in a call in which the device failed, and in each after that, until the layer is opened anew; and after
    /// 2^64 - 1 batches.
    fn sync(&mut self) -> Result<(), MediumFault>
        ensures durable { OnOk result (IsSynced (layer_disk self.new)) }
        ensures same { Unchanged (layer_disk self.old) (layer_disk self.new) }
        ensures counts { Counts (layer_disk self.old) (layer_disk self.new) result }
        ensures fails { OnErr result (IsLayerClosed self.old
            ⊎ Rose (D.plate (device_in self.old)).failures (D.plate (device_in self.new)).failures) }
        ensures closes { OnErr result (IsLayerClosed self.new) }
        ensures closed { IsLayerClosed self.old → IsErr result }
    {
        self.flush()
    }

    fn failures(&self) -> u64 {
        self.device.failures().saturating_add(self.refused)
    }
}
