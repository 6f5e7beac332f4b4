// A device of sectors that tear.
ghost use Rattle.std.specs.Prelude.{◌≡◌, ◌+◌, ◌%◌, ◌<◌, ◌≤◌, ◌∷◌, [], ℕ, length, Some, None, OnOk, IfOk, IsErrOf};
ghost use Rattle.r10_medium.specs.Disk.{block_at};
ghost use Rattle.r10_medium.specs.PowerLoss.{put_blocks};
ghost use Rattle.r10_sector.specs.Held.{Held, AgreesBut, AgreesButSlot, AreSectors, slot_of, with_slot};
ghost use Rattle.r10_sector.specs.Plate.{Plate, Changes, MakesSure, Rises, Stays};
ghost use Rattle.r10_sector.specs.Stored.{slot_in};

use crate::{Side, Stored};
use std::alloc::Global;
use thiserror::Error;

/// A call of the device failed.
#[derive(Clone, Copy, Debug, PartialEq, Eq, Drop, Error)]
#[error("a call of the device failed")]
pub struct SectorFault;

/// Why a slot was not read.
#[derive(Clone, Copy, Debug, PartialEq, Eq, Drop, Error)]
pub enum SlotFault {
    /// memory was refused
    #[error("no memory for a slot")]
    Memory,
    /// a call of the device failed
    #[error("a call of the device failed")]
    Device,
}

/// A device of 512-byte blocks, of which each write rewrites a whole sector, and two slots of a journal beside the blocks.
///
/// - Until a sync succeeds, a power loss leaves a sector that was written as before, or as anything at all. All other sectors stay.
/// - A slot that was written reads after a power loss as before, as what was written, or as none. A torn slot is none.
///   That a torn slot is found out is owed by whoever makes a device, as by a sum over all that the slot holds.
/// - A sync that succeeds makes a power loss leave what is read, until the next write. After a write or a sync that failed
///   no sync says anything, until the device is opened anew without the system's copies.
pub trait SectorDevice {
    /// How many blocks a sector has.
    ghost per: { ℕ };

    /// How many sectors a slot holds.
    ghost room: { ℕ };

    /// What reads give, what a power loss may leave, and how often the device failed.
    ghost plate: { Self → Plate per };

    /// The number of blocks.
    fn blocks(&self) -> usize
        ensures { result ≡ length (plate self.now).now.image };

    /// How many blocks a sector has.
    fn sector_blocks(&self) -> usize
        ensures { result ≡ per };

    /// How many sectors a slot holds.
    fn slot_sectors(&self) -> usize
        ensures { result ≡ room };

    /// Reads block `n`. After an `Err` the bytes of `block` may be any.
    fn read(&mut self, n: usize, block: &mut [u8; 512]) -> Result<(), SectorFault>
        requires { n < length (plate self.old).now.image }
        ensures read { OnOk result (block.new ≡ block_at (plate self.old).now.image n) }
        ensures same { Stays (plate self.old) (plate self.new) }
        ensures trust { (plate self.new).trusted ≡ (plate self.old).trusted }
        ensures counts { Rises (plate self.old).failures (plate self.new).failures result };

    /// Writes the sector that begins at block `first`. Until a sync succeeds, a power loss may leave anything in it.
    fn write(&mut self, first: usize, blocks: &[[u8; 512]]) -> Result<(), SectorFault>
        requires within { first + per ≤ length (plate self.old).now.image }
        requires aligned { first % per ≡ 0 }
        requires sector { length blocks.now ≡ per }
        ensures written { OnOk result ((plate self.new).now.image ≡ put_blocks (plate self.old).now.image first blocks.now) }
        ensures tears { Changes (AgreesBut per (first ∷ [])) (plate self.old) (plate self.new) }
        ensures trust { OnOk result ((plate self.new).trusted ≡ (plate self.old).trusted) }
        ensures counts { Rises (plate self.old).failures (plate self.new).failures result };

    /// Reads a slot: what it holds, or none.
    fn read_slot(&mut self, alloc: Global, side: Side) -> Result<Option<Stored>, SlotFault>
        ensures slot { IfOk result (λ o. slot_in o ≡ slot_of side (plate self.old).now) }
        ensures same { Stays (plate self.old) (plate self.new) }
        ensures trust { (plate self.new).trusted ≡ (plate self.old).trusted }
        ensures counts { IsErrOf result SlotFault.Device → Rises (plate self.old).failures (plate self.new).failures result }
        ensures no_fewer { (plate self.old).failures ≤ (plate self.new).failures };

    /// Writes sectors into a slot, with a number. Until a sync succeeds, a power loss may leave the slot as before, or as none.
    fn write_slot(
        &mut self,
        side: Side,
        number: u64,
        firsts: &[usize],
        blocks: &[[u8; 512]],
    ) -> Result<(), SectorFault>
        requires room { length firsts.now ≤ room }
        requires sectors { AreSectors per (length (plate self.old).now.image) firsts.now blocks.now }
        ensures written { OnOk result ((plate self.new).now
            ≡ with_slot side (Some (record { number = number; firsts = firsts.now; blocks = blocks.now })) (plate self.old).now) }
        ensures tears { Changes (AgreesButSlot side (Some (record { number = number; firsts = firsts.now; blocks = blocks.now })))
            (plate self.old) (plate self.new) }
        ensures trust { OnOk result ((plate self.new).trusted ≡ (plate self.old).trusted) }
        ensures counts { Rises (plate self.old).failures (plate self.new).failures result };

    /// Empties a slot. Until a sync succeeds, a power loss may leave it as before.
    fn empty_slot(&mut self, side: Side) -> Result<(), SectorFault>
        ensures written { OnOk result ((plate self.new).now ≡ with_slot side None (plate self.old).now) }
        ensures tears { Changes (AgreesButSlot side None) (plate self.old) (plate self.new) }
        ensures trust { OnOk result ((plate self.new).trusted ≡ (plate self.old).trusted) }
        ensures counts { Rises (plate self.old).failures (plate self.new).failures result };

    /// Syncs what was written: after an `Ok` a power loss leaves what is read, if no write and no sync failed before.
    fn sync(&mut self) -> Result<(), SectorFault>
        ensures durable { OnOk result (MakesSure (plate self.old) (plate self.new)) }
        ensures same { Stays (plate self.old) (plate self.new) }
        ensures trust { OnOk result ((plate self.new).trusted ≡ (plate self.old).trusted) }
        ensures counts { Rises (plate self.old).failures (plate self.new).failures result };

    /// How often the device failed, up to `u64::MAX`, where it stays.
    fn failures(&self) -> u64
        ensures { result ≡ (plate self.now).failures };

    /// A slot holds a sector at least.
    ghost has_room: { 0 < room };
}
