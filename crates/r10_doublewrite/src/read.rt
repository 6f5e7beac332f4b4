// Reads through what was written and not yet synced.
ghost use Rattle.std.specs.Prelude.{◌≡◌, ◌+◌, ◌-◌, ◌*◌, ◌<◌, ◌≤◌, ◌∷◌, ◌++◌, [], true, false};
ghost use Rattle.std.specs.Prelude.{length, take, drop, slice_index, OnOk, IfOk, IsErrOf};
ghost use Rattle.r10_medium.specs.Disk.{block_at, IsWhole, Rose};
ghost use Rattle.r10_sector.specs.Held.{AreSectors, put_sectors};
ghost use Rattle.r10_sector.specs.Plate.{Rises, Stays};
ghost use Rattle.r10_doublewrite.specs.Last.{IsLast};

use crate::finding::find;
use r10_sector::{SectorDevice, SectorFault, SlotFault};
use std::alloc::Global;

/// Where block `n` stands among the blocks of the sectors, of which it lies in the one of number `i`.
pub(crate) fn index_of(firsts: &[usize], per: usize, n: usize, i: usize, size: usize) -> usize
    requires last { IsLast per firsts.now n i }
    requires size { size ≡ per * length firsts.now }
    ensures is { result ≡ per * i + (n - slice_index firsts.now i) }
    ensures within { result < size }
{
    per * i + (n - firsts[i])
}

/// Reads block `n`, as it was written or as the device has it.
pub(crate) fn read_through<D: SectorDevice>(
    device: &mut D,
    firsts: &[usize],
    blocks: &[[u8; 512]],
    n: usize,
    block: &mut [u8; 512],
) -> Result<(), SectorFault>
    requires sectors { AreSectors D.per (length (D.plate device.old).now.image) firsts.now blocks.now }
    requires within { n < length (D.plate device.old).now.image }
    ensures read { OnOk result (block.new ≡ block_at (put_sectors D.per firsts.now blocks.now (D.plate device.old).now.image) n) }
    ensures same { Stays (D.plate device.old) (D.plate device.new) }
    ensures trust { (D.plate device.new).trusted ≡ (D.plate device.old).trusted }
    ensures counts { Rises (D.plate device.old).failures (D.plate device.new).failures result }
{
    let per = device.sector_blocks();
    if let Some(i) = find(firsts, per, n) {
        *block = blocks[index_of(firsts, per, n, i, blocks.len())];
        return Ok(());
    }
    let Ok(()) = device.read(n, block) else {
        return Err(SectorFault);
    };
    Ok(())
}

/// Reads the sector that begins at block `first`, as it was written or as the device has it.
pub(crate) fn read_sector<D: SectorDevice>(
    alloc: Global,
    device: &mut D,
    firsts: &[usize],
    blocks: &[[u8; 512]],
    first: usize,
) -> Result<Vec<[u8; 512]>, SlotFault>
    requires sectors { AreSectors D.per (length (D.plate device.old).now.image) firsts.now blocks.now }
    requires within { first + D.per ≤ length (D.plate device.old).now.image }
    ensures sector { IfOk result (λ v. v.items
        ≡ take D.per (drop first (put_sectors D.per firsts.now blocks.now (D.plate device.old).now.image))) }
    ensures whole { IfOk result (λ v. IsWhole v.items) }
    ensures same { Stays (D.plate device.old) (D.plate device.new) }
    ensures trust { (D.plate device.new).trusted ≡ (D.plate device.old).trusted }
    ensures no_fewer { (D.plate device.old).failures ≤ (D.plate device.new).failures }
    ensures cause { IsErrOf result SlotFault.Device → Rose (D.plate device.old).failures (D.plate device.new).failures }
{
    let per = device.sector_blocks();
    let mut sector = Vec::new(alloc);
    for j in 0..per {
        let mut block = [0; 512];
        let Ok(()) = read_through(device, firsts, blocks, first + j, &mut block) else {
            return Err(SlotFault::Device);
        };
        let Ok(()) = sector.push(block) else {
            return Err(SlotFault::Memory);
        };
    }
    Ok(sector)
}

/// Puts one sector after those that were written.
pub(crate) fn push_sector(
    firsts: &mut Vec<usize>,
    blocks: &mut Vec<[u8; 512]>,
    first: usize,
    mut sector: Vec<[u8; 512]>,
) -> bool
    ensures done { result ≡ true
        → (firsts.new.items ≡ firsts.old.items ++ first ∷ []) × (blocks.new.items ≡ blocks.old.items ++ sector.items) }
    ensures not_done { result ≡ false → (firsts.new.items ≡ firsts.old.items) × (blocks.new.items ≡ blocks.old.items) }
{
    let Ok(()) = firsts.push(first) else {
        return false;
    };
    let Ok(()) = blocks.append(&mut sector) else {
        let _ = firsts.pop();
        return false;
    };
    true
}
