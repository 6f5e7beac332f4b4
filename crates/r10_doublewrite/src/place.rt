// Sectors put in place, and a batch that goes through the journal.
ghost use Rattle.std.specs.Prelude.{◌≡◌, ◌+◌, ◌^◌, ◌<◌, ◌≤◌, true, length, Some, OnOk};
ghost use Rattle.r10_sector.specs.Held.{AgreesBut, AgreesButSlot, AreSectors, put_sectors, with_slot};
ghost use Rattle.r10_sector.specs.Plate.{Changes, MakesSure, Rises};
ghost use Rattle.r10_sector.specs.Sides.{opposite};
ghost use Rattle.r10_doublewrite.specs.Guarding.{RecoveryGives, IsBeforeOrAfter, IsGuarded};

use r10_sector::{SectorDevice, SectorFault, Side};

/// Writes sectors in place, one after the other, without a sync.
pub(crate) fn put_in_place<D: SectorDevice>(
    device: &mut D,
    firsts: &[usize],
    blocks: &[[u8; 512]],
) -> Result<(), SectorFault>
    requires { AreSectors D.per (length (D.plate device.old).now.image) firsts.now blocks.now }
    ensures changes { Changes (AgreesBut D.per firsts.now) (D.plate device.old) (D.plate device.new) }
    ensures put { OnOk result ((D.plate device.new).now.image
        ≡ put_sectors D.per firsts.now blocks.now (D.plate device.old).now.image) }
    ensures trust { OnOk result ((D.plate device.new).trusted ≡ (D.plate device.old).trusted) }
    ensures counts { Rises (D.plate device.old).failures (D.plate device.new).failures result }
{
    let per = device.sector_blocks();
    let mut rest = blocks;
    for i in 0..firsts.len() {
        let (sector, after) = rest.split_at(per);
        if let Err(fault) = device.write(firsts[i], sector) {
            return Err(fault);
        }
        rest = after;
    }
    Ok(())
}

/// Writes sectors into a slot, and makes that durable.
#[tactic(auto, using(crate::proofs::Guarded::changes_stay))]
fn write_durably<D: SectorDevice>(
    device: &mut D,
    side: Side,
    number: u64,
    firsts: &[usize],
    blocks: &[[u8; 512]],
) -> Result<(), SectorFault>
    requires sectors { AreSectors D.per (length (D.plate device.old).now.image) firsts.now blocks.now }
    requires room { length firsts.now ≤ D.room }
    ensures tears { Changes (AgreesButSlot side (Some (record { number = number; firsts = firsts.now; blocks = blocks.now })))
        (D.plate device.old) (D.plate device.new) }
    ensures written { OnOk result ((D.plate device.new).now
        ≡ with_slot side (Some (record { number = number; firsts = firsts.now; blocks = blocks.now })) (D.plate device.old).now) }
    ensures durable { OnOk result (MakesSure (D.plate device.old) (D.plate device.new)) }
    ensures trust { OnOk result ((D.plate device.new).trusted ≡ (D.plate device.old).trusted) }
    ensures counts { Rises (D.plate device.old).failures (D.plate device.new).failures result }
{
    if let Err(fault) = device.write_slot(side, number, firsts, blocks) {
        return Err(fault);
    }
    if let Err(fault) = device.sync() {
        return Err(fault);
    }
    Ok(())
}

/// Writes sectors into a slot, makes that durable, and then writes them in place. Until the next sync recovery takes from the slot
/// what is not yet durable in place.
pub(crate) fn commit<D: SectorDevice>(
    device: &mut D,
    next: Side,
    number: u64,
    firsts: &[usize],
    blocks: &[[u8; 512]],
) -> Result<(), SectorFault>
    requires sectors { AreSectors D.per (length (D.plate device.old).now.image) firsts.now blocks.now }
    requires room { length firsts.now ≤ D.room }
    requires number { number + 1 < 2 ^ 64 }
    requires guarded { IsGuarded (D.plate device.old) next number }
    requires trusted { (D.plate device.old).trusted ≡ true }
    ensures gives { RecoveryGives (IsBeforeOrAfter (D.plate device.old).now.image
        (put_sectors D.per firsts.now blocks.now (D.plate device.old).now.image)) (D.plate device.old) (D.plate device.new) }
    ensures size { length (D.plate device.new).now.image ≡ length (D.plate device.old).now.image }
    ensures shows { put_sectors D.per firsts.now blocks.now (D.plate device.new).now.image
        ≡ put_sectors D.per firsts.now blocks.now (D.plate device.old).now.image }
    ensures put { OnOk result ((D.plate device.new).now.image
        ≡ put_sectors D.per firsts.now blocks.now (D.plate device.old).now.image) }
    ensures guarded { OnOk result (IsGuarded (D.plate device.new) (opposite next) (number + 1)) }
    ensures trusted { OnOk result ((D.plate device.new).trusted ≡ true) }
    ensures counts { Rises (D.plate device.old).failures (D.plate device.new).failures result }
{
    if let Err(fault) = write_durably(device, next, number + 1, firsts, blocks) {
        return Err(fault);
    }
    if let Err(fault) = put_in_place(device, firsts, blocks) {
        return Err(fault);
    }
    Ok(())
}
