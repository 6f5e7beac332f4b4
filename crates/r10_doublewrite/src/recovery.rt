// What a power loss left is put right.
ghost use Rattle.std.specs.Prelude.{◌≡◌, true, length, OnOk, IfOk, IsErrOf};
ghost use Rattle.r10_medium.specs.Disk.{Rose};
ghost use Rattle.r10_sector.specs.Held.{AgreesBut, IsFitting, number_of, put_slot, recovered, slot_of};
ghost use Rattle.r10_sector.specs.Plate.{Changes, IsSure, Rises};
ghost use Rattle.r10_sector.specs.Sides.{opposite};
ghost use Rattle.r10_sector.specs.Stored.{slot_in};
ghost use Rattle.r10_doublewrite.specs.Guarding.{RecoveryGives, IsGuarded};
ghost use Rattle.r10_doublewrite.specs.Opening.{firsts_in, IsNewest};

use crate::place::put_in_place;
use r10_sector::{SectorDevice, SectorFault, Side, SlotFault, Stored};
use std::alloc::Global;

/// The number of the newest slot, and the slot that is written next.
#[derive(Clone, Copy)]
pub struct Recovered {
    pub number: u64,
    pub next: Side,
}

// Puts what a slot holds in place, without a sync.
fn put_stored<D: SectorDevice>(device: &mut D, stored: &Option<Stored>) -> Result<(), SectorFault>
    requires { IsFitting D.per (length (D.plate device.old).now.image) (slot_in stored.now) }
    ensures changes { Changes (AgreesBut D.per (firsts_in (slot_in stored.now))) (D.plate device.old) (D.plate device.new) }
    ensures put { OnOk result ((D.plate device.new).now.image
        ≡ put_slot D.per (slot_in stored.now) (D.plate device.old).now.image) }
    ensures trust { OnOk result ((D.plate device.new).trusted ≡ (D.plate device.old).trusted) }
    ensures counts { Rises (D.plate device.old).failures (D.plate device.new).failures result }
{
    match stored {
        None => Ok(()),
        Some(s) => put_in_place(device, &s.firsts, &s.blocks),
    }
}

// Puts both slots in place, that with the lower number first, and syncs.
fn settle<D: SectorDevice>(
    device: &mut D,
    side: Side,
    older: &Option<Stored>,
    newer: &Option<Stored>,
) -> Result<(), SectorFault>
    requires durable { IsSure (D.plate device.old) }
    requires trusted { (D.plate device.old).trusted ≡ true }
    requires newest { IsNewest side (D.plate device.old).now }
    requires older { slot_in older.now ≡ slot_of (opposite side) (D.plate device.old).now }
    requires newer { slot_in newer.now ≡ slot_of side (D.plate device.old).now }
    ensures gives { RecoveryGives (λ image. image ≡ recovered D.per (D.plate device.old).now) (D.plate device.old)
        (D.plate device.new) }
    ensures reads { OnOk result ((D.plate device.new).now.image ≡ recovered D.per (D.plate device.old).now) }
    ensures guarded { OnOk result (IsGuarded (D.plate device.new) (opposite side) (number_of (slot_in newer.now))) }
    ensures trusted { OnOk result ((D.plate device.new).trusted ≡ true) }
    ensures counts { Rises (D.plate device.old).failures (D.plate device.new).failures result }
{
    let Ok(()) = put_stored(device, older) else {
        return Err(SectorFault);
    };
    let Ok(()) = put_stored(device, newer) else {
        return Err(SectorFault);
    };
    let Ok(()) = device.sync() else {
        return Err(SectorFault);
    };
    Ok(())
}

// The number of what a slot holds, or 0.
fn number_in(stored: &Option<Stored>) -> u64
    ensures { result ≡ number_of (slot_in stored.now) }
{
    match stored {
        None => 0,
        Some(s) => s.number,
    }
}

// Puts both slots in place, in their order.
fn settle_both<D: SectorDevice>(
    device: &mut D,
    one: &Option<Stored>,
    two: &Option<Stored>,
) -> Result<Recovered, SectorFault>
    requires durable { IsSure (D.plate device.old) }
    requires trusted { (D.plate device.old).trusted ≡ true }
    requires one { slot_in one.now ≡ (D.plate device.old).now.one }
    requires two { slot_in two.now ≡ (D.plate device.old).now.two }
    ensures gives { RecoveryGives (λ image. image ≡ recovered D.per (D.plate device.old).now) (D.plate device.old)
        (D.plate device.new) }
    ensures reads { OnOk result ((D.plate device.new).now.image ≡ recovered D.per (D.plate device.old).now) }
    ensures guarded { IfOk result (λ r. IsGuarded (D.plate device.new) r.next r.number) }
    ensures trusted { OnOk result ((D.plate device.new).trusted ≡ true) }
    ensures counts { Rises (D.plate device.old).failures (D.plate device.new).failures result }
{
    if number_in(one) < number_in(two) {
        let Ok(()) = settle(device, Side::Two, one, two) else {
            return Err(SectorFault);
        };
        return Ok(Recovered {
            number: number_in(two),
            next: Side::One,
        });
    }
    let Ok(()) = settle(device, Side::One, two, one) else {
        return Err(SectorFault);
    };
    Ok(Recovered {
        number: number_in(one),
        next: Side::Two,
    })
}

/// Puts right what a power loss left: the whole slots are put in place, the older first. A power loss amid that, or a failure,
/// leaves what gives the same again. The device is one that was opened anew after a failure.
pub fn recover<D: SectorDevice>(alloc: Global, device: &mut D) -> Result<Recovered, SlotFault>
    requires { (D.plate device.old).trusted ≡ true }
    ensures gives { RecoveryGives (λ image. image ≡ recovered D.per (D.plate device.old).now) (D.plate device.old)
        (D.plate device.new) }
    ensures reads { OnOk result ((D.plate device.new).now.image ≡ recovered D.per (D.plate device.old).now) }
    ensures guarded { IfOk result (λ r. IsGuarded (D.plate device.new) r.next r.number) }
    ensures trusted { OnOk result ((D.plate device.new).trusted ≡ true) }
    ensures cause { IsErrOf result SlotFault.Device → Rose (D.plate device.old).failures (D.plate device.new).failures }
{
    // What is read has to be durable before anything is written over it.
    let Ok(()) = device.sync() else {
        return Err(SlotFault::Device);
    };
    let one = match device.read_slot(alloc, Side::One) {
        Ok(one) => one,
        Err(fault) => return Err(fault),
    };
    let two = match device.read_slot(alloc, Side::Two) {
        Ok(two) => two,
        Err(fault) => return Err(fault),
    };
    match settle_both(device, &one, &two) {
        Ok(found) => Ok(found),
        Err(_) => Err(SlotFault::Device),
    }
}
