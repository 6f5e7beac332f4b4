//! Samples are carried.

ghost use Rattle.std.specs.Prelude.{◌≡◌, false, true, None};
ghost use Rattle.r10_body.specs.Statuses.{closed_status};
ghost use Rattle.r10_calls.specs.EventCalls.{KeepsMedium};
ghost use Rattle.r10_carrier.specs.Carrying.{Carries, CarriesFirst, ReachesNext, in_hand, why_not};
ghost use Rattle.r10_ends.specs.Ends.{OutletGoes};

use crate::carry::Carry;
use r10_body::Sample;
use r10_body::status::{CLOSED, OVERFLOW};
use r10_calls::Desk;
use r10_ends::{Carrier, OutletEnd};
use r10_lane::LaneOut;
use r10_port::Outlet;
use r10_region::SteadyMedium;
use std::alloc::Global;

/// Why a sample is not carried whose offer would be refused by this number: a lane that is full is no fault.
fn why_not(number: u32) -> u32
    ensures { result ≡ why_not number }
{
    if number == OVERFLOW { 0 } else { number }
}

/// Carries the sample in hand, if there is one. One that the lane does not take stays in hand.
fn carry_hand<M: SteadyMedium + Drop>(
    desk: &mut Desk<M>,
    channel: u16,
    hand: &mut Option<Sample>,
) -> Carry
    ensures does { CarriesFirst M.disk channel desk.old (in_hand hand.old) result desk.new hand.new }
    ensures stays { KeepsMedium M.identity desk.old desk.new }
{
    let Some(sample) = hand.take() else {
        return Carry {
            number: 0,
            channel,
            carried: false,
        };
    };
    match desk.carry(channel, sample) {
        Ok(()) => Carry {
            number: 0,
            channel,
            carried: true,
        },
        Err((number, sample)) => {
            *hand = Some(sample);
            Carry {
                number: why_not(number),
                channel,
                carried: false,
            }
        }
    }
}

/// Takes the next sample in hand, if none is in it.
fn reach(outlet: &mut Outlet, hand: &mut Option<Sample>)
    ensures { ReachesNext outlet.old hand.old outlet.new hand.new }
{
    if hand.is_none() {
        *hand = outlet.take();
    }
}

/// Carries the sample in hand, or, if there is none, the next.
fn carry_into_lane<M: SteadyMedium + Drop>(carrier: &mut Carrier, desk: &mut Desk<M>) -> Carry
    ensures does { Carries M.disk desk.old carrier.old result desk.new carrier.new }
    ensures stays { KeepsMedium M.identity desk.old desk.new }
{
    let channel = carrier.outlet.spec().id;
    reach(&mut carrier.outlet, &mut carrier.hand);
    carry_hand(desk, channel, &mut carrier.hand)
}

/// Carries one sample of an outlet into the recorder's lane, with the loss before it, if there is one and the lane takes it. Else
/// its number says why not, or 0; 44 if the outlet is not open. What is not carried stays in the outlet, and no loss is counted.
pub fn carry_one<M: SteadyMedium + Drop>(
    alloc: Global,
    outlet: &mut OutletEnd,
    desk: &mut Desk<M>,
) -> Carry
    ensures does { outlet.old.opened ≡ true → OutletGoes outlet.old outlet.new
        (λ from to. Carries M.disk desk.old from result desk.new to) }
    ensures closed { outlet.old.opened ≡ false → (result ≡ record { number = closed_status; channel = 0; carried = false })
        × (outlet.new ≡ outlet.old) × (desk.new ≡ desk.old) }
    ensures stays { KeepsMedium M.identity desk.old desk.new }
{
    if !outlet.is_open() {
        return Carry {
            number: CLOSED,
            channel: 0,
            carried: false,
        };
    }
    let mut carrier = outlet.take(alloc);
    let carry = carry_into_lane(&mut carrier, desk);
    outlet.put(carrier);
    carry
}
