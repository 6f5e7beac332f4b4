//! The calls on the ends of lanes between threads.

ghost use Rattle.std.specs.Prelude.{◌≡◌, ◌≢◌, ◌⊎◌, ◌↔◌, false, true, None};
ghost use Rattle.r10_body.specs.Messages.{arinc_message, bus_message, data_message, discrete_message, uart_message};
ghost use Rattle.r10_body.specs.Statuses.{no_channel_status, closed_status, memory_status, open_status, script_status};
ghost use Rattle.r10_carrier.specs.Opening.{LacksChannel, OpensLane};
ghost use Rattle.r10_ends.specs.Ends.{IsOpenOne, PortGoes};
ghost use Rattle.r10_ends.specs.Sending.{OffersByPort, OffersOrLacks, port_out};
ghost use Rattle.r10_port.specs.Ends.{with_losses};
ghost use Rattle.r10_region.specs.RegionDisk.{region_disk};
ghost use Rattle.r10_ffi.specs.Calls.{IsClosed, IsOpen};
ghost use Rattle.r10_ffi.specs.Ports.{CarriesInto};

use crate::recorder::Recorder;
use r10_body::status::CLOSED;
use r10_calls::count_accepted;
use r10_carrier::{carry_one, open_lane};
use r10_ends::{OutletEnd, PortEnd, PortOut};
use std::alloc::Global;

/// Opens the two ends of a lane for a channel of the script. 0, or 6, 30, 40, 45.
#[unsafe(no_mangle)]
pub extern "C" fn r10_port_open(
    alloc: Global,
    script: &[u8],
    channel: u16,
    port: &mut PortEnd,
    outlet: &mut OutletEnd,
) -> u32
    ensures opens { result ≡ 0 → OpensLane script.now channel port.new outlet.new }
    ensures unknown { result ≡ no_channel_status → LacksChannel script.now channel }
    ensures untouched { result ≢ 0 → (port.new ≡ port.old) × (outlet.new ≡ outlet.old) }
    ensures opened { (result ≡ open_status) ↔ IsOpenOne port.old outlet.old }
    ensures numbers { (result ≡ 0) ⊎ (result ≡ no_channel_status) ⊎ (result ≡ memory_status) ⊎ (result ≡ script_status)
        ⊎ (result ≡ open_status) }
{
    open_lane(alloc, script, channel, port, outlet)
}

/// Offers a message of a serial line. 0, or 7 to 12, 30, 44.
#[unsafe(no_mangle)]
pub extern "C" fn r10_port_uart(
    alloc: Global,
    port: &mut PortEnd,
    count: u64,
    parity: bool,
    sub: u16,
    bytes: &[u8],
) -> u32
    ensures does { port.old.opened ≡ true
        → PortGoes port.old port.new (λ old new. OffersOrLacks old count (uart_message parity sub bytes.now) result new) }
    ensures closed { port.old.opened ≡ false → (result ≡ closed_status) × (port.new ≡ port.old) }
{
    port.offer_uart(alloc, count, parity, sub, bytes)
}

/// Offers a message of a MIL-STD-1553 bus. 0, or 7 to 12, 30, 44.
#[unsafe(no_mangle)]
pub extern "C" fn r10_port_1553(
    alloc: Global,
    port: &mut PortEnd,
    count: u64,
    status: u16,
    gap: u16,
    words: &[u16],
) -> u32
    ensures does { port.old.opened ≡ true
        → PortGoes port.old port.new (λ old new. OffersOrLacks old count (bus_message status gap words.now) result new) }
    ensures closed { port.old.opened ≡ false → (result ≡ closed_status) × (port.new ≡ port.old) }
{
    port.offer_1553(alloc, count, status, gap, words)
}

/// Offers a word of an ARINC 429 bus. 0, or 7 to 12, 44.
#[unsafe(no_mangle)]
pub extern "C" fn r10_port_arinc(
    alloc: Global,
    port: &mut PortEnd,
    count: u64,
    bus: u8,
    format: bool,
    parity: bool,
    high: bool,
    word: u32,
) -> u32
    ensures does { port.old.opened ≡ true
        → PortGoes port.old port.new (λ old new. OffersByPort old count (arinc_message bus format parity high word) result new) }
    ensures closed { port.old.opened ≡ false → (result ≡ closed_status) × (port.new ≡ port.old) }
{
    port.offer_arinc(alloc, count, bus, format, parity, high, word)
}

/// Offers the states of a channel's discretes. 0, or 7 to 12, 44.
#[unsafe(no_mangle)]
pub extern "C" fn r10_port_discrete(
    alloc: Global,
    port: &mut PortEnd,
    count: u64,
    states: u32,
) -> u32
    ensures does { port.old.opened ≡ true
        → PortGoes port.old port.new (λ old new. OffersByPort old count (discrete_message states) result new) }
    ensures closed { port.old.opened ≡ false → (result ≡ closed_status) × (port.new ≡ port.old) }
{
    port.offer_discrete(alloc, count, states)
}

/// Offers a message of another source. 0, or 7 to 12, 30, 44.
#[unsafe(no_mangle)]
pub extern "C" fn r10_port_message(
    alloc: Global,
    port: &mut PortEnd,
    count: u64,
    data_error: bool,
    format: bool,
    sub: u16,
    bytes: &[u8],
) -> u32
    ensures does { port.old.opened ≡ true → PortGoes port.old port.new
        (λ old new. OffersOrLacks old count (data_message data_error format sub bytes.now) result new) }
    ensures closed { port.old.opened ≡ false → (result ≡ closed_status) × (port.new ≡ port.old) }
{
    port.offer_message(alloc, count, data_error, format, sub, bytes)
}

/// So many messages were lost before they were offered. 0, or 44.
#[unsafe(no_mangle)]
pub extern "C" fn r10_port_lost(alloc: Global, port: &mut PortEnd, count: u64) -> u32
    ensures does { port.old.opened ≡ true → PortGoes port.old port.new (λ old new. (result ≡ 0) × (new ≡ with_losses count old)) }
    ensures closed { port.old.opened ≡ false → (result ≡ closed_status) × (port.new ≡ port.old) }
{
    port.lose(alloc, count)
}

/// How many messages the port accepted, and how many were lost. 0, or 44.
#[unsafe(no_mangle)]
pub extern "C" fn r10_port_state(alloc: Global, port: &mut PortEnd, out: &mut PortOut) -> u32
    ensures does { port.old.opened ≡ true
        → PortGoes port.old port.new (λ old new. (result ≡ 0) × (new ≡ old) × (out.new ≡ port_out old)) }
    ensures closed { port.old.opened ≡ false → (result ≡ closed_status) × (port.new ≡ port.old) × (out.new ≡ out.old) }
{
    port.state(alloc, out)
}

/// Closes the sending end. What it sent may still be carried.
#[unsafe(no_mangle)]
pub extern "C" fn r10_port_close(alloc: Global, port: &mut PortEnd)
    ensures closes { port.new.opened ≡ false }
    ensures gone { port.old.opened ≡ true → port.new.handle.held ≡ None }
    ensures closed { port.old.opened ≡ false → port.new ≡ port.old }
{
    port.close(alloc)
}

/// Closes the receiving end. What it did not carry is gone.
#[unsafe(no_mangle)]
pub extern "C" fn r10_outlet_close(alloc: Global, outlet: &mut OutletEnd)
    ensures closes { outlet.new.opened ≡ false }
    ensures gone { outlet.old.opened ≡ true → outlet.new.handle.held ≡ None }
    ensures closed { outlet.old.opened ≡ false → outlet.new ≡ outlet.old }
{
    outlet.close(alloc)
}

/// Carries the next message of a port into its channel's lane, if the lane has room and there is one. 0, or 6, 7 to 11, 30, 43, 44.
#[unsafe(no_mangle)]
pub extern "C" fn r10_carry_one(
    alloc: Global,
    recorder: &mut Recorder,
    outlet: &mut OutletEnd,
    carried: &mut bool,
) -> u32
    ensures carries { IsOpen recorder.old → outlet.old.opened ≡ true
        → CarriesInto region_disk recorder.old outlet.old carried.new result recorder.new outlet.new }
    ensures closed { IsClosed recorder.old ⊎ (outlet.old.opened ≡ false)
        → (result ≡ closed_status) × (recorder.new ≡ recorder.old) × (outlet.new ≡ outlet.old) × (carried.new ≡ carried.old) }
{
    if !recorder.is_open() || !outlet.is_open() {
        return CLOSED;
    }
    let mut held = recorder.take(alloc);
    let inside = &mut *held;
    let carry = carry_one(alloc, outlet, &mut inside.desk);
    count_accepted(&mut inside.accepted, carry.channel, carry.offer_status());
    recorder.put(held);
    *carried = carry.carried;
    carry.number
}
