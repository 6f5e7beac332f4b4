//! The ends of a lane between threads are made, for a channel of a script.

ghost use Rattle.std.specs.Prelude.{◌≡◌, ◌≢◌, ◌⊎◌, ◌↔◌, ◌<◌, IfErr, IfOk, Some, length, slice_get};
ghost use Rattle.r10_body.specs.Statuses.{no_channel_status, memory_status, open_status, script_status};
ghost use Rattle.r10_ends.specs.Ends.{IsOpenOne};
ghost use Rattle.r10_carrier.specs.Opening.{LacksChannel, OpensLane, channel_place};
ghost use Rattle.r10_calls.specs.Opening.{IsSettings};

use r10_body::ChannelSpec;
use r10_body::status::{NO_CHANNEL, OPEN, OUT_OF_MEMORY, SCRIPT};
use r10_ends::{OutletEnd, PortEnd, open_ends};
use r10_machine::Settings;
use r10_script::{Script, read_script};
use r10_text::ScriptFault;
use std::alloc::Global;

/// The settings of a script, or 30, or 40 where it is none.
fn settings_of(alloc: Global, script: &[u8]) -> Result<Settings, u32>
    ensures settings { IfOk result (λ s. IsSettings script.now s) }
    ensures refused { IfErr result (λ n. (n ≡ memory_status) ⊎ (n ≡ script_status)) }
{
    match read_script(alloc, script) {
        Ok(Script { settings, .. }) => Ok(settings),
        Err(ScriptFault::OutOfMemory(_)) => Err(OUT_OF_MEMORY),
        Err(_) => Err(SCRIPT),
    }
}

/// The place of a channel.
fn channel_place(channels: &[ChannelSpec], channel: u16) -> Option<usize>
    ensures { result ≡ channel_place channels.now channel }
{
    channels.iter().position(|spec| spec.id == channel)
}

/// What the channel at a place is set to.
#[tactic(auto, using(std::proofs::lemmas::Option::slice_get_read))]
fn spec_at(channels: &[ChannelSpec], place: usize) -> ChannelSpec
    requires { place < length channels.now }
    ensures { slice_get channels.now place ≡ Some result }
{
    channels[place]
}

/// Opens the two ends of a lane for a channel of the script: 0, or 6 if it has no such channel, 30, 40 if it can't be taken, 45.
pub fn open_lane(
    alloc: Global,
    script: &[u8],
    channel: u16,
    port: &mut PortEnd,
    outlet: &mut OutletEnd,
) -> u32
    ensures opens { result ≡ 0 → OpensLane script.now channel port.new outlet.new }
    ensures unknown { result ≡ no_channel_status → LacksChannel script.now channel }
    ensures untouched { result ≢ 0 → (port.new ≡ port.old) × (outlet.new ≡ outlet.old) }
    ensures opened { (result ≡ open_status) ↔ IsOpenOne port.old outlet.old }
    ensures numbers { (result ≡ 0) ⊎ (result ≡ no_channel_status) ⊎ (result ≡ memory_status) ⊎ (result ≡ script_status)
        ⊎ (result ≡ open_status) }
{
    if port.is_open() || outlet.is_open() {
        return OPEN;
    }
    let settings = match settings_of(alloc, script) {
        Ok(settings) => settings,
        Err(number) => return number,
    };
    let Some(place) = channel_place(settings.channels(), channel) else {
        return NO_CHANNEL;
    };
    let spec = spec_at(settings.channels(), place);
    open_ends(alloc, spec, place, port, outlet)
}
