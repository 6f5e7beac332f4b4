//! The lanes of a recorder, each with its two ends.

ghost use Rattle.std.specs.Prelude.{◌≡◌, ◌==◌, IfOk};
ghost use Rattle.std.specs.List.{position};
ghost use Rattle.r10_session.specs.Ends.{ArePaired, Takes};

use r10_body::ChannelSpec;
use r10_port::{Outlet, Port, lane};
use std::alloc::{AllocError, Global};

/// The sending end of a channel's lane.
#[derive(Drop)]
pub struct Sender {
    pub channel: u16,
    pub port: Port,
}

/// A new lane for each channel, in their order: the sending ends, and the receiving ones.
pub fn lanes_of(
    alloc: Global,
    channels: &[ChannelSpec],
) -> Result<(Vec<Sender>, Vec<Outlet>), AllocError>
    ensures { IfOk result (λ ends. ArePaired channels.now ends.0.items ends.1.items) }
{
    let mut senders = Vec::new(alloc);
    let mut outlets = Vec::new(alloc);
    for place in 0..channels.len() {
        let spec = channels[place];
        let (port, outlet) = lane(alloc, spec)?;
        senders.push(Sender {
            channel: spec.id,
            port,
        })?;
        outlets.push(outlet)?;
    }
    Ok((senders, outlets))
}

/// The place of the first of these that is a channel's.
fn place_of(senders: &[Sender], channel: u16) -> Option<usize>
    ensures { result ≡ position (λ sender. sender.channel == channel) senders.now }
{
    senders.iter().position(|sender| sender.channel == channel)
}

/// Takes the first sending end that is a channel's from among these. None where there is none.
pub fn take_port(senders: &mut Vec<Sender>, channel: u16) -> Option<Port>
    ensures { Takes senders.old.items channel result senders.new.items }
{
    match place_of(senders, channel) {
        Some(place) => {
            let Sender { port, .. } = senders.remove(place);
            Some(port)
        }
        None => None,
    }
}
