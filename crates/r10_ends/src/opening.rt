//! The two ends of a lane are made.

ghost use Rattle.std.specs.Prelude.{◌≡◌, ◌≢◌, ◌⊎◌, ◌↔◌};
ghost use Rattle.r10_body.specs.Statuses.{memory_status, open_status};
ghost use Rattle.r10_ends.specs.Ends.{AreEndsOpened, IsOpenOne};

use crate::carrier::Carrier;
use crate::outlet_end::OutletEnd;
use crate::port_end::PortEnd;
use crate::sender::PortSender;
use r10_body::ChannelSpec;
use r10_body::status::{OPEN, OUT_OF_MEMORY};
use r10_port::lane;
use std::alloc::Global;

/// Opens the two ends of a lane for a channel at this place of a recorder's settings: 0, or 30, 45.
pub fn open_ends(
    alloc: Global,
    spec: ChannelSpec,
    place: usize,
    port: &mut PortEnd,
    outlet: &mut OutletEnd,
) -> u32
    ensures opens { result ≡ 0 → AreEndsOpened spec place port.new outlet.new }
    ensures untouched { result ≢ 0 → (port.new ≡ port.old) × (outlet.new ≡ outlet.old) }
    ensures opened { (result ≡ open_status) ↔ IsOpenOne port.old outlet.old }
    ensures numbers { (result ≡ 0) ⊎ (result ≡ memory_status) ⊎ (result ≡ open_status) }
{
    if port.is_open() || outlet.is_open() {
        return OPEN;
    }
    let Ok((sending, receiving)) = lane(alloc, spec) else {
        return OUT_OF_MEMORY;
    };
    let sender = PortSender {
        port: sending,
        spec,
    };
    let carrier = Carrier {
        outlet: receiving,
        place,
        hand: None,
    };
    let Ok(sender) = Box::new(alloc, sender) else {
        return OUT_OF_MEMORY;
    };
    let Ok(carrier) = Box::new(alloc, carrier) else {
        return OUT_OF_MEMORY;
    };
    port.put(sender);
    outlet.put(carrier);
    0
}
