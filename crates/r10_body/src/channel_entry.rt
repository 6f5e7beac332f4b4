//! The entries of the packets of channels: what belongs to one kind of channel alone.

ghost use Rattle.std.specs.Prelude.{◌≡◌};
ghost use Rattle.r10_body.specs.Kinds.{ChannelKind, IsFormOfKind, IsSettingIn};

use crate::entry::Timed;
use crate::message::Message;
use r10_a429::ArincEntry;
use r10_b1553::BusEntry;
use r10_count::{BodyEntry, Count};
use r10_discrete::{DiscreteEntry, bits_in};
use r10_message::MessageEntry;
use r10_uart::UartEntry;

/// An entry of the packets of one kind of channel.
pub trait ChannelEntry: BodyEntry {
    /// What packets of such entries say.
    ghost channel: { ChannelKind Self };

    /// The count that the first entry is spelled after, in a packet of this counter.
    fn origin(counter: Count) -> u64
        ensures { result ≡ channel.origin counter };

    /// The setting that the body's word tells of its channel.
    fn setting_in(body: &[u8]) -> u32
        ensures { IsSettingIn Self.form channel body.now result };

    /// Its message, with its count.
    fn into_timed(self) -> Timed
        ensures { result ≡ channel.said self };

    /// The bodies of such entries are the bodies of the kind.
    ghost is_kind: { IsFormOfKind Self.BodyEntry.form channel };
}

impl ChannelEntry for UartEntry {
    ghost use Rattle.r10_body.specs.Kinds.{uart_is_kind, uart_kind};

    ghost channel = { uart_kind };

    ghost is_kind = { uart_is_kind };

    fn origin(counter: Count) -> u64 {
        let _ = counter;
        0
    }

    fn setting_in(body: &[u8]) -> u32 {
        let _ = body;
        0
    }

    fn into_timed(self) -> Timed {
        Timed {
            count: self.count,
            message: Message::Uart(self.message),
        }
    }
}

impl ChannelEntry for BusEntry {
    ghost use Rattle.r10_body.specs.Kinds.{bus_is_kind, bus_kind};

    ghost channel = { bus_kind };

    ghost is_kind = { bus_is_kind };

    fn origin(counter: Count) -> u64 {
        let _ = counter;
        0
    }

    fn setting_in(body: &[u8]) -> u32 {
        let _ = body;
        0
    }

    fn into_timed(self) -> Timed {
        Timed {
            count: self.count,
            message: Message::Bus1553(self.message),
        }
    }
}

impl ChannelEntry for ArincEntry {
    ghost use Rattle.r10_body.specs.Kinds.{arinc_is_kind, arinc_kind};

    ghost channel = { arinc_kind };

    ghost is_kind = { arinc_is_kind };

    fn origin(counter: Count) -> u64 {
        counter.get()
    }

    fn setting_in(body: &[u8]) -> u32 {
        let _ = body;
        0
    }

    fn into_timed(self) -> Timed {
        Timed {
            count: self.count,
            message: Message::Arinc(self.message),
        }
    }
}

impl ChannelEntry for DiscreteEntry {
    ghost use Rattle.r10_body.specs.Kinds.{discrete_is_kind, discrete_kind};

    ghost channel = { discrete_kind };

    ghost is_kind = { discrete_is_kind };

    fn origin(counter: Count) -> u64 {
        let _ = counter;
        0
    }

    fn setting_in(body: &[u8]) -> u32 {
        bits_in(body)
    }

    fn into_timed(self) -> Timed {
        Timed {
            count: self.count,
            message: Message::Discrete(self.message),
        }
    }
}

impl ChannelEntry for MessageEntry {
    ghost use Rattle.r10_body.specs.Kinds.{message_is_kind, message_kind};

    ghost channel = { message_kind };

    ghost is_kind = { message_is_kind };

    fn origin(counter: Count) -> u64 {
        let _ = counter;
        0
    }

    fn setting_in(body: &[u8]) -> u32 {
        let _ = body;
        0
    }

    fn into_timed(self) -> Timed {
        Timed {
            count: self.count,
            message: Message::Message(self.message),
        }
    }
}
