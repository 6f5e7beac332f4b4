//! The sending end of a lane between threads, by offers that answer numbers.

ghost use Rattle.std.specs.Prelude.{◌≡◌, ℕ, ◌≤◌, ◌^◌, Option, Some};
ghost use Rattle.r10_body.specs.Messages.{arinc_message, bus_message, data_message, discrete_message, uart_message};
ghost use Rattle.r10_machine.specs.Checks.{first_broken, taking_checks};
ghost use Rattle.r10_port.specs.Ends.{with_losses};
ghost use Rattle.r10_ends.specs.Sending.{OffersByPort, OffersOrLacks, number_answered, port_out};

use crate::port_out::PortOut;
use r10_body::status::OUT_OF_MEMORY;
use r10_body::{
    ArincMessage, BusMessage, ChannelSpec, DataMessage, DiscreteMessage, Message, Refusal,
    UartMessage,
};
use r10_count::{Bytes, Count, Items};
use r10_port::Port;
use std::alloc::Global;
use std::marker::Model;

/// The sending end of a channel's lane, and what the channel is set to.
#[derive(Drop)]
pub struct PortSender {
    pub(crate) port: Port,
    pub(crate) spec: ChannelSpec,
}

impl Model for PortSender {
    ghost use Rattle.std.specs.Prelude.{◌≡◌};
    ghost use Rattle.r10_port.specs.Ends.{Sending};

    ghost Value = { Sending };

    ghost view = { λ s. s.port };

    ghost invariant = { λ s. s.spec ≡ s.port.lane.spec };
}

/// The number of an answer: 0, or that of its refusal.
fn number_of(answer: Result<(), Refusal>) -> u32
    ensures { result ≡ number_answered answer }
{
    match answer {
        Ok(()) => 0,
        Err(refusal) => u32::from(refusal.number()),
    }
}

/// Why a message is refused whose count has more than 48 bits: by the first rule that it breaks.
fn out_of_range(spec: &ChannelSpec, message: &Message) -> Refusal
    ensures { (last : Option ℕ) (count : ℕ) → 2 ^ 48 ≤ count
        → first_broken (taking_checks spec.now last count message.now) ≡ Some result }
{
    match spec.check(message) {
        Ok(()) => Refusal::CountRange,
        Err(refusal) => refusal,
    }
}

impl PortSender {
    /// Offers a message: 0, or 7 to 12.
    fn offer(&mut self, count: u64, message: Message) -> u32
        ensures { OffersByPort self.old count message result self.new }
    {
        let Some(count) = Count::of(count) else {
            return number_of(Err(out_of_range(&self.spec, &message)));
        };
        number_of(self.port.offer(count, message))
    }

    /// A message of a serial line, at most 65,535 bytes: 0, or 7 to 12, or 30.
    pub(crate) fn offer_uart(
        &mut self,
        alloc: Global,
        count: u64,
        parity: bool,
        sub: u16,
        bytes: &[u8],
    ) -> u32
        ensures { OffersOrLacks self.old count (uart_message parity sub bytes.now) result self.new }
    {
        let Ok(bytes) = Bytes::copy_of(alloc, bytes) else {
            return OUT_OF_MEMORY;
        };
        self.offer(count, Message::Uart(UartMessage { parity, sub, bytes }))
    }

    /// A message of a MIL-STD-1553 bus, at most 36 words: 0, or 7 to 12, or 30.
    pub(crate) fn offer_1553(
        &mut self,
        alloc: Global,
        count: u64,
        status: u16,
        gap: u16,
        words: &[u16],
    ) -> u32
        ensures { OffersOrLacks self.old count (bus_message status gap words.now) result self.new }
    {
        let Ok(words) = Vec::from_slice(alloc, words) else {
            return OUT_OF_MEMORY;
        };
        let words = Items::of(words);
        self.offer(count, Message::Bus1553(BusMessage { status, gap, words }))
    }

    /// A word of an ARINC 429 bus: 0, or 7 to 12.
    pub(crate) fn offer_arinc(
        &mut self,
        count: u64,
        bus: u8,
        format: bool,
        parity: bool,
        high: bool,
        word: u32,
    ) -> u32
        ensures { OffersByPort self.old count (arinc_message bus format parity high word) result self.new }
    {
        let message = Message::Arinc(ArincMessage {
            bus,
            format,
            parity,
            high,
            word,
        });
        self.offer(count, message)
    }

    /// The states of a channel's discretes, a bit for each: 0, or 7 to 12.
    pub(crate) fn offer_discrete(&mut self, count: u64, states: u32) -> u32
        ensures { OffersByPort self.old count (discrete_message states) result self.new }
    {
        self.offer(count, Message::Discrete(DiscreteMessage { states }))
    }

    /// A message of a source of any other sort, at most 65,535 bytes: 0, or 7 to 12, or 30.
    pub(crate) fn offer_message(
        &mut self,
        alloc: Global,
        count: u64,
        data_error: bool,
        format: bool,
        sub: u16,
        bytes: &[u8],
    ) -> u32
        ensures { OffersOrLacks self.old count (data_message data_error format sub bytes.now) result self.new }
    {
        let Ok(bytes) = Bytes::copy_of(alloc, bytes) else {
            return OUT_OF_MEMORY;
        };
        let message = Message::Message(DataMessage {
            data_error,
            format,
            sub,
            bytes,
        });
        self.offer(count, message)
    }

    /// So many messages were lost before they were offered.
    pub(crate) fn lose(&mut self, lost: u64)
        ensures { self.new ≡ with_losses lost self.old }
    {
        self.port.lose(lost);
    }

    /// How it is.
    pub(crate) fn state(&self) -> PortOut
        ensures { result ≡ port_out self.now }
    {
        PortOut {
            accepted: self.port.sent(),
            lost: self.port.lost(),
            capacity: self.spec.capacity,
            channel: self.spec.id,
        }
    }
}
