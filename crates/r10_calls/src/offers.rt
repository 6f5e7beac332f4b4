//! Offers of messages, by their kind. Each answers 0, or 6 to 12, or 30.

ghost use Rattle.std.specs.Prelude.{◌≡◌};
ghost use Rattle.r10_calls.specs.EventCalls.{DoesEvent, KeepsMedium, reply_number};
ghost use Rattle.r10_machine.specs.declared.event.Event.TheVariants as events;
ghost use Rattle.r10_body.specs.Messages.{arinc_message, bus_message, data_message, discrete_message, uart_message};

use crate::desk::{Desk, reply_number};
use r10_body::status::OUT_OF_MEMORY;
use r10_body::{ArincMessage, BusMessage, DataMessage, DiscreteMessage, Message, UartMessage};
use r10_count::{Bytes, Items};
use r10_machine::Event;
use r10_region::SteadyMedium;

impl<M: SteadyMedium + Drop> Desk<M> {
    fn offer(&mut self, channel: u16, count: u64, message: Message) -> u32
        ensures does { DoesEvent M.disk self.old (events.Offer channel count message)
            (λ reply. result ≡ reply_number reply) self.new }
        ensures stays { KeepsMedium M.identity self.old self.new }
    {
        let reply = self.tell(Event::Offer {
            channel,
            count,
            message,
        });
        reply_number(&reply)
    }

    /// A message of a serial line, at most 65,535 bytes.
    pub fn offer_uart(
        &mut self,
        channel: u16,
        count: u64,
        parity: bool,
        sub: u16,
        bytes: &[u8],
    ) -> u32
        ensures does { DoesEvent M.disk self.old (events.Offer channel count (uart_message parity sub bytes.now))
            (λ reply. result ≡ reply_number reply) self.new }
        ensures stays { KeepsMedium M.identity self.old self.new }
    {
        let Ok(bytes) = Bytes::copy_of(self.alloc, bytes) else {
            return OUT_OF_MEMORY;
        };
        let message = Message::Uart(UartMessage { parity, sub, bytes });
        self.offer(channel, count, message)
    }

    /// A message of a MIL-STD-1553 bus, at most 36 words.
    pub fn offer_1553(
        &mut self,
        channel: u16,
        count: u64,
        status: u16,
        gap: u16,
        words: &[u16],
    ) -> u32
        ensures does { DoesEvent M.disk self.old (events.Offer channel count (bus_message status gap words.now))
            (λ reply. result ≡ reply_number reply) self.new }
        ensures stays { KeepsMedium M.identity self.old self.new }
    {
        let Ok(words) = Vec::from_slice(self.alloc, words) else {
            return OUT_OF_MEMORY;
        };
        let words = Items::of(words);
        let message = Message::Bus1553(BusMessage { status, gap, words });
        self.offer(channel, count, message)
    }

    /// A word of an ARINC 429 bus.
    pub fn offer_arinc(
        &mut self,
        channel: u16,
        count: u64,
        bus: u8,
        format: bool,
        parity: bool,
        high: bool,
        word: u32,
    ) -> u32
        ensures does { DoesEvent M.disk self.old (events.Offer channel count (arinc_message bus format parity high word))
            (λ reply. result ≡ reply_number reply) self.new }
        ensures stays { KeepsMedium M.identity self.old self.new }
    {
        let message = Message::Arinc(ArincMessage {
            bus,
            format,
            parity,
            high,
            word,
        });
        self.offer(channel, count, message)
    }

    /// The states of a channel's discretes, a bit for each.
    pub fn offer_discrete(&mut self, channel: u16, count: u64, states: u32) -> u32
        ensures does { DoesEvent M.disk self.old (events.Offer channel count (discrete_message states))
            (λ reply. result ≡ reply_number reply) self.new }
        ensures stays { KeepsMedium M.identity self.old self.new }
    {
        let message = Message::Discrete(DiscreteMessage { states });
        self.offer(channel, count, message)
    }

    /// A message of a source of any other sort, at most 65,535 bytes.
    pub fn offer_message(
        &mut self,
        channel: u16,
        count: u64,
        data_error: bool,
        format: bool,
        sub: u16,
        bytes: &[u8],
    ) -> u32
        ensures does { DoesEvent M.disk self.old (events.Offer channel count (data_message data_error format sub bytes.now))
            (λ reply. result ≡ reply_number reply) self.new }
        ensures stays { KeepsMedium M.identity self.old self.new }
    {
        let Ok(bytes) = Bytes::copy_of(self.alloc, bytes) else {
            return OUT_OF_MEMORY;
        };
        let message = Message::Message(DataMessage {
            data_error,
            format,
            sub,
            bytes,
        });
        self.offer(channel, count, message)
    }
}
