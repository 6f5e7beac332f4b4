//! The sending end of a lane, as a caller of another language keeps it: a handle, and whether it is open.

ghost use Rattle.std.specs.Prelude.{◌≡◌, false, is_some, true, None};
ghost use Rattle.r10_body.specs.Messages.{arinc_message, bus_message, data_message, discrete_message, uart_message};
ghost use Rattle.r10_body.specs.Statuses.{closed_status};
ghost use Rattle.r10_port.specs.Ends.{with_losses};
ghost use Rattle.r10_ends.specs.Sending.{OffersByPort, OffersOrLacks, port_out};

use crate::port_handle::PortHandle;
use crate::port_out::PortOut;
use crate::sender::PortSender;
use r10_body::status::CLOSED;
use std::alloc::Global;

/// The sending end of a lane, or none where it is not open. A caller keeps it, zero at first, and never reads it.
#[repr(C)]
#[derive(Drop)]
pub struct PortEnd {
    pub handle: PortHandle,
    pub opened: bool,
    ghost leads: { opened ≡ is_some handle.held },
}

impl PortEnd {
    ghost use Rattle.std.specs.Prelude.{true, false, None, Some};

    /// Whether it is open.
    pub fn is_open(&self) -> bool
        ensures { result ≡ self.now.opened }
    {
        self.opened
    }

    /// Takes what it holds, and leaves none.
    #[tactic(auto, using(crate::proofs::There::there))]
    pub(crate) fn take(&mut self, alloc: Global) -> Box<PortSender>
        requires { self.old.opened ≡ true }
        ensures taken { self.old.handle.held ≡ Some result.value }
        ensures left { (self.new.handle.held ≡ None) × (self.new.opened ≡ false) }
    {
        self.opened = false;
        self.handle.take(alloc)
    }

    /// Holds this from now on.
    pub(crate) fn put(&mut self, held: Box<PortSender>)
        ensures { (self.new.handle.held ≡ Some held.value) × (self.new.opened ≡ true) }
    {
        self.handle.put(held);
        self.opened = true;
    }
}

impl PortEnd {
    ghost use Rattle.r10_ends.specs.Ends.{PortGoes};

    /// A message of a serial line: 0, or 7 to 12, 30, 44.
    pub fn offer_uart(
        &mut self,
        alloc: Global,
        count: u64,
        parity: bool,
        sub: u16,
        bytes: &[u8],
    ) -> u32
        ensures does { self.old.opened ≡ true
            → PortGoes self.old self.new (λ old new. OffersOrLacks old count (uart_message parity sub bytes.now) result new) }
        ensures closed { self.old.opened ≡ false → (result ≡ closed_status) × (self.new ≡ self.old) }
    {
        if !self.is_open() {
            return CLOSED;
        }
        let mut sender = self.take(alloc);
        let answer = sender.offer_uart(alloc, count, parity, sub, bytes);
        self.put(sender);
        answer
    }

    /// A message of a MIL-STD-1553 bus: 0, or 7 to 12, 30, 44.
    pub fn offer_1553(
        &mut self,
        alloc: Global,
        count: u64,
        status: u16,
        gap: u16,
        words: &[u16],
    ) -> u32
        ensures does { self.old.opened ≡ true
            → PortGoes self.old self.new (λ old new. OffersOrLacks old count (bus_message status gap words.now) result new) }
        ensures closed { self.old.opened ≡ false → (result ≡ closed_status) × (self.new ≡ self.old) }
    {
        if !self.is_open() {
            return CLOSED;
        }
        let mut sender = self.take(alloc);
        let answer = sender.offer_1553(alloc, count, status, gap, words);
        self.put(sender);
        answer
    }

    /// A word of an ARINC 429 bus: 0, or 7 to 12, 44.
    pub fn offer_arinc(
        &mut self,
        alloc: Global,
        count: u64,
        bus: u8,
        format: bool,
        parity: bool,
        high: bool,
        word: u32,
    ) -> u32
        ensures does { self.old.opened ≡ true → PortGoes self.old self.new
            (λ old new. OffersByPort old count (arinc_message bus format parity high word) result new) }
        ensures closed { self.old.opened ≡ false → (result ≡ closed_status) × (self.new ≡ self.old) }
    {
        if !self.is_open() {
            return CLOSED;
        }
        let mut sender = self.take(alloc);
        let answer = sender.offer_arinc(count, bus, format, parity, high, word);
        self.put(sender);
        answer
    }

    /// The states of a channel's discretes: 0, or 7 to 12, 44.
    pub fn offer_discrete(&mut self, alloc: Global, count: u64, states: u32) -> u32
        ensures does { self.old.opened ≡ true
            → PortGoes self.old self.new (λ old new. OffersByPort old count (discrete_message states) result new) }
        ensures closed { self.old.opened ≡ false → (result ≡ closed_status) × (self.new ≡ self.old) }
    {
        if !self.is_open() {
            return CLOSED;
        }
        let mut sender = self.take(alloc);
        let answer = sender.offer_discrete(count, states);
        self.put(sender);
        answer
    }

    /// A message of another source: 0, or 7 to 12, 30, 44.
    pub fn offer_message(
        &mut self,
        alloc: Global,
        count: u64,
        data_error: bool,
        format: bool,
        sub: u16,
        bytes: &[u8],
    ) -> u32
        ensures does { self.old.opened ≡ true → PortGoes self.old self.new
            (λ old new. OffersOrLacks old count (data_message data_error format sub bytes.now) result new) }
        ensures closed { self.old.opened ≡ false → (result ≡ closed_status) × (self.new ≡ self.old) }
    {
        if !self.is_open() {
            return CLOSED;
        }
        let mut sender = self.take(alloc);
        let answer = sender.offer_message(alloc, count, data_error, format, sub, bytes);
        self.put(sender);
        answer
    }

    /// So many messages were lost before they were offered: 0, or 44.
    pub fn lose(&mut self, alloc: Global, lost: u64) -> u32
        ensures does { self.old.opened ≡ true
            → PortGoes self.old self.new (λ old new. (result ≡ 0) × (new ≡ with_losses lost old)) }
        ensures closed { self.old.opened ≡ false → (result ≡ closed_status) × (self.new ≡ self.old) }
    {
        if !self.is_open() {
            return CLOSED;
        }
        let mut sender = self.take(alloc);
        sender.lose(lost);
        self.put(sender);
        0
    }

    /// How it is: 0, or 44.
    pub fn state(&mut self, alloc: Global, out: &mut PortOut) -> u32
        ensures does { self.old.opened ≡ true
            → PortGoes self.old self.new (λ old new. (result ≡ 0) × (new ≡ old) × (out.new ≡ port_out old)) }
        ensures closed { self.old.opened ≡ false → (result ≡ closed_status) × (self.new ≡ self.old) × (out.new ≡ out.old) }
    {
        if !self.is_open() {
            return CLOSED;
        }
        let sender = self.take(alloc);
        *out = sender.state();
        self.put(sender);
        0
    }

    /// Closes it: its memory is given back. A closed one stays closed.
    pub fn close(&mut self, alloc: Global)
        ensures closes { self.new.opened ≡ false }
        ensures gone { self.old.opened ≡ true → self.new.handle.held ≡ None }
        ensures closed { self.old.opened ≡ false → self.new ≡ self.old }
    {
        if !self.is_open() {
            return;
        }
        let _sender = self.take(alloc);
    }
}
