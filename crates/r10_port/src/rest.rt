//! Both ends in one thread again.

ghost use Rattle.std.specs.Prelude.{◌≡◌, ◌<◌, ◌≤◌, ◌-◌, ◌++◌, [], ◌∷◌, IfOk, OnErr, length, take, vec_capacity};
ghost use Rattle.r10_port.specs.declared.item.Item.TheVariants.{Entry};
ghost use Rattle.r10_port.specs.Items.{samples};
ghost use Rattle.r10_port.specs.Ends.{TookReceived, sent, unreceived};

use crate::item::Item;
use crate::outlet::Outlet;
use crate::port::Port;
use r10_body::Sample;
use std::alloc::{AllocError, Global};

impl Outlet {
    /// How many samples are left of a lane whose sending end is in this thread too: never more than the capacity. All of them are
    /// then known, and stay.
    pub fn rest_len(&mut self, port: &mut Port) -> usize
        requires { self.old.ring ≡ port.old.ring }
        ensures took { TookReceived self.old [] self.new }
        ensures port { port.new ≡ record port.old { free = port.new.free } }
        ensures all { sent port.old ≡ self.old.received ++ unreceived self.old port.old }
        ensures known { samples self.new.ahead ≡ unreceived self.old port.old }
        ensures count { (result ≡ length (unreceived self.old port.old)) × (result ≡ length self.new.ahead) }
        ensures few { length (unreceived self.old port.old) ≤ port.old.lane.spec.capacity }
    {
        self.consumer.slots_beside(&mut port.producer)
    }

    /// Takes a sample that is known.
    fn take_known(&mut self) -> Sample
        requires { 0 < length self.old.ahead }
        ensures took { TookReceived self.old (result ∷ []) self.new }
        ensures ahead { self.old.ahead ≡ Entry result ∷ self.new.ahead }
    {
        match self.consumer.pop_known() {
            Item::Entry(sample) => sample,
            Item::Announce(_) => unreachable!(),
        }
    }

    /// Moves what is left of a lane whose sending end is in this thread too after what `into` has, the first sent first, as much
    /// of it as `into` has room for. The rest stays. This takes no memory.
    #[tactic(auto, using(crate::proofs::Resting::moves_none))]
    pub fn rest_into(&mut self, port: &mut Port, into: &mut Vec<Sample>)
        requires { self.old.ring ≡ port.old.ring }
        ensures port { port.new ≡ record port.old { free = port.new.free } }
        ensures all { sent port.old ≡ self.old.received ++ unreceived self.old port.old }
        ensures took { TookReceived self.old
            (take (vec_capacity into.old - length into.old.items) (unreceived self.old port.old)) self.new }
        ensures moved { into.new.items
            ≡ into.old.items ++ take (vec_capacity into.old - length into.old.items) (unreceived self.old port.old) }
        ensures room { vec_capacity into.new ≡ vec_capacity into.old }
    {
        let room = into.capacity().saturating_sub(into.len());
        let count = self.rest_len(port).min(room);
        for _ in 0..count {
            into.push_reserved(self.take_known());
        }
    }

    /// Takes all that is left of a lane whose sending end is in this thread too. With it, all that was sent was received.
    pub fn rest(&mut self, alloc: Global, port: &mut Port) -> Result<Vec<Sample>, AllocError>
        requires { self.old.ring ≡ port.old.ring }
        ensures port { port.new ≡ record port.old { free = port.new.free } }
        ensures ok { IfOk result (λ rest. TookReceived self.old rest.items self.new × (self.new.received ≡ sent port.old)) }
        ensures err { OnErr result (TookReceived self.old [] self.new) }
    {
        let mut rest = Vec::with_capacity(alloc, self.rest_len(port))?;
        self.rest_into(port, &mut rest);
        Ok(rest)
    }
}
