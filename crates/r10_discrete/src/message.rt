//! States of discretes: what a change says, whenever it came.

ghost use Rattle.std.specs.Prelude.{◌≡◌, ◌↔◌, [], ◌∷◌, IsTrue, IfOk};
ghost use Rattle.r10_discrete.specs.Discrete.{FitsDiscreteBody, discrete_at, discrete_body};
ghost use Rattle.r10_discrete.specs.Entry.{has_only};

use crate::body::DiscreteBody;
use crate::entry::DiscreteEntry;
use r10_count::{Count, Items};
use std::alloc::{AllocError, Global};

/// The states of a channel's discretes.
#[derive(Clone, Copy, Debug, PartialEq, Eq)]
pub struct DiscreteMessage {
    /// A bit for each discrete, from bit 0 on.
    pub states: u32,
}

impl DiscreteMessage {
    /// Whether both say the same.
    pub fn is_same(&self, other: &DiscreteMessage) -> bool
        ensures { IsTrue result ↔ (self.now ≡ other.now) }
    {
        self.states == other.states
    }

    /// The body of a packet of these states alone, at a count, of so many discretes.
    pub fn body_alone(
        &self,
        alloc: Global,
        bits: usize,
        count: Count,
    ) -> Result<Vec<u8>, AllocError>
        requires { IsTrue (has_only bits self.now.states) }
        ensures fits { FitsDiscreteBody bits (discrete_at count self.now ∷ []) }
        ensures body { IfOk result (λ v. v.items ≡ discrete_body bits (discrete_at count self.now ∷ [])) }
    {
        let _ = count.get();
        let entry = DiscreteEntry {
            count,
            message: *self,
        };
        let entries = Items::of(vec![in alloc; entry]?);
        let bits = bits as u8;
        let mut body = Vec::with_capacity(alloc, 16)?;
        DiscreteBody { bits, entries }.encode_into(&mut body)?;
        Ok(body)
    }
}
