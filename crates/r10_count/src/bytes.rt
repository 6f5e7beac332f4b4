//! The bytes of a message.

ghost use Rattle.std.specs.Prelude.{◌≡◌, ◌↔◌, ◌≤◌, length, take, IfOk, IfSome, IsOk, IsTrue};

use std::alloc::{AllocError, Global};
use std::fmt;
use std::marker::Model;

/// How many bytes stand in the value itself at most.
const SHORT: usize = 38;

/// Where bytes stand: in the value itself, the first of so many places, or in memory of their own.
#[derive(Drop)]
pub(crate) enum BytesPlace {
    Short { len: u8, places: [u8; 38] },
    Long { vec: Vec<u8> },
}

/// Bytes that a contract sees as their list, so that two messages with the same bytes are one value. Up to 38 of them stand in
/// the value itself where they are copied into it, and take no memory of their own: it has 40 bytes.
pub struct Bytes {
    held: BytesPlace,
}

impl Model for Bytes {
    ghost use Rattle.std.specs.Prelude.{ℕ, List};
    ghost use Rattle.r10_count.specs.Held.{IsHeld, bytes_held};

    ghost Value = { List ℕ };

    ghost view = { λ b. bytes_held b.held };

    ghost invariant = { λ b. IsHeld b.held };
}

impl Bytes {
    /// The bytes of a vector, in the memory that it has.
    pub fn of(vec: Vec<u8>) -> Bytes
        ensures { result ≡ vec.items }
    {
        Bytes {
            held: BytesPlace::Long { vec },
        }
    }

    /// A copy of bytes. Where they are at most 38, it takes no memory.
    #[inline(always)]
    pub fn copy_of(alloc: Global, bytes: &[u8]) -> Result<Bytes, AllocError>
        ensures same { IfOk result (λ copy. copy ≡ bytes.now) }
        ensures short { length bytes.now ≤ 38 → IsOk result }
    {
        if bytes.len() > SHORT {
            let vec = Vec::from_slice(alloc, bytes)?;
            return Ok(Bytes::of(vec));
        }
        let mut places = [0; SHORT];
        places[..bytes.len()].copy_from_slice(bytes);
        let len = bytes.len() as u8;
        Ok(Bytes {
            held: BytesPlace::Short { len, places },
        })
    }

    /// The bytes.
    #[inline(always)]
    pub fn as_slice(&self) -> &[u8]
        ensures { result.now ≡ self.now }
    {
        match &self.held {
            BytesPlace::Short { len, places } => &places[..usize::from(*len)],
            BytesPlace::Long { vec } => vec.as_slice(),
        }
    }

    /// The places, and how many of them the bytes are, where they stand in the value itself.
    #[inline(always)]
    pub(crate) fn places(&self) -> Option<(&[u8; 38], usize)>
        ensures { IfSome result (λ found. (found.1 ≤ 38) × (self.now ≡ take found.1 found.0.now)) }
    {
        match &self.held {
            BytesPlace::Short { len, places } => Some((places, usize::from(*len))),
            BytesPlace::Long { vec: _ } => None,
        }
    }

    /// How many bytes there are.
    #[inline(always)]
    pub fn len(&self) -> usize
        ensures { result ≡ length self.now }
    {
        self.as_slice().len()
    }

    /// Whether there is no byte.
    pub fn is_empty(&self) -> bool
        ensures { IsTrue result ↔ (length self.now ≡ 0) }
    {
        self.len() == 0
    }

    /// The same bytes in a value of their own.
    pub fn duplicate(&self, alloc: Global) -> Result<Bytes, AllocError>
        ensures same { IfOk result (λ copy. copy ≡ self.now) }
        ensures short { length self.now ≤ 38 → IsOk result }
    {
        Bytes::copy_of(alloc, self.as_slice())
    }
}

impl fmt::Debug for Bytes {
    fn fmt<W: fmt::Write>(&self, f: &mut fmt::Formatter<W>) -> fmt::Result {
        self.as_slice().fmt(f)
    }
}

/// Letting bytes go is one call, wherever they stand, so that a body that holds a message has no exit for either.
impl Drop for Bytes {
    #[inline(always)]
    fn drop(self) {
        let Bytes { held: _ } = self;
    }
}

impl PartialEq for Bytes {
    ghost use Rattle.std.specs.Prelude.{nat_eq};
    ghost use Rattle.std.specs.Cmp.{partial_equiv_from_equiv};
    ghost use Rattle.std.specs.Cmp.Lexicographic.{nat_list_eq_equiv, pointwise};

    ghost eq = { pointwise nat_eq };

    ghost laws = { partial_equiv_from_equiv nat_list_eq_equiv };

    fn eq(&self, other: &Bytes) -> bool {
        self.as_slice() == other.as_slice()
    }
}

impl Eq for Bytes {
    ghost use Rattle.std.specs.Cmp.Lexicographic.{nat_list_eq_equiv};

    ghost laws = { nat_list_eq_equiv };
}
