//! Blocks of memory that a caller of another language lends.

ghost use Rattle.std.specs.Prelude.{◌≡◌, ◌*◌, ◌<◌, ◌^◌, ℕ, List};

use std::marker::Model;

/// So many blocks of 512 bytes, side by side from this address on, of fewer than 2^63 bytes together, as any memory. Who makes one
/// in another language lends this memory for good: it is there, it may be written, and nothing else reads or writes it.
#[repr(C)]
#[derive(Drop)]
pub struct Strip {
    at: *mut [u8; 512],
    pub blocks: usize,
    /// no memory has more
    pub ghost fits: { blocks * 512 < 2 ^ 63 },
    /// what the blocks hold
    pub ghost held: { List (List ℕ) },
}

impl Model for Strip {
    ghost use Rattle.std.specs.Borrow.{full_share, u8};
    ghost use Rattle.std.specs.Ptr.{lies_at};
    ghost use denote.Array.{Array};

    ghost also_owns = { λ s. lies_at (Array (Array u8 512) s.blocks) full_share s.at s.held };
}

impl Strip {
    /// The blocks, as a slice of this language.
    pub fn into_slice<'a>(self) -> &'a mut [[u8; 512]]
        ensures { result.now ≡ self.held }
    {
        let Strip { at, blocks } = self;
        unsafe { std::slice::from_raw_parts_mut(at, blocks) }
    }
}
