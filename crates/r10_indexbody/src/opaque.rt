//! Index packets that aren't read.

ghost use Rattle.std.specs.Prelude.{◌≡◌};
ghost use Rattle.r10_indexbody.specs.Index.{is_opaque_index};

use r10_count::split_u32;

/// Whether the word of a body says that it has the file's size or data headers. Such a body isn't
/// read.
pub fn is_opaque(body: &[u8]) -> bool
    ensures { result ≡ is_opaque_index body.now }
{
    match split_u32(body) {
        Some((word, _)) => word / 0x4000_0000 % 2 == 1 || word / 0x2000_0000 % 2 == 1,
        None => false,
    }
}
