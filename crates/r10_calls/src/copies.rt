//! Copies into memory that a caller lends.

ghost use Rattle.std.specs.Prelude.{◌≡◌, length};
ghost use Rattle.r10_calls.specs.Copies.{copied};

/// Copies what fits to the front.
pub(crate) fn copy_front<T: Copy>(from: &[T], to: &mut [T])
    ensures items { to.new ≡ copied from.now to.old }
    ensures size { length to.new ≡ length to.old }
{
    let count = from.len().min(to.len());
    to[..count].copy_from_slice(&from[..count]);
}
