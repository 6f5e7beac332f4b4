//! What a packet may have.

ghost use Rattle.std.specs.Prelude.{◌≡◌, ◌↔◌, ◌+◌, ◌*◌, ◌/◌, ◌^◌, ◌<◌, ◌≤◌, IsTrue};
ghost use Rattle.r10_builder.specs.Packing.{is_near as comes_near, tenth};

use r10_body::Kind;
use r10_count::Count;

/// A tenth of a second in units of 100 ns: no sample of a packet is later than its first by more.
pub(crate) const TENTH: u64 = 1_000_000;

/// Whether a sample of this kind may stand in a packet after one at a count: the words of an
/// ARINC bus tell their distance, which is at most a tenth of a second.
pub(crate) fn is_near(kind: Kind, before: Count, count: Count) -> bool
    ensures { result ≡ comes_near kind before count }
{
    kind != Kind::Arinc || comes_soon(before, count)
}

/// Whether a count is at most a tenth of a second after another. It is a call of its own, so that the other kinds don't ask it.
#[inline(never)]
fn comes_soon(before: Count, count: Count) -> bool
    ensures { IsTrue result ↔ count ≤ before + tenth }
{
    count.get() <= before.get() + TENTH
}

/// Whether a packet with a data checksum and a body of so many bytes, and some more in the body, is no longer than it may
/// be: with header and least filler.
pub(crate) fn has_room(most: usize, checksum: usize, body: usize, more: usize) -> bool
    requires { checksum < 2 ^ 62 }
    ensures { IsTrue result ↔ (body + more + checksum + 27) / 4 * 4 ≤ most }
{
    let most = most / 4 * 4 + 3;
    let rest = checksum + 27;
    match body.checked_add(more) {
        Some(size) => rest <= most && size <= most - rest,
        None => false,
    }
}
