//! Civil times as a caller of another language has them.

ghost use Rattle.std.specs.Prelude.{◌≡◌};
ghost use Rattle.r10_ffi.specs.Civil.{parts_of};

use r10_count::Parts;

/// The parts of a civil time.
#[repr(C)]
#[derive(Clone, Copy)]
pub struct Civil {
    pub year: u16,
    pub month: u16,
    pub day: u16,
    pub hour: u16,
    pub minute: u16,
    pub second: u16,
    /// hundredths of a second
    pub centi: u16,
}

/// The same parts.
pub(crate) fn parts_of(civil: &Civil) -> Parts
    ensures { result ≡ parts_of civil.now }
{
    Parts {
        year: civil.year,
        month: civil.month,
        day: civil.day,
        hour: civil.hour,
        minute: civil.minute,
        second: civil.second,
        centi: civil.centi,
    }
}
