//! The body of a time packet.

ghost use Rattle.std.specs.Prelude.{◌≡◌, ◌↔◌, length, IsTrue, SomeIff};
ghost use Rattle.r10_count.specs.Civil.{IsCivil};
ghost use Rattle.r10_count.specs.declared.civil.Parts.{Parts as PartsValue};
ghost use Rattle.r10_count.specs.Append.{Appends};
ghost use Rattle.r10_count.specs.Reading.{ReadsBody};
ghost use Rattle.r10_count.specs.declared.reading.Reading.TheVariants.{Strict};
ghost use Rattle.r10_timebody.specs.Time.{IsTime, IsForeignTime};
ghost use Rattle.r10_timebody.specs.Time.{time_body, time_word as told_time_word, told_parts, is_opaque_time};

use crate::digits::{from_bcd, to_bcd};
use r10_count::{Civil, Parts, Reading, append_all, split_u32};
use std::alloc::AllocError;

/// The body of a time packet: the channel specific data word, and one civil time as packed decimal
/// digits, with month and year. Source: IRIG 106-17 chapter 11, time data packets, format 1.
#[derive(Clone, Copy)]
pub struct TimeBody {
    /// The time of the packet's counter.
    pub civil: Civil,
}

/// The civil time that the digits of a body tell, if there is one.
fn civil_in(body: &[u8; 12]) -> Option<Civil>
    ensures { SomeIff result (IsCivil (told_parts body.now)) (told_parts body.now) }
{
    let [
        _,
        _,
        _,
        _,
        centi,
        second,
        minute,
        hour,
        day,
        month,
        year,
        century,
    ] = *body;
    Civil::of(Parts {
        year: from_bcd(century) * 100 + from_bcd(year),
        month: from_bcd(month),
        day: from_bcd(day),
        hour: from_bcd(hour),
        minute: from_bcd(minute),
        second: from_bcd(second),
        centi: from_bcd(centi),
    })
}

impl TimeBody {
    /// Whether this recorder writes such a body: it writes each civil time.
    pub fn check(&self) -> bool
        ensures { IsTrue result ↔ IsCivil self.now.civil }
    {
        let _ = self.civil.parts();
        true
    }

    /// How many bytes the body has.
    pub fn size(&self) -> usize
        ensures { result ≡ length (time_body self.now.civil) }
    {
        4 + 8
    }

    /// The channel specific data word: month and year present, the leap bit, and format 0 and source
    /// 1, which are this recorder's own choice.
    fn word(&self) -> u32
        ensures { result ≡ told_time_word self.now.civil }
    {
        if self.civil.in_leap_year() {
            0x301
        } else {
            0x201
        }
    }

    /// The bytes of the body.
    pub fn encode(&self) -> [u8; 12]
        ensures { result ≡ time_body self.now.civil }
    {
        let parts = self.civil.parts();
        let [w0, w1, w2, w3] = self.word().to_le_bytes();
        [
            w0,
            w1,
            w2,
            w3,
            to_bcd(parts.centi),
            to_bcd(parts.second),
            to_bcd(parts.minute),
            to_bcd(parts.hour),
            to_bcd(parts.day),
            to_bcd(parts.month),
            to_bcd(parts.year % 100),
            to_bcd(parts.year / 100),
        ]
    }

    /// Adds the bytes of the body. Where memory is refused, nothing is added.
    pub fn encode_into(&self, out: &mut Vec<u8>) -> Result<(), AllocError>
        ensures { Appends (time_body self.now.civil) out.old out.new result }
    {
        append_all(out, &[&self.encode()])
    }

    /// Reads a body: the civil time that this recorder writes as these bytes, or whether another
    /// recorder may have written them. Another recorder's digits are not judged.
    pub fn decode(body: &[u8]) -> Reading<Civil>
        ensures found { ReadsBody (λ civil. IsTime civil body.now) (IsForeignTime body.now) result }
        ensures only { (civil : PartsValue) → IsTime civil body.now → result ≡ Strict civil }
    {
        let Ok(body) = <[u8; 12]>::try_from(body) else {
            return Reading::Neither;
        };
        let Some(civil) = civil_in(&body) else {
            return Reading::Lenient;
        };
        if (TimeBody { civil }).encode() == body {
            Reading::Strict(civil)
        } else {
            Reading::Lenient
        }
    }

    /// Whether the word of a body says that its time is a day of the year. Such a body isn't read.
    pub fn is_opaque(body: &[u8]) -> bool
        ensures { result ≡ is_opaque_time body.now }
    {
        match split_u32(body) {
            Some((word, _)) => word / 0x200 % 2 == 0,
            None => false,
        }
    }
}
