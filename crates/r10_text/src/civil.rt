//! Civil times as text.

ghost use Rattle.std.specs.Prelude.{◌≡◌, ◌<◌, ◌+◌, ◌∷◌, ◌++◌, ℕ, List, IfSome, IfNone};
ghost use Rattle.r10_text.specs.Civil.{two_digits, civil_text};
ghost use Rattle.r10_text.specs.CivilParts.{date_text, HasText};

use r10_count::Parts;

/// The parts that a text of the form `YYYY-MM-DD hh:mm:ss.cc` spells. Whether there is such a time is not asked.
pub fn parts_of(text: &[u8]) -> Option<Parts>
    ensures found { IfSome result (λ parts. HasText parts × (text.now ≡ civil_text parts)) }
    ensures none { IfNone result ((parts : Parts) → HasText parts → text.now ≡ civil_text parts → ⊥) }
{
    let (year, month, day, rest) = split_date(text)?;
    let (hour, rest) = split_marked(b' ', rest)?;
    let (minute, rest) = split_marked(b':', rest)?;
    let (second, rest) = split_marked(b':', rest)?;
    let (centi, rest) = split_marked(b'.', rest)?;
    if !rest.is_empty() {
        return None;
    }
    Some(Parts {
        year,
        month,
        day,
        hour,
        minute,
        second,
        centi,
    })
}

/// The date `YYYY-MM-DD` at the front as year, month and day, and the bytes after it.
fn split_date(bytes: &[u8]) -> Option<(u16, u16, u16, &[u8])>
    ensures found { IfSome result (λ x. bytes.now ≡ date_text x.0 x.1 x.2 x.3.now) }
    ensures range { IfSome result (λ x. (x.0 < 10000) × (x.1 < 100) × (x.2 < 100)) }
    ensures none { IfNone result ((year month day : ℕ) (rest : List ℕ) → year < 10000 → month < 100 → day < 100
        → bytes.now ≡ date_text year month day rest → ⊥) }
{
    let (century, rest) = split_pair(bytes)?;
    let (year, rest) = split_pair(rest)?;
    let (month, rest) = split_marked(b'-', rest)?;
    let (day, rest) = split_marked(b'-', rest)?;
    Some((century * 100 + year, month, day, rest))
}

/// The decimal digit at the front, and the bytes after it.
fn split_digit(bytes: &[u8]) -> Option<(u16, &[u8])>
    ensures found { IfSome result (λ x. bytes.now ≡ (48 + x.0) ∷ x.1.now) }
    ensures range { IfSome result (λ x. x.0 < 10) }
    ensures none { IfNone result ((n : ℕ) (rest : List ℕ) → n < 10 → bytes.now ≡ (48 + n) ∷ rest → ⊥) }
{
    match bytes {
        [digit @ b'0'..=b'9', rest @ ..] => Some((u16::from(digit - b'0'), rest)),
        _ => None,
    }
}

/// The number of two decimal digits at the front, and the bytes after it.
fn split_pair(bytes: &[u8]) -> Option<(u16, &[u8])>
    ensures found { IfSome result (λ x. bytes.now ≡ two_digits x.0 ++ x.1.now) }
    ensures range { IfSome result (λ x. x.0 < 100) }
    ensures none { IfNone result ((n : ℕ) (rest : List ℕ) → n < 100 → bytes.now ≡ two_digits n ++ rest → ⊥) }
{
    let (tens, rest) = split_digit(bytes)?;
    let (ones, rest) = split_digit(rest)?;
    Some((10 * tens + ones, rest))
}

/// The number of two decimal digits after a mark at the front, and the bytes after it.
fn split_marked(mark: u8, bytes: &[u8]) -> Option<(u16, &[u8])>
    ensures found { IfSome result (λ x. bytes.now ≡ mark ∷ two_digits x.0 ++ x.1.now) }
    ensures range { IfSome result (λ x. x.0 < 100) }
    ensures none { IfNone result ((n : ℕ) (rest : List ℕ) → n < 100 → bytes.now ≡ mark ∷ two_digits n ++ rest → ⊥) }
{
    match bytes {
        [first, rest @ ..] if *first == mark => split_pair(rest),
        _ => None,
    }
}
