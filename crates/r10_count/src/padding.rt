//! Bytes with a zero byte after them where their number is odd.

ghost use Rattle.std.specs.Prelude.{◌≡◌, ◌++◌, ℕ, List, length, replicate, ◌%◌, IfSome, IfNone};
ghost use Rattle.r10_count.specs.Padding.{padding, padded};

/// What stands after so many bytes.
pub fn padding_of(count: usize) -> &'static [u8]
    ensures { result.now ≡ padding count }
{
    if count % 2 == 1 { &[0] } else { &[] }
}

/// The first bytes, where nothing but their padding is after them.
pub fn strip_padding(bytes: &[u8], count: usize) -> Option<&[u8]>
    ensures found { IfSome result (λ text. (bytes.now ≡ padded text.now) × (length text.now ≡ count)) }
    ensures none { IfNone result ((text : List ℕ) → length text ≡ count → bytes.now ≡ padded text → ⊥) }
{
    if bytes.len() < count {
        return None;
    }
    let (text, behind) = bytes.split_at(count);
    if behind == padding_of(count) {
        Some(text)
    } else {
        None
    }
}
