//! The names of files and volumes.

ghost use Rattle.std.specs.Prelude.{◌≡◌};
ghost use Rattle.std.specs.List.{list_all};
ghost use Rattle.r10_count.specs.Names.{is_name_byte, is_name, is_volume};

fn is_name_byte(byte: u8) -> bool
    ensures { result ≡ is_name_byte byte }
{
    matches!(byte, b'0'..=b'9' | b'A'..=b'Z' | b'a'..=b'z' | b'.' | b'_' | b'-')
}

fn has_name_bytes(name: &[u8]) -> bool
    ensures { result ≡ list_all is_name_byte name.now }
{
    name.iter().all(|byte| is_name_byte(*byte))
}

/// Whether these bytes are a file's name: 1 to 56 letters, digits, `.`, `_` and `-`.
pub fn is_name(name: &[u8]) -> bool
    ensures { result ≡ is_name name.now }
{
    1 <= name.len() && name.len() <= 56 && has_name_bytes(name)
}

/// Whether these bytes are a volume's name: 1 to 32 letters, digits, `.`, `_` and `-`.
pub fn is_volume(name: &[u8]) -> bool
    ensures { result ≡ is_volume name.now }
{
    1 <= name.len() && name.len() <= 32 && has_name_bytes(name)
}
