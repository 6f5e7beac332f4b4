// Texts in a directory block: names, dates and times.
ghost use Rattle.std.specs.Prelude.{◌≡◌, ◌<◌, ◌≤◌, length};
ghost use Rattle.r10_dirblock.specs.Texts.{is_padding, padded_text, stripped, IsStripped, digits, day_month_year, time_text};

use r10_count::Civil;

/// The close time of a file that is not closed.
pub(crate) const DASHES: [u8; 8] = *b"--------";

/// The text in a field of `N` bytes, with zero bytes after it.
pub fn pad<const N: usize>(text: &[u8]) -> [u8; N]
    requires { length text.now ≤ N }
    ensures bytes { result ≡ padded_text N text.now }
    // A text that ends in no zero byte and no space is read again.
    ensures again { IsStripped text.now → stripped result ≡ text.now }
{
    let mut field = [0; N];
    field[..text.len()].copy_from_slice(text);
    field
}

/// The text without the zero bytes and spaces after it. Those inside it and before it stay.
pub fn strip(text: &[u8]) -> &[u8]
    ensures { result.now ≡ stripped text.now }
{
    let mut end = text.len();
    while end > 0 && is_pad(text[end - 1]) {
        end -= 1;
    }
    &text[..end]
}

fn is_pad(byte: u8) -> bool
    ensures { result ≡ is_padding byte }
{
    byte == 0 || byte == b' '
}

/// The date as DDMMYYYY.
pub(crate) fn date_digits(time: Civil) -> [u8; 8]
    ensures { result ≡ day_month_year time }
{
    let parts = time.parts();
    let [day, days] = two_digits(parts.day);
    let [month, months] = two_digits(parts.month);
    let [century, centuries] = two_digits(parts.year / 100);
    let [year, years] = two_digits(parts.year);
    [day, days, month, months, century, centuries, year, years]
}

/// The time of day as HHMMSSss, to the hundredth of a second.
pub(crate) fn time_digits(time: Civil) -> [u8; 8]
    ensures { result ≡ time_text time }
{
    let parts = time.parts();
    let [hour, hours] = two_digits(parts.hour);
    let [minute, minutes] = two_digits(parts.minute);
    let [second, seconds] = two_digits(parts.second);
    let [tenth, hundredth] = two_digits(parts.centi);
    [
        hour, hours, minute, minutes, second, seconds, tenth, hundredth,
    ]
}

// The two low decimal digits.
fn two_digits(n: u16) -> [u8; 2]
    ensures { result ≡ digits n }
{
    [b'0' + (n / 10 % 10) as u8, b'0' + (n % 10) as u8]
}
