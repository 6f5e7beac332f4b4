//! The lines of entries.

ghost use Rattle.std.specs.Prelude.{◌≡◌, string_bytes, IfOk};
ghost use Rattle.r10_text.specs.Civil.{civil_text as civil_digits};
ghost use Rattle.r10_text.specs.Line.{entry_line, entry_text as entry_words, gap_text as gap_words, message_text as message_words};
ghost use Rattle.r10_text.specs.Line.{bytes_text, long_text as eight_digits, word_text as four_digits, words_text as words_digits};
ghost use Rattle.r10_count.specs.Printed.{flag_text as flag_digit};

use r10_body::{Entry, Gap, Message};
use r10_count::Civil;
use std::alloc::{AllocError, Global};

/// The line of an entry, with its line feed.
pub fn entry_line(alloc: Global, entry: &Entry) -> Result<String, AllocError>
    ensures { IfOk result (λ line. string_bytes line ≡ entry_line entry.now) }
{
    let text = entry_text(alloc, entry)?;
    format!(in alloc; "{text}\n")
}

/// An entry: its channel, its count, what was lost before it, and its message.
pub(crate) fn entry_text(alloc: Global, entry: &Entry) -> Result<String, AllocError>
    ensures { IfOk result (λ text. string_bytes text ≡ entry_words entry.now) }
{
    let (channel, count) = (entry.channel, entry.count.get());
    let gap = gap_text(alloc, entry.gap)?;
    let message = message_text(alloc, &entry.message)?;
    format!(in alloc; "entry {channel} {count} {gap} {message}")
}

fn message_text(alloc: Global, message: &Message) -> Result<String, AllocError>
    ensures { IfOk result (λ text. string_bytes text ≡ message_words message.now) }
{
    match message {
        Message::Uart(message) => {
            let (parity, sub) = (flag_text(message.parity), message.sub);
            let bytes = hex_text(alloc, message.bytes.as_slice())?;
            format!(in alloc; "uart {parity} {sub} {bytes}")
        }
        Message::Bus1553(message) => {
            let status = word_text(alloc, message.status)?;
            let gap = word_text(alloc, message.gap)?;
            let words = words_text(alloc, message.words.as_slice())?;
            format!(in alloc; "1553 {status} {gap} {words}")
        }
        Message::Arinc(message) => {
            let (bus, format) = (message.bus, flag_text(message.format));
            let (parity, high) = (flag_text(message.parity), flag_text(message.high));
            let data = long_text(alloc, message.word)?;
            format!(in alloc; "arinc {bus} {format} {parity} {high} {data}")
        }
        Message::Discrete(message) => {
            let states = long_text(alloc, message.states)?;
            format!(in alloc; "discrete {states}")
        }
        Message::Message(message) => {
            let (data, format) = (flag_text(message.data_error), flag_text(message.format));
            let sub = message.sub;
            let bytes = hex_text(alloc, message.bytes.as_slice())?;
            format!(in alloc; "message {data} {format} {sub} {bytes}")
        }
        Message::Time { civil } => {
            let text = civil_text(alloc, *civil)?;
            format!(in alloc; "time {text}")
        }
        Message::Event { number, count } => format!(in alloc; "event {number} {count}"),
    }
}

/// How many messages were lost before an entry; `1+` where a file doesn't tell how many.
fn gap_text(alloc: Global, gap: Gap) -> Result<String, AllocError>
    ensures { IfOk result (λ text. string_bytes text ≡ gap_words gap) }
{
    match gap {
        Gap::Whole => String::from_str(alloc, "0"),
        Gap::Lost(lost) => format!(in alloc; "{lost}"),
        Gap::Unknown => String::from_str(alloc, "1+"),
    }
}

pub(crate) fn flag_text(flag: bool) -> &'static str
    ensures { result.now ≡ flag_digit flag }
{
    if flag { "1" } else { "0" }
}

/// The bytes in hex digits, `-` where there are none.
fn hex_text(alloc: Global, bytes: &[u8]) -> Result<String, AllocError>
    ensures { IfOk result (λ text. string_bytes text ≡ bytes_text bytes.now) }
{
    if bytes.is_empty() {
        String::from_str(alloc, "-")
    } else {
        hex::encode(alloc, bytes)
    }
}

/// The words in four hex digits each, `-` where there are none.
fn words_text(alloc: Global, words: &[u16]) -> Result<String, AllocError>
    ensures { IfOk result (λ text. string_bytes text ≡ words_digits words.now) }
{
    let mut bytes = Vec::new(alloc);
    for word in words {
        bytes.extend_from_slice(&word.to_be_bytes())?;
    }
    hex_text(alloc, &bytes)
}

/// A word in four hex digits.
fn word_text(alloc: Global, word: u16) -> Result<String, AllocError>
    ensures { IfOk result (λ text. string_bytes text ≡ four_digits word) }
{
    hex::encode(alloc, &word.to_be_bytes())
}

/// A number in eight hex digits.
fn long_text(alloc: Global, number: u32) -> Result<String, AllocError>
    ensures { IfOk result (λ text. string_bytes text ≡ eight_digits number) }
{
    hex::encode(alloc, &number.to_be_bytes())
}

/// A civil time in the form `YYYY-MM-DD hh:mm:ss.cc`.
#[tactic(auto, using(crate::proofs::Digits::decimal_pair))]
fn civil_text(alloc: Global, civil: Civil) -> Result<String, AllocError>
    ensures { IfOk result (λ text. string_bytes text ≡ civil_digits civil) }
{
    let parts = civil.parts();
    let (century, year) = (parts.year / 100, parts.year % 100);
    let (month, day) = (parts.month, parts.day);
    let (hour, minute) = (parts.hour, parts.minute);
    let (second, centi) = (parts.second, parts.centi);
    format!(in alloc;
        "{century:02}{year:02}-{month:02}-{day:02} {hour:02}:{minute:02}:{second:02}.{centi:02}"
    )
}
