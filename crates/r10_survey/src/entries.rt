//! How many entries a body has.

ghost use Rattle.std.specs.Prelude.{◌≡◌, ◌++◌, ℕ, List, length};
ghost use Rattle.r10_count.specs.Bytes.{le_bytes};
ghost use Rattle.r10_count.specs.Texts.{told_size};
ghost use Rattle.r10_body.specs.Foreign.{IsForeignBody};
ghost use Rattle.r10_survey.specs.Entries.{AreCut, HasEntries};

use r10_count::{count_entries, split_u32};
use r10_packet::{
    TYPE_ARINC, TYPE_BUS, TYPE_DISCRETE, TYPE_EVENT, TYPE_MESSAGE, TYPE_TIME, TYPE_UART,
};
use r10_uart::UartEntry;

/// How many entries a body has that any recorder may have written. Of a data type whose entries are not counted, none.
/// Source: IRIG 106-17 chapter 11, the packets of each data type.
pub(crate) fn count_in(data_type: u8, body: &[u8]) -> usize
    ensures { IsForeignBody data_type body.now → HasEntries data_type body.now result }
{
    match split_u32(body) {
        Some((word, rest)) => count_after(data_type, word, rest),
        None => 0,
    }
}

/// The same of the bytes after its channel specific data word.
fn count_after(data_type: u8, word: u32, rest: &[u8]) -> usize
    ensures { (body : List ℕ) → body ≡ le_bytes 4 word ++ rest.now → IsForeignBody data_type body
        → HasEntries data_type body result }
{
    match data_type {
        TYPE_EVENT => rest.len() / 12,
        TYPE_TIME => rest.len() / 8,
        TYPE_BUS => (word % 0x100_0000) as usize,
        TYPE_DISCRETE => rest.len() / 12,
        TYPE_MESSAGE => (word % 0x1_0000) as usize,
        TYPE_ARINC => rest.len() / 8,
        TYPE_UART => count_messages(rest),
        _ => 0,
    }
}

/// How many UART messages the bytes are.
fn count_messages(bytes: &[u8]) -> usize
    ensures { (entries : List (List ℕ)) → AreCut 12 told_size entries bytes.now → result ≡ length entries }
{
    match count_entries::<UartEntry>(bytes) {
        Some(count) => count,
        None => 0,
    }
}
