//! Entries as a caller of another language has them.

ghost use Rattle.std.specs.Prelude.{◌≡◌};
ghost use Rattle.r10_body.specs.Gaps.{told_lost};
ghost use Rattle.r10_calls.specs.Copies.{copied};
ghost use Rattle.r10_calls.specs.Entries.{front, fields_of, out_bytes, words_of};

use crate::copies::copy_front;
use r10_body::{DataMessage, Entry, Gap, Message, UartMessage};

/// The bytes that a message may have.
pub(crate) const MOST_BYTES: usize = 65_535;

/// The words that a message may have.
pub(crate) const MOST_WORDS: usize = 36;

/// An entry without its bytes or words. What its kind does not have is 0.
#[repr(C)]
#[derive(Clone, Copy)]
pub struct EntryOut {
    /// units of 100 ns
    pub count: u64,
    /// how many messages before it on its channel were refused because the lane was full; 0 where the file doesn't tell
    pub lost: u64,
    /// how many bytes or words the message has
    pub length: usize,
    /// the word of an ARINC 429 bus, or the states of discretes
    pub word: u32,
    pub channel: u16,
    /// the subchannel of a serial line or a message
    pub sub: u16,
    /// the block status of a MIL-STD-1553 message
    pub status: u16,
    /// the gap times word of a MIL-STD-1553 message
    pub gap_times: u16,
    /// the number of a recording event
    pub number: u16,
    /// how many events of this number stand earlier
    pub occurrence: u16,
    pub year: u16,
    pub month: u16,
    pub day: u16,
    pub hour: u16,
    pub minute: u16,
    pub second: u16,
    /// hundredths of a second
    pub centi: u16,
    /// 1 a serial line, 2 MIL-STD-1553, 3 ARINC 429, 4 discretes, 5 a message, 6 a time, 7 a recording event
    pub kind: u8,
    /// the number of the ARINC 429 bus
    pub bus: u8,
    /// a message before it on its channel was refused because the lane was full
    pub gap: bool,
    pub parity: bool,
    pub format: bool,
    pub data_error: bool,
    pub high: bool,
}

/// How many were lost; 0 where that isn't reported.
pub(crate) fn lost_in(gap: Gap) -> u64
    ensures { result ≡ told_lost gap }
{
    match gap {
        Gap::Lost(lost) => lost,
        Gap::Whole | Gap::Unknown => 0,
    }
}

/// An entry of this kind, without what the message has.
fn front_of(entry: &Entry, kind: u8) -> EntryOut
    ensures { result ≡ front entry.now kind }
{
    EntryOut {
        count: entry.count.get(),
        lost: lost_in(entry.gap),
        length: 0,
        word: 0,
        channel: entry.channel,
        sub: 0,
        status: 0,
        gap_times: 0,
        number: 0,
        occurrence: 0,
        year: 0,
        month: 0,
        day: 0,
        hour: 0,
        minute: 0,
        second: 0,
        centi: 0,
        kind,
        bus: 0,
        gap: entry.gap.is_gap(),
        parity: false,
        format: false,
        data_error: false,
        high: false,
    }
}

/// The fields of an entry.
pub(crate) fn fields(entry: &Entry) -> EntryOut
    ensures { result ≡ fields_of entry.now }
{
    match &entry.message {
        Message::Uart(message) => EntryOut {
            parity: message.parity,
            sub: message.sub,
            length: message.bytes.len(),
            ..front_of(entry, 1)
        },
        Message::Bus1553(message) => EntryOut {
            status: message.status,
            gap_times: message.gap,
            length: message.words.len(),
            ..front_of(entry, 2)
        },
        Message::Arinc(message) => EntryOut {
            bus: message.bus,
            format: message.format,
            parity: message.parity,
            high: message.high,
            word: message.word,
            ..front_of(entry, 3)
        },
        Message::Discrete(message) => EntryOut {
            word: message.states,
            ..front_of(entry, 4)
        },
        Message::Message(message) => EntryOut {
            data_error: message.data_error,
            format: message.format,
            sub: message.sub,
            length: message.bytes.len(),
            ..front_of(entry, 5)
        },
        Message::Time { civil } => {
            let parts = civil.parts();
            EntryOut {
                year: parts.year,
                month: parts.month,
                day: parts.day,
                hour: parts.hour,
                minute: parts.minute,
                second: parts.second,
                centi: parts.centi,
                ..front_of(entry, 6)
            }
        }
        Message::Event { number, count } => EntryOut {
            number: *number,
            occurrence: *count,
            ..front_of(entry, 7)
        },
    }
}

/// The bytes of an entry's message, or none.
pub(crate) fn bytes_of(entry: &Entry) -> &[u8]
    ensures { result.now ≡ out_bytes entry.now }
{
    match &entry.message {
        Message::Uart(UartMessage { bytes, .. }) | Message::Message(DataMessage { bytes, .. }) =>
            bytes.as_slice(),
        _ => &[],
    }
}

/// The words of an entry's message, or none.
pub(crate) fn words_of(entry: &Entry) -> &[u16]
    ensures { result.now ≡ words_of entry.now }
{
    match &entry.message {
        Message::Bus1553(message) => message.words.as_slice(),
        _ => &[],
    }
}

/// Puts an entry where the caller wants it. Of its bytes or words, what fits.
pub(crate) fn put_entry(entry: &Entry, out: &mut EntryOut, bytes: &mut [u8], words: &mut [u16])
    ensures fields { out.new ≡ fields_of entry.now }
    ensures bytes { bytes.new ≡ copied (out_bytes entry.now) bytes.old }
    ensures words { words.new ≡ copied (words_of entry.now) words.old }
{
    *out = fields(entry);
    match &entry.message {
        Message::Uart(UartMessage { bytes: from, .. })
        | Message::Message(DataMessage { bytes: from, .. }) => {
            copy_front(from.as_slice(), bytes)
        }
        Message::Bus1553(message) => copy_front(message.words.as_slice(), words),
        _ => (),
    }
}
