//! Refusals.

ghost use Rattle.std.specs.Prelude.{◌≡◌};
ghost use Rattle.r10_body.specs.Refusals.{refusal_number, refusal_name};

use crate::fault::FileFault;
use std::error::Error;
use std::fmt;

/// What was published last.
#[derive(Clone, Copy, Debug, PartialEq, Eq)]
pub struct Glance {
    /// How often something was published.
    pub commits: u64,
    /// The number of the open or last file, from 0.
    pub file: u64,
    /// How many of its bytes are shown.
    pub bytes: u64,
}

/// Why a call was refused. A call checks in this order.
#[derive(Clone, Copy, Debug, PartialEq, Eq)]
pub enum Refusal {
    /// The recorder met a failure of the medium before.
    Failed,
    /// Nothing is mounted.
    NotMounted,
    /// Something is mounted already.
    AlreadyMounted,
    /// A file is being recorded.
    Busy,
    /// No file is being recorded.
    NotRecording,
    /// No channel has this ID.
    NoSuchChannel,
    /// The message is not of the channel's kind.
    WrongKind,
    /// A field of the message is out of its range.
    BadMessage,
    /// The message has too many bytes, or a packet of it alone would; or the setup text has.
    TooLong,
    /// The count doesn't fit 48 bits.
    CountRange,
    /// The count is below the last one that was accepted.
    CountBack,
    /// The lane holds its capacity.
    Overflow,
    /// There is no such date or time.
    BadCivil,
    /// No time was set yet.
    NoTime,
    /// The name is not 1 to 56 letters, digits, dots, underlines and dashes.
    BadName,
    /// A file has this name.
    NameTaken,
    /// The event's number is over 4095.
    BadEvent,
    /// The last file isn't closed.
    Unsealed,
    /// No file has this number, or none is to be closed.
    NoSuchFile,
    /// The cursor is older than an erase, or there were as many erases as can be counted.
    Stale,
    /// No open cursor has this number.
    NoCursor,
    /// The cursor's queue isn't empty.
    Unread,
    /// The reserved directory blocks have as many files as they can.
    DirectoryFull,
    /// The medium has no room for it.
    MediumFull,
    /// The directory can't be taken, first for this block.
    BadDirectory(u64),
    /// The file isn't strict, first at this offset in bytes.
    BadFile(u64, FileFault),
    /// The medium failed in this call.
    Medium,
    /// A player had seen more than the recorder shows.
    Behind(Glance),
    /// A growth of memory was refused.
    OutOfMemory,
}

impl Refusal {
    /// Its number, 1 to 30; none has 24.
    pub fn number(&self) -> u8
        ensures { result ≡ refusal_number self.now }
    {
        match self {
            Refusal::Failed => 1,
            Refusal::NotMounted => 2,
            Refusal::AlreadyMounted => 3,
            Refusal::Busy => 4,
            Refusal::NotRecording => 5,
            Refusal::NoSuchChannel => 6,
            Refusal::WrongKind => 7,
            Refusal::BadMessage => 8,
            Refusal::TooLong => 9,
            Refusal::CountRange => 10,
            Refusal::CountBack => 11,
            Refusal::Overflow => 12,
            Refusal::BadCivil => 13,
            Refusal::NoTime => 14,
            Refusal::BadName => 15,
            Refusal::NameTaken => 16,
            Refusal::BadEvent => 17,
            Refusal::Unsealed => 18,
            Refusal::NoSuchFile => 19,
            Refusal::Stale => 20,
            Refusal::NoCursor => 21,
            Refusal::Unread => 22,
            Refusal::DirectoryFull => 23,
            Refusal::MediumFull => 25,
            Refusal::BadDirectory(_) => 26,
            Refusal::BadFile(_, _) => 27,
            Refusal::Medium => 28,
            Refusal::Behind(_) => 29,
            Refusal::OutOfMemory => 30,
        }
    }

    /// Its name, as the enum spells it.
    pub fn name(&self) -> &'static str
        ensures { result.now ≡ refusal_name self.now }
    {
        match self {
            Refusal::Failed => "Failed",
            Refusal::NotMounted => "NotMounted",
            Refusal::AlreadyMounted => "AlreadyMounted",
            Refusal::Busy => "Busy",
            Refusal::NotRecording => "NotRecording",
            Refusal::NoSuchChannel => "NoSuchChannel",
            Refusal::WrongKind => "WrongKind",
            Refusal::BadMessage => "BadMessage",
            Refusal::TooLong => "TooLong",
            Refusal::CountRange => "CountRange",
            Refusal::CountBack => "CountBack",
            Refusal::Overflow => "Overflow",
            Refusal::BadCivil => "BadCivil",
            Refusal::NoTime => "NoTime",
            Refusal::BadName => "BadName",
            Refusal::NameTaken => "NameTaken",
            Refusal::BadEvent => "BadEvent",
            Refusal::Unsealed => "Unsealed",
            Refusal::NoSuchFile => "NoSuchFile",
            Refusal::Stale => "Stale",
            Refusal::NoCursor => "NoCursor",
            Refusal::Unread => "Unread",
            Refusal::DirectoryFull => "DirectoryFull",
            Refusal::MediumFull => "MediumFull",
            Refusal::BadDirectory(_) => "BadDirectory",
            Refusal::BadFile(_, _) => "BadFile",
            Refusal::Medium => "Medium",
            Refusal::Behind(_) => "Behind",
            Refusal::OutOfMemory => "OutOfMemory",
        }
    }
}

impl fmt::Display for Glance {
    fn fmt<W: fmt::Write>(&self, f: &mut fmt::Formatter<W>) -> fmt::Result {
        let commits = self.commits;
        let file = self.file;
        let bytes = self.bytes;
        write!(f, "{commits} {file} {bytes}")
    }
}

/// The number and the name, then the values that it carries.
impl fmt::Display for Refusal {
    fn fmt<W: fmt::Write>(&self, f: &mut fmt::Formatter<W>) -> fmt::Result {
        let number = self.number();
        let name = self.name();
        match self {
            Refusal::BadDirectory(block) => write!(f, "{number} {name} {block}"),
            Refusal::BadFile(offset, fault) => write!(f, "{number} {name} {offset} {fault}"),
            Refusal::Behind(seen) => write!(f, "{number} {name} {seen}"),
            _ => write!(f, "{number} {name}"),
        }
    }
}

impl Error for Refusal {}
