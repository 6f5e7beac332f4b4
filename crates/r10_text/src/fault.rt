//! Why a text is no script, and where.

ghost use Rattle.r10_text.specs.Fault.{IsLocated};

use crate::locate::line_in;
use std::alloc::AllocError;
use std::fmt;
use thiserror::Error;

/// Why a script was not read.
#[derive(Debug, Drop, Error)]
pub enum ScriptFault {
    /// A growth was refused. This says nothing of the text.
    #[error("out of memory")]
    OutOfMemory(#[from(alloc)] AllocError),
    /// The text is no script.
    #[error("{spot}: {wrong}")]
    Wrong { spot: Spot, wrong: Wrong },
}

/// Where in a script: the line of the text, from 1, where it is known, and the table.
#[derive(Clone, Copy, Debug, PartialEq, Eq)]
pub struct Spot {
    pub line: Option<usize>,
    pub place: Place,
}

/// Which of a script's tables.
#[derive(Clone, Copy, Debug, PartialEq, Eq)]
pub enum Place {
    /// None of them: the text as a whole.
    Text,
    /// The keys above the first table.
    Top,
    /// The channel table of this place in the text, from 1.
    Channel(usize),
    /// The step of this number, from 1.
    Step(usize),
    /// The feed table of this place in the text, from 1.
    Feed(usize),
    /// The item of this number, from 1, of a feed table.
    Item { feed: usize, number: usize },
    /// The order of this number, from 1.
    Order(usize),
    /// The reader table of this place in the text, from 1.
    Reader(usize),
}

/// What is wrong there.
#[derive(Debug, Drop, Error)]
pub enum Wrong {
    /// The text is not TOML.
    #[error("not TOML: {message}")]
    Toml {
        message: String,
    },
    /// A key that is needed is not there.
    #[error("`{key}` is missing")]
    Missing {
        key: &'static str,
    },
    /// A key that no such table has, and those that it may have.
    #[error("unknown key {key:?}, the keys here are: {known}")]
    Unknown {
        key: String,
        known: String,
    },
    /// A value that is not what its key wants.
    #[error("`{key}` must be {wanted}, not {found}")]
    Value {
        key: &'static str,
        wanted: &'static str,
        found: KeyContent,
    },
    /// An offer that does not tell the kind of its message, on a channel that is not there.
    #[error("there is no channel {channel}, so `kind` is needed")]
    NoChannel {
        channel: u16,
    },
    /// No channel tables, or too many.
    #[error("there must be 1 to 64 channel tables, not {count}")]
    Tables {
        count: usize,
    },
}

/// What a key has.
#[derive(Debug, Drop, Error)]
pub enum KeyContent {
    #[error("{0}")]
    Number(i64),
    #[error("{0}")]
    Truth(bool),
    /// The first characters of a text.
    #[error("{0:?}")]
    Text(String),
    /// A value of another type, by the type's name.
    #[error("{0}")]
    Other(&'static str),
}

impl ScriptFault {
    /// The fault with the line of what it names, where it has none and the text has it in a line of its own.
    pub fn with_line(self, text: &[u8]) -> ScriptFault
        ensures { IsLocated self result }
    {
        match self {
            ScriptFault::OutOfMemory(error) => ScriptFault::OutOfMemory(error),
            ScriptFault::Wrong { spot, wrong } => {
                let place = spot.place;
                let line = match spot.line {
                    Some(line) => Some(line),
                    None => line_in(text, place, wrong.key()),
                };
                ScriptFault::Wrong {
                    spot: Spot { line, place },
                    wrong,
                }
            }
        }
    }
}

impl Wrong {
    /// The key that a person looks for, empty where there is none.
    fn key(&self) -> &str {
        match self {
            Wrong::Toml { .. } | Wrong::Tables { .. } => "",
            Wrong::Missing { key } => key,
            Wrong::Unknown { key, .. } => key.as_str(),
            Wrong::Value { key, .. } => key,
            Wrong::NoChannel { .. } => "channel",
        }
    }
}

impl fmt::Display for Spot {
    fn fmt<W: fmt::Write>(&self, f: &mut fmt::Formatter<W>) -> fmt::Result {
        let place = self.place;
        match self.line {
            Some(line) => {
                if place == Place::Text {
                    write!(f, "line {line}")
                } else {
                    write!(f, "line {line}, {place}")
                }
            }
            None => write!(f, "{place}"),
        }
    }
}

impl fmt::Display for Place {
    fn fmt<W: fmt::Write>(&self, f: &mut fmt::Formatter<W>) -> fmt::Result {
        match self {
            Place::Text => write!(f, "the script"),
            Place::Top => write!(f, "above the first table"),
            Place::Channel(number) => write!(f, "channel table {number}"),
            Place::Step(number) => write!(f, "step {number}"),
            Place::Feed(number) => write!(f, "feed table {number}"),
            Place::Item { feed, number } => write!(f, "item {number} of feed table {feed}"),
            Place::Order(number) => write!(f, "order {number}"),
            Place::Reader(number) => write!(f, "reader table {number}"),
        }
    }
}
