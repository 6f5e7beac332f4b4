//! Why a command gives up.

ghost use Rattle.std.specs.Prelude.{◌≡◌, ◌≢◌};
ghost use Rattle.std.specs.IoError.{error_kind};
ghost use Rattle.r10_command.specs.Status.{fault_status, IsFailure};
ghost use Rattle.r10_command.specs.declared.fault.Fault.TheVariants.{NotText};

use r10_body::Refusal;
use r10_images::{Limit, StreamFault};
use r10_text::ScriptFault;
use std::alloc::AllocError;
use std::io;
use std::io::ErrorKind;
use thiserror::Error;

/// Why a command gives up.
#[derive(Debug, Drop, Error)]
pub enum Fault {
    /// A growth was refused.
    #[error("out of memory")]
    Memory(AllocError),
    /// The reader failed.
    #[error("cannot read: {0}")]
    Read(io::Error),
    /// The reader was called as often as a command may, and had not ended.
    #[error("cannot read: the input does not end")]
    Endless,
    /// The writer failed.
    #[error("cannot write: {0}")]
    Write(io::Error),
    /// The medium in memory could not be formatted.
    #[error("cannot format the medium: {0}")]
    Format(Refusal),
    /// No medium is formatted so.
    #[error("{0}")]
    Limit(Limit),
    /// A word of the command line is not UTF-8.
    #[error("an argument is not UTF-8")]
    NotText,
    /// The words of the command line are wrong.
    #[error("{0}")]
    Usage(String),
    /// The script is wrong.
    #[error("{0}")]
    Script(ScriptFault),
    /// The script has nothing in it.
    #[error("the script is empty: r10 --help has a whole one")]
    Empty,
}

impl From<AllocError> for Fault {
    ghost use Rattle.std.specs.Prelude.{◌≡◌};
    ghost use Rattle.r10_command.specs.Status.{fault_status};

    ghost from_gives = { λ _ fault. fault_status fault ≡ 3 };

    fn from(error: AllocError) -> Fault {
        Fault::Memory(error)
    }
}

impl From<StreamFault> for Fault {
    ghost use Rattle.std.specs.Prelude.{◌≡◌};
    ghost use Rattle.r10_command.specs.Status.{fault_status};

    ghost from_gives = { λ _ fault. fault_status fault ≡ 3 };

    fn from(fault: StreamFault) -> Fault {
        match fault {
            StreamFault::Memory(error) => Fault::Memory(error),
            StreamFault::Read(error) => Fault::Read(error),
            StreamFault::Endless { .. } => Fault::Endless,
            StreamFault::Write(error) => Fault::Write(error),
        }
    }
}

impl Fault {
    /// Why a text is no script: for this reason, or since nothing is in it.
    pub fn of_script(text: &[u8], fault: ScriptFault) -> Fault {
        match fault {
            ScriptFault::OutOfMemory(error) => Fault::Memory(error),
            wrong => {
                if is_blank(text) {
                    Fault::Empty
                } else {
                    Fault::Script(wrong)
                }
            }
        }
    }

    /// Why the words of the command line can't be had. They are blamed only where one of them is not UTF-8.
    pub fn of_words(error: io::Error) -> Fault
        ensures not_text { error_kind error ≡ ErrorKind.InvalidData → result ≡ NotText }
        ensures other { error_kind error ≢ ErrorKind.InvalidData → fault_status result ≡ 3 }
    {
        match error.kind() {
            ErrorKind::InvalidData => Fault::NotText,
            ErrorKind::OutOfMemory => Fault::Memory(AllocError),
            _ => Fault::Read(error),
        }
    }

    /// The exit status: 2 for wrong words, values beyond their limits or a wrong script, 3 for want of memory and for what can't be
    /// read or written.
    pub fn status(&self) -> u8
        ensures value { result ≡ fault_status self.now }
        ensures range { IsFailure result }
    {
        match self {
            Fault::NotText | Fault::Usage(_) | Fault::Limit(_) | Fault::Empty => 2,
            Fault::Script(ScriptFault::Wrong { .. }) => 2,
            Fault::Script(ScriptFault::OutOfMemory(_)) => 3,
            Fault::Memory(_) | Fault::Read(_) | Fault::Endless => 3,
            Fault::Write(_) | Fault::Format(_) => 3,
        }
    }
}

/// Whether there is nothing in a text but spaces and ends of lines.
fn is_blank(text: &[u8]) -> bool {
    for byte in text {
        if !byte.is_ascii_whitespace() {
            return false;
        }
    }
    true
}
