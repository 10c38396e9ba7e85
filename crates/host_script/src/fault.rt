//! Why bytes are no host script.
ghost use Rattle.std.specs.Prelude.{◌≡◌};

use ivm_text::NoMemory;
use std::alloc::{AllocError, AllocFailed};
use thiserror::Error;

/// What is wrong with a line, in the order in which the kinds on one line are told.
#[derive(Clone, Copy, Debug, Drop, PartialEq, Eq, Error)]
pub enum HostKind {
    /// The script has more than 4,194,304 bytes, which is told at line 0; or the text of a command has
    /// more than 65,536.
    #[error("TooLong")]
    TooLong,
    /// The line isn't UTF-8. Bytes that only end inside a character are told at the last line.
    #[error("BadUtf8")]
    BadUtf8,
    /// The first word isn't a command.
    #[error("UnknownCommand")]
    UnknownCommand,
    /// A text begins with `<<W`, and no later line is equal to `W`.
    #[error("OpenText")]
    OpenText,
    /// There are too few or too many words, a text is missing, or one isn't wanted.
    #[error("BadWords")]
    BadWords,
    /// A new name hasn't the form of a name.
    #[error("BadName")]
    BadName,
    /// An earlier line gave the new name.
    #[error("NameTaken")]
    NameTaken,
    /// No earlier line gave the name that is used.
    #[error("UnknownName")]
    UnknownName,
    /// The name that is used stands for a thing of another kind.
    #[error("WrongKind")]
    WrongKind,
    /// The value of an option isn't a decimal number without a superfluous zero: of `limit` one from 1,000
    /// to 4,000,000, of `timeout` one from 1 to 100,000,000.
    #[error("BadNumber")]
    BadNumber,
    /// The text of a `set` isn't one primitive literal.
    #[error("BadLiteral")]
    BadLiteral,
    /// It is the 65th `isolate`.
    #[error("TooManyIsolates")]
    TooManyIsolates,
    /// The limits of the isolates, together, pass 16,000,000 cells.
    #[error("TotalCells")]
    TotalCells,
}

/// Why bytes gave no host script.
#[derive(Clone, Copy, Debug, Drop, PartialEq, Eq, Error)]
pub enum HostFault {
    /// This line, counted from 1, is the first with a fault; line 0 stands for the whole script.
    #[error("line {line}: {kind}")]
    At { line: u32, kind: HostKind },
    /// No memory was found for the script.
    #[error("no memory")]
    NoMemory,
}

impl From<AllocError> for HostFault {
    ghost use Rattle.std.specs.Prelude.{◌≡◌};
    ghost use Rattle.host_script.specs.declared.fault.HostFault.TheVariants.{NoMemory};

    ghost from_gives = { λ _ fault. fault ≡ NoMemory };

    fn from(_: AllocError) -> HostFault {
        HostFault::NoMemory
    }
}

impl<T: Drop> From<AllocFailed<T>> for HostFault {
    ghost use Rattle.std.specs.Prelude.{◌≡◌};
    ghost use Rattle.host_script.specs.declared.fault.HostFault.TheVariants.{NoMemory};

    ghost from_gives = { λ _ fault. fault ≡ NoMemory };

    fn from(_: AllocFailed<T>) -> HostFault {
        HostFault::NoMemory
    }
}

impl From<NoMemory> for HostFault {
    ghost use Rattle.std.specs.Prelude.{◌≡◌};
    ghost use Rattle.host_script.specs.declared.fault.HostFault.TheVariants.{NoMemory};

    ghost from_gives = { λ _ fault. fault ≡ NoMemory };

    fn from(_: NoMemory) -> HostFault {
        HostFault::NoMemory
    }
}

// This line has a fault of this kind.
pub(crate) fn at(line: u32, kind: HostKind) -> HostFault
    ensures { result ≡ HostFault.At line kind }
{
    HostFault::At { line, kind }
}
