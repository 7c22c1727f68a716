//! The faults of a line of a database text.
ghost use Rattle.std.specs.Prelude.{◌≡◌};
ghost use Rattle.moo_dbtext_object.specs.declared.fault.Refusal.TheVariants.{Memory};

use std::alloc::{AllocError, AllocFailed};
use thiserror::Error;

/// The fault for which a reader refuses a line.
#[derive(Clone, Copy, Debug, PartialEq, Eq, Error)]
pub enum LineFault {
    /// The first line names no version of the format.
    #[error("BadHeader")]
    BadHeader,
    /// The first line names a version that is not read.
    #[error("Version {0}")]
    Version(u32),
    /// The line is no number in the one decimal form, or the number is out of range.
    #[error("BadNumber")]
    BadNumber,
    /// A line is missing, or has no end.
    #[error("Truncated")]
    Truncated,
    /// The line has a byte that no string can hold.
    #[error("BadString")]
    BadString,
    /// A value's type is that of a floating-point number.
    #[error("FloatValue")]
    FloatValue,
    /// A number is the type of no value that this format has.
    #[error("BadType")]
    BadType,
    /// The line isn't the header of the object with the next number.
    #[error("BadObjectLine")]
    BadObjectLine,
    /// A program's header names no verb, or a verb that already has its program.
    #[error("BadProgramLine")]
    BadProgramLine,
    /// The text has pending tasks.
    #[error("PendingTasks")]
    PendingTasks,
    /// A line of the section of connections is malformed.
    #[error("BadConnections")]
    BadConnections,
    /// A line follows the last one of the format.
    #[error("TrailingBytes")]
    TrailingBytes,
    /// A number, a count, a string or a value exceeds a size limit.
    #[error("TooLarge")]
    TooLarge,
}

/// The reason why a reader refuses a line: a fault of the text, or out of memory.
#[derive(Clone, Copy, Debug, PartialEq, Eq, Error)]
pub enum Refusal {
    #[error("out of memory")]
    Memory,
    #[error("{0}")]
    Fault(LineFault),
}

impl From<AllocError> for Refusal {
    ghost from_gives = { λ _ e. e ≡ Memory };

    fn from(_error: AllocError) -> Refusal {
        Refusal::Memory
    }
}

impl<T: Drop> From<AllocFailed<T>> for Refusal {
    ghost from_gives = { λ _ e. e ≡ Memory };

    fn from(_error: AllocFailed<T>) -> Refusal {
        Refusal::Memory
    }
}
