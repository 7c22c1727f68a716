//! The faults of a database text, on a line or across lines.
ghost use Rattle.std.specs.Prelude.{◌≡◌};
ghost use Rattle.moo_dbtext_record.specs.Faults.{kind_of, fault_of};

use crate::record_reader::RecordFault;
use moo_dbtext_object::{LineFault, Refusal};
use thiserror::Error;

/// The reason why the source of a verb is no program.
#[derive(Clone, Copy, Debug, PartialEq, Eq, Error)]
pub enum ProgramFaultKind {
    #[error("BadToken")]
    BadToken,
    #[error("Unexpected")]
    Unexpected,
    #[error("TooDeep")]
    TooDeep,
    #[error("UnknownFunction")]
    UnknownFunction,
    #[error("BadTarget")]
    BadTarget,
    #[error("BadLoopName")]
    BadLoopName,
}

/// The reason why the source of a verb is no program, and the number of its line, from 1.
#[derive(Clone, Copy, Debug, PartialEq, Eq, Error)]
#[error("line {line} {kind}")]
pub struct ProgramFault {
    pub line: usize,
    pub kind: ProgramFaultKind,
}

/// The reason why a reader refuses a database text.
#[derive(Clone, Copy, Debug, PartialEq, Eq, Error)]
pub enum DbFaultKind {
    /// The first line names no version of the format.
    #[error("BadHeader")]
    BadHeader,
    /// The first line names a version that is not read.
    #[error("Version {0}")]
    Version(u32),
    /// The line is no number in the one decimal form, or the number is out of range.
    #[error("BadNumber")]
    BadNumber,
    /// A line is missing, or has no end.
    #[error("Truncated")]
    Truncated,
    /// The line has a byte that no string can hold.
    #[error("BadString")]
    BadString,
    /// A value's type is that of a floating-point number.
    #[error("FloatValue")]
    FloatValue,
    /// A number is the type of no value that this format has.
    #[error("BadType")]
    BadType,
    /// The line isn't the header of the object with the next number.
    #[error("BadObjectLine")]
    BadObjectLine,
    /// The object's links or property names don't fit those of other objects.
    #[error("BadHierarchy #{0}")]
    BadHierarchy(u32),
    /// The object has more or fewer values than properties.
    #[error("PropertyCount #{0}")]
    PropertyCount(u32),
    /// A program's header names no verb, or a verb that already has its program.
    #[error("BadProgramLine")]
    BadProgramLine,
    /// The source of a verb is no program. Holds the object, the verb and the fault.
    #[error("Program #{0}:{1} {2}")]
    Program(u32, u32, ProgramFault),
    /// The text has pending tasks.
    #[error("PendingTasks")]
    PendingTasks,
    /// A line of the section of connections is malformed.
    #[error("BadConnections")]
    BadConnections,
    /// A line follows the last one of the format.
    #[error("TrailingBytes")]
    TrailingBytes,
    /// A number, a count, a string or a value exceeds a size limit.
    #[error("TooLarge")]
    TooLarge,
    /// Memory ran out.
    #[error("Memory")]
    Memory,
}

/// The reason why a reader refuses a database text, and the number of the line at fault, from 1.
#[derive(Clone, Copy, Debug, PartialEq, Eq, Error)]
#[error("line {line}: {kind}")]
pub struct DbFault {
    pub line: u64,
    pub kind: DbFaultKind,
}

impl From<LineFault> for DbFaultKind {
    ghost from_gives = { λ f k. k ≡ kind_of f };

    fn from(fault: LineFault) -> DbFaultKind {
        match fault {
            LineFault::BadHeader => DbFaultKind::BadHeader,
            LineFault::Version(number) => DbFaultKind::Version(number),
            LineFault::BadNumber => DbFaultKind::BadNumber,
            LineFault::Truncated => DbFaultKind::Truncated,
            LineFault::BadString => DbFaultKind::BadString,
            LineFault::FloatValue => DbFaultKind::FloatValue,
            LineFault::BadType => DbFaultKind::BadType,
            LineFault::BadObjectLine => DbFaultKind::BadObjectLine,
            LineFault::BadProgramLine => DbFaultKind::BadProgramLine,
            LineFault::PendingTasks => DbFaultKind::PendingTasks,
            LineFault::BadConnections => DbFaultKind::BadConnections,
            LineFault::TrailingBytes => DbFaultKind::TrailingBytes,
            LineFault::TooLarge => DbFaultKind::TooLarge,
        }
    }
}

impl From<RecordFault> for DbFault {
    ghost from_gives = { λ e f. f ≡ fault_of e };

    fn from(fault: RecordFault) -> DbFault {
        let kind = match fault.kind {
            Refusal::Memory => DbFaultKind::Memory,
            Refusal::Fault(kind) => DbFaultKind::from(kind),
        };
        DbFault {
            line: fault.line,
            kind,
        }
    }
}
