//! The surface of `moo_dbtext`.
use moo_dbtext::{DbFault, DbFaultKind, DbReader, ProgramFault, ProgramFaultKind, Saved};
use std::alloc::{AllocError, Global};

pub fn read_db(alloc: Global, bytes: &[u8]) -> Result<Saved, DbFault> {
    moo_dbtext::read_db(alloc, bytes)
}

pub fn write_db(alloc: Global, saved: &Saved) -> Result<Vec<u8>, AllocError> {
    moo_dbtext::write_db(alloc, saved)
}

pub fn new(alloc: Global) -> DbReader {
    DbReader::new(alloc)
}

pub fn feed(reader: &mut DbReader, alloc: Global, piece: &[u8]) -> Result<(), DbFault> {
    reader.feed(alloc, piece)
}

pub fn finish(reader: DbReader, alloc: Global) -> Result<Saved, DbFault> {
    reader.finish(alloc)
}

/// Returns the players who were connected.
pub fn connected(saved: &Saved) -> &[i32] {
    &saved.connected
}

/// Returns the line of a fault and the number of its kind.
pub fn fault(fault: DbFault) -> (u64, u8) {
    (fault.line, kind(fault.kind))
}

fn kind(kind: DbFaultKind) -> u8 {
    match kind {
        DbFaultKind::BadHeader => 1,
        DbFaultKind::Version(_) => 2,
        DbFaultKind::BadNumber => 3,
        DbFaultKind::Truncated => 4,
        DbFaultKind::BadString => 5,
        DbFaultKind::FloatValue => 6,
        DbFaultKind::BadType => 7,
        DbFaultKind::BadObjectLine => 8,
        DbFaultKind::BadHierarchy(_) => 9,
        DbFaultKind::PropertyCount(_) => 10,
        DbFaultKind::BadProgramLine => 11,
        DbFaultKind::Program(_, _, _) => 12,
        DbFaultKind::PendingTasks => 13,
        DbFaultKind::BadConnections => 14,
        DbFaultKind::TrailingBytes => 15,
        DbFaultKind::TooLarge => 16,
        DbFaultKind::Memory => 17,
    }
}

/// Returns the line of a program's fault and the number of its kind.
pub fn program_fault(fault: ProgramFault) -> (usize, u8) {
    let kind = match fault.kind {
        ProgramFaultKind::BadToken => 1,
        ProgramFaultKind::Unexpected => 2,
        ProgramFaultKind::TooDeep => 3,
        ProgramFaultKind::UnknownFunction => 4,
        ProgramFaultKind::BadTarget => 5,
        ProgramFaultKind::BadLoopName => 6,
    };
    (fault.line, kind)
}
