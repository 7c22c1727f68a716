//! The line that reports a fault of a database.
ghost use Rattle.std.specs.Prelude.{◌≡◌, ◌++◌, IfOk, OnOk};
ghost use Rattle.std.specs.Fmt.{decimal};
ghost use Rattle.moo_cli_io.specs.Told.{fault_line, kind_text, program_kind_text, program_text};

use itoa::Buffer;
use moo_dbtext_record::{DbFault, DbFaultKind, ProgramFault, ProgramFaultKind};
use std::alloc::{AllocError, Global};

/// Returns the line that reports a fault. Fails only if memory runs out.
pub fn fault_line(alloc: Global, fault: DbFault) -> Result<Vec<u8>, AllocError>
    ensures { IfOk result (λ line. line.items ≡ fault_line fault) }
{
    let mut line = Vec::new(alloc);
    put_numbered(&mut line, b"line ", fault.line)?;
    line.extend_from_slice(b": ")?;
    put_kind(&mut line, fault.kind)?;
    line.extend_from_slice(b"\n")?;
    Ok(line)
}

fn put_numbered(line: &mut Vec<u8>, words: &[u8], number: u64) -> Result<(), AllocError>
    ensures { OnOk result (line.new.items ≡ line.old.items ++ (words.now ++ decimal number)) }
{
    let mut buffer = Buffer::new();
    line.extend_from_slice(words)?;
    line.extend_from_slice(buffer.format(number).as_bytes())
}

fn put_kind(line: &mut Vec<u8>, kind: DbFaultKind) -> Result<(), AllocError>
    ensures { OnOk result (line.new.items ≡ line.old.items ++ kind_text kind) }
{
    match kind {
        DbFaultKind::BadHeader => line.extend_from_slice(b"BadHeader"),
        DbFaultKind::Version(number) => put_numbered(line, b"Version ", number as u64),
        DbFaultKind::BadNumber => line.extend_from_slice(b"BadNumber"),
        DbFaultKind::Truncated => line.extend_from_slice(b"Truncated"),
        DbFaultKind::BadString => line.extend_from_slice(b"BadString"),
        DbFaultKind::FloatValue => line.extend_from_slice(b"FloatValue"),
        DbFaultKind::BadType => line.extend_from_slice(b"BadType"),
        DbFaultKind::BadObjectLine => line.extend_from_slice(b"BadObjectLine"),
        DbFaultKind::BadHierarchy(x) => put_numbered(line, b"BadHierarchy #", x as u64),
        DbFaultKind::PropertyCount(x) => put_numbered(line, b"PropertyCount #", x as u64),
        DbFaultKind::BadProgramLine => line.extend_from_slice(b"BadProgramLine"),
        DbFaultKind::Program(object, verb, fault) => put_program(line, object, verb, fault),
        DbFaultKind::PendingTasks => line.extend_from_slice(b"PendingTasks"),
        DbFaultKind::BadConnections => line.extend_from_slice(b"BadConnections"),
        DbFaultKind::TrailingBytes => line.extend_from_slice(b"TrailingBytes"),
        DbFaultKind::TooLarge => line.extend_from_slice(b"TooLarge"),
        DbFaultKind::Memory => line.extend_from_slice(b"Memory"),
    }
}

fn put_program(
    line: &mut Vec<u8>,
    object: u32,
    verb: u32,
    fault: ProgramFault,
) -> Result<(), AllocError>
    ensures { OnOk result (line.new.items ≡ line.old.items ++ program_text object verb fault) }
{
    put_numbered(line, b"Program #", object as u64)?;
    put_numbered(line, b":", verb as u64)?;
    put_numbered(line, b" line ", fault.line as u64)?;
    line.extend_from_slice(b" ")?;
    put_program_kind(line, fault.kind)
}

fn put_program_kind(line: &mut Vec<u8>, kind: ProgramFaultKind) -> Result<(), AllocError>
    ensures { OnOk result (line.new.items ≡ line.old.items ++ program_kind_text kind) }
{
    match kind {
        ProgramFaultKind::BadToken => line.extend_from_slice(b"BadToken"),
        ProgramFaultKind::Unexpected => line.extend_from_slice(b"Unexpected"),
        ProgramFaultKind::TooDeep => line.extend_from_slice(b"TooDeep"),
        ProgramFaultKind::UnknownFunction => line.extend_from_slice(b"UnknownFunction"),
        ProgramFaultKind::BadTarget => line.extend_from_slice(b"BadTarget"),
        ProgramFaultKind::BadLoopName => line.extend_from_slice(b"BadLoopName"),
    }
}
