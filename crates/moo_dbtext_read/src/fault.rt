//! The faults of sources.
ghost use Rattle.std.specs.Prelude.{◌≡◌};
ghost use Rattle.moo_dbtext_read.specs.Faults.{told_kind, source_kind};

use moo_dbtext_record::{DbFault, DbFaultKind, ProgramFault, ProgramFaultKind};
use moo_syntax::{SyntaxFault, SyntaxFaultKind};

fn told_kind(kind: &SyntaxFaultKind) -> Option<ProgramFaultKind>
    ensures { result ≡ told_kind kind.now }
{
    match kind {
        SyntaxFaultKind::BadToken => Some(ProgramFaultKind::BadToken),
        SyntaxFaultKind::Unexpected => Some(ProgramFaultKind::Unexpected),
        SyntaxFaultKind::BadTarget => Some(ProgramFaultKind::BadTarget),
        SyntaxFaultKind::BadLoopName => Some(ProgramFaultKind::BadLoopName),
        SyntaxFaultKind::UnknownFunction(_) => Some(ProgramFaultKind::UnknownFunction),
        SyntaxFaultKind::TooDeep => Some(ProgramFaultKind::TooDeep),
        SyntaxFaultKind::Memory => None,
    }
}

/// Returns the fault to report for a verb whose source has this syntax fault.
pub fn kind_of_source(object: u32, verb: u32, fault: &SyntaxFault) -> DbFaultKind
    ensures { result ≡ source_kind object verb fault.now.line fault.now.kind }
{
    match told_kind(&fault.kind) {
        Some(kind) => {
            let line = fault.line;
            DbFaultKind::Program(object, verb, ProgramFault { line, kind })
        }
        None => DbFaultKind::Memory,
    }
}
