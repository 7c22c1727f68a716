//! The faults of texts that are no programs.
ghost use Rattle.std.specs.Prelude.{◌≡◌, ◌++◌, codes, IfOk, OnOk};
ghost use Rattle.moo_syntax.specs.FaultText.{kind_text, fault_text};

use itoa::Buffer;
use moo_value::MooStr;
use std::alloc::{AllocError, Global};

/// The kinds of faults.
#[derive(Drop)]
pub enum SyntaxFaultKind {
    /// No token begins here, or a comment begins here that is never closed.
    BadToken,
    /// No program continues with this token.
    Unexpected,
    /// A path has too many nodes, too many brackets are open, or a line of the full listing is too long.
    TooDeep,
    /// No built-in function has this name.
    UnknownFunction(MooStr),
    /// The expression before the `=` can't be assigned to.
    BadTarget,
    /// A `break` or a `continue` is in no loop, or in none that has its name.
    BadLoopName,
    /// Out of memory.
    Memory,
}

/// The fault of a text, and its line, counted from 1. A fault at the end of the text is on its last line.
#[derive(Drop)]
pub struct SyntaxFault {
    pub line: usize,
    pub kind: SyntaxFaultKind,
}

impl SyntaxFault {
    /// Returns the message that a player sees.
    pub fn text(&self, alloc: Global) -> Result<Vec<u8>, AllocError>
        ensures { IfOk result (λ text. text.items ≡ fault_text self.now) }
    {
        let mut text = Vec::from_slice(alloc, b"Line ")?;
        text.extend_from_slice(Buffer::new().format(self.line).as_bytes())?;
        text.extend_from_slice(b":  ")?;
        write_kind(&self.kind, &mut text)?;
        Ok(text)
    }
}

fn write_kind(kind: &SyntaxFaultKind, text: &mut Vec<u8>) -> Result<(), AllocError>
    ensures { OnOk result (text.new.items ≡ text.old.items ++ kind_text kind.now) }
{
    match kind {
        SyntaxFaultKind::BadToken => text.extend_from_slice(b"Bad token"),
        SyntaxFaultKind::Unexpected => text.extend_from_slice(b"Parse error"),
        SyntaxFaultKind::BadTarget => text.extend_from_slice(b"Illegal assignment target"),
        SyntaxFaultKind::BadLoopName => text.extend_from_slice(b"Invalid loop name"),
        SyntaxFaultKind::UnknownFunction(name) => write_unknown(name, text),
        SyntaxFaultKind::TooDeep => text.extend_from_slice(b"Too deeply nested"),
        SyntaxFaultKind::Memory => text.extend_from_slice(b"Out of memory"),
    }
}

fn write_unknown(name: &MooStr, text: &mut Vec<u8>) -> Result<(), AllocError>
    ensures { OnOk result (text.new.items ≡ text.old.items ++ codes "Unknown built-in function: " ++ name.now) }
{
    text.extend_from_slice(b"Unknown built-in function: ")?;
    text.extend_from_slice(name.as_bytes())
}
