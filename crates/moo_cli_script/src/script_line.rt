//! The meaning of a line of a script.
ghost use Rattle.std.specs.Prelude.{MatchOption, IfOk};
ghost use Rattle.moo_cli_script.specs.ScriptLines.{Step, Asks, step};

use crate::connection_line::read_connection_line;
use crate::disk_line::read_disk_line;
use std::alloc::{AllocError, Global};

/// A parsed line of a script.
#[derive(Debug, Drop, PartialEq, Eq)]
pub enum ScriptLine<'a> {
    /// `open C`: opens connection C.
    Open(u16),
    /// `line C TEXT`: the text and LF arrive on C.
    Line(u16, &'a [u8]),
    /// `bytes C HEX`: the bytes that the digits write arrive on C.
    Bytes(u16, Vec<u8>),
    /// `hangup C`: hangs up C.
    Hangup(u16),
    /// `moment T`: sets the moment to T, in seconds.
    Moment(u32),
    /// `flush`: takes a turn of an open checkpoint.
    Flush,
    /// `fail K`, `fail K done`: the K-th call of the disk from now on fails, without or with its effect.
    Fail(u64, bool),
    /// `reopen`: opens another server from the disk as it reads.
    Reopen,
    /// `crash I`: leaves the disk as its I-th image, and opens another server from it.
    Crash(usize),
    /// `show`: prints the main text.
    Show,
}

/// Parses a line without its LF. Returns `None` if it has no form of a script. Fails only if memory runs out.
pub fn read_script_line<'a>(
    alloc: Global,
    line: &'a [u8],
) -> Result<Option<ScriptLine<'a>>, AllocError>
    ensures { IfOk result (λ read. MatchOption read ((s : Step) → ¬ Asks line.now s) (λ asked. Asks line.now (step asked))) }
{
    if let Some(found) = read_connection_line(alloc, line)? {
        return Ok(Some(found));
    }
    Ok(read_disk_line(line))
}
