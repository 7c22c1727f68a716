//! Lines that are events of one connection.
ghost use Rattle.std.specs.Prelude.{◌≡◌, ℕ, List, ◌++◌, IfOk, MatchOption};
ghost use Rattle.moo_cli_script.specs.ScriptLines.{Step, Asks, IsAddressed, IsNumber, most_connection, step};
ghost use Rattle.moo_cli_script.specs.Kinds.{IsOfConnection};

use crate::address::addressed;
use crate::hex::bytes_of_hex;
use crate::number::{following, number_after};
use crate::script_line::ScriptLine;
use std::alloc::{AllocError, Global};

/// Parses a line that is an event of one connection. Returns `None` if it is none. Fails only if memory runs out.
pub fn read_connection_line<'a>(
    alloc: Global,
    line: &'a [u8],
) -> Result<Option<ScriptLine<'a>>, AllocError>
    ensures { IfOk result (λ read. MatchOption read ((s : Step) → IsOfConnection s → ¬ Asks line.now s) (λ asked. Asks line.now (step asked))) }
{
    if let Some(c) = connection_after(line, b"open ") {
        return Ok(Some(ScriptLine::Open(c)));
    }
    if let Some(c) = connection_after(line, b"hangup ") {
        return Ok(Some(ScriptLine::Hangup(c)));
    }
    if let Some((c, text)) = addressed_after(line, b"line ") {
        return Ok(Some(ScriptLine::Line(c, text)));
    }
    let Some((c, digits)) = addressed_after(line, b"bytes ") else {
        return Ok(None);
    };
    match bytes_of_hex(alloc, digits)? {
        Some(bytes) => Ok(Some(ScriptLine::Bytes(c, bytes))),
        None => Ok(None),
    }
}

// Returns the connection whose number follows a word.
fn connection_after(line: &[u8], word: &[u8]) -> Option<u16>
    ensures { MatchOption result ((rest : List ℕ) (n : ℕ) → line.now ≡ word.now ++ rest → ¬ IsNumber most_connection rest n) (λ n. (rest : List ℕ) × (line.now ≡ word.now ++ rest) × IsNumber most_connection rest n) }
{
    match number_after(line, word, u16::MAX as u64) {
        Some(connection) => Some(connection as u16),
        None => None,
    }
}

// Returns the connection and the text that follow a word.
fn addressed_after<'a>(line: &'a [u8], word: &[u8]) -> Option<(u16, &'a [u8])>
    ensures { MatchOption result ((rest : List ℕ) (c : ℕ) (text : List ℕ) → line.now ≡ word.now ++ rest → ¬ IsAddressed rest c text) (λ found. (rest : List ℕ) × (line.now ≡ word.now ++ rest) × IsAddressed rest found.0 found.1.now) }
{
    let Some(argument) = following(line, word) else {
        return None;
    };
    addressed(argument)
}
