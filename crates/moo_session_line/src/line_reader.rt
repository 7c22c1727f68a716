//! The lines of a connection, from the pieces in which its bytes come (docs/reference/commands.md, "Lines").
ghost use Rattle.std.specs.Prelude.{◌≡◌, ◌≤◌, ◌++◌, ℕ, List, length, take, filter, [], IsTrue, IfOk, OnOk, OnErr, All, false, ◌&&◌, ◌==◌};
ghost use Rattle.moo_session_line.specs.Lines.{lines, rest, is_kept, line_limit};
ghost use Rattle.moo_session_line.specs.Inner.{is_still_after};
ghost use Rattle.moo_session_line.specs.Reading.{Reads};
ghost use Rattle.moo_session_line.specs.Rest.{IsLine};

use memchr::memchr2;
use moo_value::MooStr;
use std::alloc::{AllocError, Global};
use std::marker::Model;

/// The number of bytes of a line that are kept.
pub const LINE_LIMIT: usize = 8192;

/// Reads the lines of one connection. Between two pieces it holds the bytes after the last line end.
#[derive(Drop)]
pub struct LineReader {
    alloc: Global,
    line: Vec<u8>,
    after_return: bool,
}

impl Model for LineReader {
    ghost use Rattle.moo_session_line.specs.Rest.{Rest, IsLine};
    ghost use Rattle.moo_session_line.specs.Reading.{HasStream};

    ghost Value = { Rest };

    ghost view = { λ reader. record { line = reader.line.items; after_return = reader.after_return } };

    ghost invariant = { λ reader. IsLine reader.line.items × HasStream (record { line = reader.line.items; after_return = reader.after_return }) };
}

impl LineReader {
    /// Returns the reader of a connection that has sent nothing.
    pub fn new(alloc: Global) -> LineReader
        ensures { result ≡ rest [] }
    {
        LineReader {
            alloc,
            line: Vec::new(alloc),
            after_return: false,
        }
    }

    /// Returns the lines that a piece of any length ends, in their order. Each is the tabs and the bytes from 32 to
    /// 126 between two line ends, at most `LINE_LIMIT` of them. If memory runs out, returns an error and leaves the
    /// reader as it was.
    pub fn feed(&mut self, piece: &[u8]) -> Result<Vec<MooStr>, AllocError>
        ensures lines { IfOk result (λ answer. (sent : List ℕ) → self.old ≡ rest sent → lines (sent ++ piece.now) ≡ lines sent ++ answer.items) }
        ensures rest { OnOk result ((sent : List ℕ) → self.old ≡ rest sent → self.new ≡ rest (sent ++ piece.now)) }
        ensures allowed { IfOk result (λ answer. All IsLine answer.items) }
        ensures reads { IfOk result (λ answer. Reads self.old piece.now answer.items self.new) }
        ensures err { OnErr result (self.new ≡ self.old) }
    {
        let mut lines = Vec::new(self.alloc);
        let mut line = Vec::from_slice(self.alloc, &self.line)?;
        let mut after_return = self.after_return;
        let mut left = piece;
        while let Some(end) = memchr2(b'\r', b'\n', left) {
            let (stretch, ended) = left.split_at(end);
            let ending = ended[0];
            let is_second = is_second_byte(after_return, stretch, ending);
            if !is_second {
                keep(&mut line, stretch)?;
                lines.push(MooStr::from_text(self.alloc, line)?)?;
                line = Vec::new(self.alloc);
            }
            after_return = ending == b'\r';
            left = &ended[1..];
        }
        keep(&mut line, left)?;
        self.after_return = is_still_after(after_return, left);
        self.line = line;
        Ok(lines)
    }
}

/// Appends to a line those of the bytes that are kept.
fn keep(line: &mut Vec<u8>, bytes: &[u8]) -> Result<(), AllocError>
    requires { length line.old.items ≤ line_limit }
    ensures { OnOk result (line.new.items ≡ take line_limit (line.old.items ++ filter is_kept bytes.now)) }
{
    for byte in bytes {
        if line.len() < LINE_LIMIT && is_kept(*byte) {
            line.push(*byte)?;
        }
    }
    Ok(())
}

fn is_kept(byte: u8) -> bool
    ensures { result ≡ is_kept byte }
{
    byte == b'\t' || (b' ' <= byte && byte <= b'~')
}

/// Returns whether a line end is the LF of a CR right before the stretch.
fn is_second_byte(after_return: bool, stretch: &[u8], ending: u8) -> bool
    ensures { result ≡ (is_still_after after_return stretch.now && ending == 10) }
{
    is_still_after(after_return, stretch) && ending == b'\n'
}

/// Returns whether a CR comes right before what follows the bytes.
fn is_still_after(after_return: bool, bytes: &[u8]) -> bool
    ensures { result ≡ is_still_after after_return bytes.now }
{
    after_return && bytes.is_empty()
}
