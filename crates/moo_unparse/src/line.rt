//! A line of a listing while it is written.
ghost use Rattle.std.specs.Prelude.{◌≡◌, ◌<◌, ◌∷◌, ◌++◌, [], codes, IfOk, IfErr, OnOk};
ghost use Rattle.std.specs.Fmt.{signed_decimal};
ghost use Rattle.moo_value.specs.Tree.{IsTextByte, IsText};
ghost use Rattle.moo_value.specs.Text.{quoted};
ghost use Rattle.moo_syntax_token.specs.Spelling.{sign_text};
ghost use Rattle.moo_syntax_token.specs.Words.{keyword_text};
ghost use Rattle.moo_syntax_ast.specs.Limits.{FitsLine};
ghost use Rattle.moo_unparse.specs.Refused.{IsRefusedLine};

use crate::fault::ListFault;
use itoa::Buffer;
use moo_syntax_token::{Keyword, Sign};
use moo_value::{MooStr, ValueFault, write_quoted};
use std::alloc::{AllocError, Global};
use std::marker::Model;

/// The initial capacity of a line after its margin, in bytes.
const ROOM: usize = 120;

/// The bytes of a line so far, all of which a string may hold.
#[derive(Drop)]
pub(crate) struct Line {
    bytes: Vec<u8>,
}

impl Model for Line {
    ghost use Rattle.std.specs.Prelude.{ℕ, List};
    ghost use Rattle.moo_value.specs.Tree.{IsText};

    ghost Value = { List ℕ };

    ghost view = { λ line. line.bytes.items };

    ghost invariant = { λ line. IsText line.bytes.items };
}

impl Line {
    pub(crate) fn new(alloc: Global) -> Line
        ensures { result ≡ codes "" }
    {
        Line {
            bytes: Vec::new(alloc),
        }
    }

    pub(crate) fn try_clone(&self, alloc: Global) -> Result<Line, AllocError>
        ensures { IfOk result (λ line. line ≡ self.now) }
    {
        let bytes = Vec::from_slice(alloc, &self.bytes)?;
        Ok(Line { bytes })
    }

    /// Returns a line that begins with the bytes of this one, with capacity for most lines.
    pub(crate) fn begin(&self, alloc: Global) -> Result<Line, AllocError>
        ensures { IfOk result (λ line. line ≡ self.now) }
    {
        let mut bytes = Vec::with_capacity(alloc, self.bytes.len().saturating_add(ROOM))?;
        bytes.extend_from_slice(&self.bytes)?;
        Ok(Line { bytes })
    }

    pub(crate) fn text(&mut self, text: &[u8]) -> Result<(), AllocError>
        requires { IsText text.now }
        ensures { OnOk result (self.new ≡ self.old ++ text.now) }
    {
        self.bytes.extend_from_slice(text)
    }

    pub(crate) fn sign(&mut self, sign: Sign) -> Result<(), AllocError>
        ensures { OnOk result (self.new ≡ self.old ++ sign_text sign) }
    {
        self.text(sign.text().as_bytes())
    }

    pub(crate) fn keyword(&mut self, keyword: Keyword) -> Result<(), AllocError>
        ensures { OnOk result (self.new ≡ self.old ++ keyword_text keyword) }
    {
        self.text(keyword.text().as_bytes())
    }

    /// Writes `ANY`, which catches every error.
    pub(crate) fn any(&mut self) -> Result<(), AllocError>
        ensures { OnOk result (self.new ≡ self.old ++ codes "ANY") }
    {
        self.text(b"ANY")
    }

    pub(crate) fn blank(&mut self) -> Result<(), AllocError>
        ensures { OnOk result (self.new ≡ self.old ++ codes " ") }
    {
        self.byte(b' ')
    }

    /// Writes a sign with a blank on each side.
    pub(crate) fn spaced_sign(&mut self, sign: Sign) -> Result<(), AllocError>
        ensures { OnOk result (self.new ≡ self.old ++ codes " " ++ sign_text sign ++ codes " ") }
    {
        self.blank()?;
        self.sign(sign)?;
        self.blank()
    }

    pub(crate) fn number(&mut self, number: i32) -> Result<(), AllocError>
        ensures { OnOk result (self.new ≡ self.old ++ signed_decimal number) }
    {
        let mut buffer = Buffer::new();
        self.text(buffer.format(number).as_bytes())
    }

    /// Writes `#` and an object's number.
    pub(crate) fn object(&mut self, number: i32) -> Result<(), AllocError>
        ensures { OnOk result (self.new ≡ self.old ++ codes "#" ++ signed_decimal number) }
    {
        self.byte(b'#')?;
        self.number(number)
    }

    /// Writes a string between double quotes, with a backslash before each double quote and backslash in it.
    pub(crate) fn quoted(&mut self, string: &[u8]) -> Result<(), AllocError>
        requires { IsText string.now }
        ensures { OnOk result (self.new ≡ self.old ++ quoted string.now) }
    {
        write_quoted(string, &mut self.bytes)
    }

    fn byte(&mut self, byte: u8) -> Result<(), AllocError>
        requires { IsTextByte byte }
        ensures { OnOk result (self.new ≡ self.old ++ byte ∷ codes "") }
    {
        self.bytes.push(byte)?;
        Ok(())
    }

    /// Appends the line and a line feed to `out`.
    pub(crate) fn put(&self, out: &mut Vec<u8>) -> Result<(), AllocError>
        ensures text { IsText self.now }
        ensures line { OnOk result (out.new.items ≡ out.old.items ++ (self.now ++ 10 ∷ [])) }
    {
        out.extend_from_slice(&self.bytes)?;
        out.push(b'\n')?;
        Ok(())
    }

    /// Returns the line as a string. Refuses a line that is too long for one with `TooHeavy`.
    pub(crate) fn into_string(self, alloc: Global) -> Result<MooStr, ListFault>
        ensures ok { IfOk result (λ s. s ≡ self) }
        ensures short { OnOk result (FitsLine self) }
        ensures refused { IfErr result (λ fault. IsRefusedLine fault self) }
    {
        match MooStr::try_from_bytes(alloc, &self.bytes) {
            Ok(string) => Ok(string),
            Err(ValueFault::Memory) => Err(ListFault::Memory),
            Err(ValueFault::TooHeavy) => Err(ListFault::TooHeavy),
            Err(ValueFault::BadByte) => unreachable!(),
        }
    }
}
