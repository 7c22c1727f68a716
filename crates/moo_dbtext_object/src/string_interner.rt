//! A cache of the strings of a text: strings with equal bytes share them.
ghost use Rattle.moo_dbtext_object.specs.Lines.{Gives, limited, text_of};

use crate::fault::Refusal;
use crate::line::text;
use moo_value::MooStr;
use std::alloc::{AllocError, Global};

const ROWS: usize = 512;

/// Marks a row without a string.
const NONE: u16 = u16::MAX;

/// Holds strings that were read before, the latest one of each row.
#[derive(Drop)]
pub struct StringInterner {
    strings: Vec<MooStr>,
    /// For each row the index of its string, or `NONE`. Empty until the first string comes.
    rows: Vec<u16>,
}

impl StringInterner {
    /// Returns an empty cache.
    pub fn new(alloc: Global) -> StringInterner {
        StringInterner {
            strings: Vec::new(alloc),
            rows: Vec::new(alloc),
        }
    }

    /// Returns the line as a string, which shares its bytes with an equal one that the cache still has. Fails as
    /// `line::text` does.
    pub fn text(&mut self, alloc: Global, line: &[u8]) -> Result<MooStr, Refusal>
        ensures { Gives (λ s. s) result (text_of limited line.now) }
    {
        let row = row(line);
        if let Some(known) = self.known(row) {
            if known.as_bytes() == line {
                return Ok(known.try_clone()?);
            }
        }
        let string = text(alloc, line)?;
        self.note(alloc, row, string.try_clone()?)?;
        Ok(string)
    }

    // Returns the string in a row, if it has one.
    fn known(&self, row: usize) -> Option<&MooStr> {
        let number = self.rows.get(row)?;
        self.strings.get(usize::from(*number))
    }

    // Puts a string into a row, in place of the one that is there.
    #[inline(never)]
    fn note(&mut self, alloc: Global, row: usize, string: MooStr) -> Result<(), AllocError> {
        if self.rows.is_empty() {
            self.rows = vec![in alloc; NONE; ROWS]?;
        }
        let Some(number) = self.rows.get_mut(row) else {
            return Ok(());
        };
        if let Some(place) = self.strings.get_mut(usize::from(*number)) {
            *place = string;
            return Ok(());
        }
        if let Ok(last) = u16::try_from(self.strings.len()) {
            self.strings.push(string)?;
            *number = last;
        }
        Ok(())
    }
}

// Returns the row of a string, by its length and three of its bytes.
fn row(string: &[u8]) -> usize {
    match (string.first(), string.get(string.len() / 2), string.last()) {
        (Some(first), Some(middle), Some(last)) => {
            let letters = 5 * usize::from(*first) + 11 * usize::from(*middle);
            (string.len() % ROWS + letters + 29 * usize::from(*last)) % ROWS
        }
        _ => 0,
    }
}
