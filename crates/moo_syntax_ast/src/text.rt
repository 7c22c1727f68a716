//! String literals in a program.
ghost use Rattle.std.specs.Prelude.{◌≡◌};
ghost use Rattle.moo_value.specs.Compare.{folded};
ghost use Rattle.moo_syntax_ast.specs.NameNumber.{name_number};

use crate::name_hash::hash_of;
use crate::name_key::NameKey;
use crate::numbering::{is_code, name_number};
use moo_value::MooStr;
use std::cell::Cell;
use std::marker::Model;

/// A string literal in a program. If it is the name of a property or a verb, its number speeds up the search, and its
/// hint is where the last search found it.
#[derive(Drop)]
pub struct Text {
    string: MooStr,
    /// The number of the string as a name.
    number: u64,
    /// The hash of the string as the name of a verb.
    hash: usize,
    hint: Cell<u32>,
}

impl Model for Text {
    ghost use Rattle.std.specs.Prelude.{◌≡◌, ℕ, List};
    ghost use Rattle.moo_value.specs.Compare.{folded};
    ghost use Rattle.moo_syntax_ast.specs.NameNumber.{name_number};
    ghost use Rattle.moo_syntax_ast.specs.NameHash.{hash_of};

    ghost Value = { List ℕ };

    ghost view = { λ text. text.string };

    ghost invariant = { λ text. (text.number ≡ name_number (folded text.string)) × (text.hash ≡ hash_of text.string) };
}

impl Text {
    /// Makes the literal of this string. Its hint is 0.
    pub fn new(string: MooStr) -> Text
        ensures { result ≡ string }
    {
        let number = name_number(string.as_bytes());
        let hash = hash_of(string.as_bytes());
        Text {
            string,
            number,
            hash,
            hint: Cell::new(0),
        }
    }

    /// Returns the string.
    #[inline(always)]
    pub fn string(&self) -> &MooStr
        ensures { result.now ≡ self.now }
    {
        &self.string
    }

    /// Returns the number of the string as a name. Names with different numbers differ in more than the case of letters.
    #[inline(always)]
    pub fn number(&self) -> u64
        ensures { result ≡ name_number (folded self.now) }
    {
        self.number
    }

    /// Returns the string as a name that is sought.
    #[inline(always)]
    pub fn key(&self) -> NameKey<'_>
        ensures { result ≡ self.now }
    {
        let number = if is_code(self.number) { self.number } else { 0 };
        NameKey::from_parts(self.string.as_bytes(), self.hash, number)
    }

    /// Returns the hint that was noted last.
    #[inline(always)]
    pub fn hint(&self) -> usize {
        self.hint.get() as usize
    }

    /// Notes where an item that has this name was found.
    pub fn note(&self, hint: usize) {
        if let Ok(hint) = u32::try_from(hint) {
            self.hint.set(hint);
        }
    }
}
