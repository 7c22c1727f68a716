//! Names by which verbs are called.
ghost use Rattle.std.specs.Prelude.{◌≡◌};

use moo_syntax_ast::{NameKey, Text};
use moo_value::MooStr;
use std::marker::Model;

/// Holds the name by which a verb is called, and its key.
#[derive(Drop)]
pub struct VerbName<'a> {
    text: &'a MooStr,
    key: NameKey<'a>,
}

impl<'a> Model for VerbName<'a> {
    ghost use Rattle.std.specs.Prelude.{◌≡◌, ℕ, List};

    ghost Value = { List ℕ };

    ghost view = { λ name. name.text.now };

    ghost invariant = { λ name. name.key ≡ name.text.now };
}

impl<'a> VerbName<'a> {
    /// Returns the name of this text.
    pub fn new(text: &'a MooStr) -> VerbName<'a>
        ensures { result ≡ text.now }
    {
        VerbName {
            text,
            key: NameKey::new(text.as_bytes()),
        }
    }

    /// Returns the name that a literal is.
    #[inline(always)]
    pub fn of(text: &'a Text) -> VerbName<'a>
        ensures { result ≡ text.now }
    {
        VerbName {
            text: text.string(),
            key: text.key(),
        }
    }

    /// Returns the text.
    #[inline(always)]
    pub fn text(&self) -> &'a MooStr
        ensures { result.now ≡ self.now }
    {
        self.text
    }

    /// Returns the key.
    #[inline(always)]
    pub fn key(&self) -> &NameKey<'a>
        ensures { result.now ≡ self.now }
    {
        &self.key
    }
}
