//! Names by which verbs are sought.
ghost use Rattle.std.specs.Prelude.{◌≡◌, ◌≢◌};
ghost use Rattle.moo_value.specs.Compare.{folded};
ghost use Rattle.moo_syntax_ast.specs.NameNumber.{name_number, IsCode};
ghost use Rattle.moo_syntax_ast.specs.NameHash.{first_letter, hash_of};

use crate::name_hash::{first_letter, hash_of};
use std::marker::Model;

/// A name that is sought, with its first letter and its hash, and with its number, if that is known to be a code.
#[derive(Drop)]
pub struct NameKey<'a> {
    bytes: &'a [u8],
    hash: usize,
    /// The name's number if it is a code, or 0.
    number: u64,
    first: u8,
}

impl<'a> Model for NameKey<'a> {
    ghost use Rattle.std.specs.Prelude.{◌≡◌, ◌≢◌, ℕ, List};
    ghost use Rattle.moo_value.specs.Compare.{folded};
    ghost use Rattle.moo_syntax_ast.specs.NameNumber.{name_number, IsCode};
    ghost use Rattle.moo_syntax_ast.specs.NameHash.{first_letter, hash_of};

    ghost Value = { List ℕ };

    ghost view = { λ key. key.bytes.now };

    ghost invariant = { λ key. (key.hash ≡ hash_of key.bytes.now) × (key.number ≢ 0 → (key.number ≡ name_number (folded key.bytes.now)) × IsCode key.number) × (key.first ≡ first_letter key.bytes.now) };
}

impl<'a> NameKey<'a> {
    /// Returns the key of a name, of which no number is known.
    pub fn new(bytes: &'a [u8]) -> NameKey<'a>
        ensures { result ≡ bytes.now }
    {
        NameKey {
            bytes,
            hash: hash_of(bytes),
            number: 0,
            first: first_letter(bytes),
        }
    }

    /// Returns the key of these parts.
    #[inline(always)]
    pub(crate) fn from_parts(bytes: &'a [u8], hash: usize, number: u64) -> NameKey<'a>
        requires hash { hash ≡ hash_of bytes.now }
        requires number { number ≢ 0 → (number ≡ name_number (folded bytes.now)) × IsCode number }
        ensures { result ≡ bytes.now }
    {
        NameKey {
            bytes,
            hash,
            number,
            first: first_letter(bytes),
        }
    }

    /// Returns the bytes.
    #[inline(always)]
    pub fn bytes(&self) -> &'a [u8]
        ensures { result.now ≡ self.now }
    {
        self.bytes
    }

    /// Returns the first letter in lower case, or 0 if the name is empty.
    #[inline(always)]
    pub fn first_letter(&self) -> u8
        ensures { result ≡ first_letter self.now }
    {
        self.first
    }

    /// Returns the hash.
    #[inline(always)]
    pub fn hash(&self) -> usize
        ensures { result ≡ hash_of self.now }
    {
        self.hash
    }

    /// Returns the name's number if it is known and a code, and else 0.
    #[inline(always)]
    pub fn number(&self) -> u64
        ensures { result ≢ 0 → (result ≡ name_number (folded self.now)) × IsCode result }
    {
        self.number
    }
}
