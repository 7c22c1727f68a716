//! The names of variables.
ghost use Rattle.std.specs.Prelude.{◌≡◌, ◌≢◌, ◌↔◌, length, None, IsTrue, IfSome};
ghost use Rattle.moo_value.specs.Size.{IsString};
ghost use Rattle.moo_syntax_ast.specs.Given.{given_of};
ghost use Rattle.moo_syntax_ast.specs.Spelling.{spelling, AreNumbersOf};

use crate::given::Given;
use moo_value::MooStr;
use std::cell::Cell;
use std::marker::Model;

// The most letters that one number can encode, whichever they are.
const MOST_LETTERS: usize = 7;

/// The name of a variable, as this occurrence of it is spelled, with a hint at its slot.
#[derive(Drop)]
pub struct Name {
    text: MooStr,
    /// A number that encodes the first letters of the spelling, or 0 if there are too many letters or every frame has
    /// the variable.
    number: u64,
    /// A number that encodes the letters after these, or 0.
    further: u64,
    given: Option<Given>,
    hint: Cell<u32>,
}

impl Model for Name {
    ghost use Rattle.std.specs.Prelude.{◌≡◌, ◌≢◌, ℕ, List, None};
    ghost use Rattle.moo_value.specs.Tree.{IsText};
    ghost use Rattle.moo_syntax_ast.specs.Given.{given_of};
    ghost use Rattle.moo_syntax_ast.specs.Spelling.{AreNumbersOf};

    ghost Value = { List ℕ };

    ghost view = { λ name. name.text };

    ghost invariant = { λ name. (name.given ≡ given_of name.text) × IsText name.text × (name.number ≢ 0 → (name.given ≡ None) × AreNumbersOf name.number name.further name.text) × (name.number ≡ 0 → name.further ≡ 0) };
}

impl Name {
    /// Makes the name with this spelling. Its hint is the first slot.
    pub fn new(text: MooStr) -> Name
        ensures { result ≡ text }
    {
        let given = Given::from_name(text.as_bytes());
        let (number, further) = match given {
            Some(_) => (0, 0),
            None => numbers_of(text.as_bytes()),
        };
        Name {
            text,
            number,
            further,
            given,
            hint: Cell::new(0),
        }
    }

    /// Returns the spelling.
    pub fn text(&self) -> &MooStr
        ensures { result.now ≡ self.now }
    {
        &self.text
    }

    /// Returns the bytes of the spelling.
    pub fn as_bytes(&self) -> &[u8]
        ensures value { result.now ≡ self.now }
        ensures string { IsString self.now }
    {
        self.text.as_bytes()
    }

    /// Returns the number of bytes.
    pub fn len(&self) -> usize
        ensures value { result ≡ length self.now }
        ensures string { IsString self.now }
    {
        self.text.len()
    }

    /// Is true if the other name has the same spelling, with each letter in the same case.
    #[inline(always)]
    pub fn is_spelled_as(&self, other: &Name) -> bool
        ensures { IsTrue result ↔ (self.now ≡ other.now) }
    {
        if self.is_known_as(other) {
            return true;
        }
        self.has_bytes_of(other)
    }

    /// Is true if the numbers of the two names prove that they have the same spelling, and not every frame has the
    /// variable. This compares no bytes. If it is false, the spellings may still be the same.
    #[inline(always)]
    pub fn is_known_as(&self, other: &Name) -> bool
        ensures same { IsTrue result → (self.now ≡ other.now) }
        ensures own { IsTrue result → (given_of self.now ≡ None) }
    {
        if self.number == 0 {
            return false;
        }
        self.number == other.number && self.further == other.further
    }

    /// Returns the numbers of the first seven letters and of those after them. No other name has both. Both are 0 if
    /// the name has too many letters (sixteen or more) or every frame has the variable.
    #[inline(always)]
    pub fn numbers(&self) -> (u64, u64)
        ensures known { result.0 ≢ 0 → (given_of self.now ≡ None) × AreNumbersOf result.0 result.1 self.now }
        ensures unknown { result.0 ≡ 0 → result.1 ≡ 0 }
    {
        (self.number, self.further)
    }

    // Compares the spellings byte by byte. Not inlined, so that names that have numbers do not pay for it.
    #[inline(never)]
    fn has_bytes_of(&self, other: &Name) -> bool
        ensures { IsTrue result ↔ (self.now ≡ other.now) }
    {
        self.text.as_bytes() == other.text.as_bytes()
    }

    /// Returns the variable that every frame has and that this name is, or `None` if it is none.
    pub fn given(&self) -> Option<Given>
        ensures { result ≡ given_of self.now }
    {
        self.given
    }

    /// Returns the slot that was noted last. It may be that of another name, or of none.
    pub fn hint(&self) -> usize {
        self.hint.get() as usize
    }

    /// Notes the slot of the name, for the next search.
    pub fn note(&self, slot: usize) {
        if let Ok(slot) = u32::try_from(slot) {
            self.hint.set(slot);
        }
    }
}

// Returns the numbers of the first letters of a spelling and of those after them, or 0 for both if there are too many.
fn numbers_of(text: &[u8]) -> (u64, u64)
    ensures known { result.0 ≢ 0 → AreNumbersOf result.0 result.1 text.now }
    ensures unknown { result.0 ≡ 0 → result.1 ≡ 0 }
{
    let (first, others) = text.split_at(text.len().min(MOST_LETTERS));
    match (small_number_of(first), small_number_of(others)) {
        (Some(number), Some(further)) if number != 0 => (number, further),
        _ => (0, 0),
    }
}

// Returns the number of a spelling, or `None` if it is too large: a number in base 257, with the first byte as the
// lowest digit.
fn small_number_of(text: &[u8]) -> Option<u64>
    ensures { IfSome result (λ number. number ≡ spelling text.now) }
{
    let mut number: u64 = 0;
    let mut rest = text;
    while let Some((last, before)) = rest.split_last() {
        number = number.checked_mul(257)?.checked_add(1 + u64::from(*last))?;
        rest = before;
    }
    Some(number)
}
