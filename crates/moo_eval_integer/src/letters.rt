//! Strings of one letter, which are shared.
ghost use Rattle.std.specs.Prelude.{◌≡◌, ◌∷◌, [], IfSome, IfNone};

use moo_value::MooStr;
use std::alloc::Global;

/// Holds strings of one byte, each at the place of its byte, so that a letter of a string needs no memory of its own.
#[derive(Drop)]
pub struct Letters {
    alloc: Global,
    held: Vec<Option<MooStr>>,
}

/// Is the first byte that has a place: a blank.
const FIRST: u8 = 32;

impl Letters {
    /// Returns an empty set of strings.
    pub fn new(alloc: Global) -> Letters {
        Letters {
            alloc,
            held: Vec::new(alloc),
        }
    }

    /// Returns the string of one byte. `None` if memory is missing, or for a byte that no string has.
    #[inline(always)]
    pub(crate) fn letter(&mut self, byte: u8) -> Option<MooStr>
        ensures letter { IfSome result (λ s. s ≡ byte ∷ []) }
        ensures kept { IfNone result (self.new ≡ self.old) }
    {
        match self.held(byte) {
            Some(letter) => Some(letter),
            None => self.made(byte),
        }
    }

    // Returns the string of one byte, if it is held.
    #[inline(always)]
    fn held(&self, byte: u8) -> Option<MooStr>
        ensures { IfSome result (λ s. s ≡ byte ∷ []) }
    {
        let place = place_of(byte)?;
        if place >= self.held.len() {
            return None;
        }
        match &self.held[place] {
            Some(letter) => copied_if_alike(letter, byte),
            None => None,
        }
    }

    // Makes the string of one byte, and holds it. Not inlined, since this happens once for each letter.
    #[cold]
    #[inline(never)]
    fn made(&mut self, byte: u8) -> Option<MooStr>
        ensures letter { IfSome result (λ s. s ≡ byte ∷ []) }
        ensures kept { IfNone result (self.new ≡ self.old) }
    {
        let letter = string_of(self.alloc, byte)?;
        if let Some(place) = place_of(byte) {
            hold(&mut self.held, place, &letter);
        }
        Some(letter)
    }
}

// Returns the place of a byte, if it has one.
#[inline(always)]
fn place_of(byte: u8) -> Option<usize> {
    if byte < FIRST {
        return None;
    }
    Some((byte - FIRST) as usize)
}

// Returns the letter, if it is the string of this byte.
#[inline(always)]
fn copied_if_alike(letter: &MooStr, byte: u8) -> Option<MooStr>
    ensures { IfSome result (λ s. s ≡ byte ∷ []) }
{
    match letter.as_bytes() {
        [own] if *own == byte => match letter.try_clone() {
            Ok(copy) => Some(copy),
            Err(_) => None,
        },
        _ => None,
    }
}

// Returns a new string of one byte.
fn string_of(alloc: Global, byte: u8) -> Option<MooStr>
    ensures { IfSome result (λ s. s ≡ byte ∷ []) }
{
    match MooStr::try_from_bytes(alloc, &[byte]) {
        Ok(letter) => Some(letter),
        Err(_) => None,
    }
}

// Holds a letter at its place, if there is memory for it.
fn hold(held: &mut Vec<Option<MooStr>>, place: usize, letter: &MooStr) {
    let Ok(copy) = letter.try_clone() else {
        return;
    };
    for _ in held.len()..=place {
        if held.push(None).is_err() {
            return;
        }
    }
    if place < held.len() {
        held[place] = Some(copy);
    }
}
