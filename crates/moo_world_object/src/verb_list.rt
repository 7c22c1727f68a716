//! The verbs of an object, in order, with a filter by the first letter of names.
ghost use Rattle.std.specs.Prelude.{◌≡◌, ◌≢◌, ◌<◌, ℕ, false, get_or, IsTrue, true, OnOk, OnErr, IfOk, [], ◌⊎◌, ◌∷◌, ◌++◌, length, position, slice_index_or};
ghost use Rattle.std.specs.List.{remove};
ghost use Rattle.moo_world_object.specs.Patterns.{fits_names};
ghost use Rattle.moo_world_object.specs.Verbs.{fits_verb, changed_at, with_verb_info, with_args, with_program};
ghost use Rattle.moo_world_object.specs.declared.verb.Verb.{Verb};
ghost use Rattle.moo_syntax_ast.specs.NameHash.{first_letter};
ghost use Rattle.moo_world_object.specs.Letters.{IsLetter, AreLetters, IsNumberOf, AreNumbers};
ghost use Rattle.moo_world_object.specs.Index.{AreIndexed};

use crate::filter_letter::{letter_of, may_begin};
use crate::name::same_hashed_name;
use crate::pattern::has_mark;
use crate::verb::{Need, Verb, VerbPerms, change_args, change_info, change_program};
use crate::verb_args::VerbArgs;
use crate::verb_index::VerbIndex;
use moo_syntax_ast::{NameKey, first_letter, name_number};
use moo_syntax_program::Program;
use moo_value::MooStr;
use std::alloc::{AllocError, Global};
use std::marker::Model;

/// The verbs of an object, in order. For each of the first ones, `letters` holds the lower-case letter with which every
/// name begins that matches it, or 0 if there is no such letter.
#[derive(Drop)]
pub struct VerbList {
    verbs: Vec<Verb>,
    letters: Vec<u8>,
    /// For each of the first ones, the number of its only name, if that has no star, or 0.
    numbers: Vec<u64>,
    index: VerbIndex,
}

impl Model for VerbList {
    ghost use Rattle.std.specs.Prelude.{List};
    ghost use Rattle.std.specs.Coded.{codes};
    ghost use Rattle.moo_syntax_ast.specs.Code.{block_code};
    ghost use Rattle.moo_world_object.specs.declared.verb.Verb.{Verb};
    ghost use Rattle.moo_world_object.specs.Letters.{AreLetters, AreNumbers};
    ghost use Rattle.moo_world_object.specs.Index.{AreIndexed};

    ghost Value = { List Verb };

    ghost coded = { Prim.hlevel (codes, block_code (Prim.hlevel codes)) };

    ghost view = { λ l. l.verbs.items };

    ghost invariant = { λ l. AreLetters l.letters.items l.verbs.items × AreNumbers l.numbers.items l.verbs.items × AreIndexed l.index l.verbs.items };
}

impl VerbList {
    /// Makes a list without verbs.
    pub fn new(alloc: Global) -> Self
        ensures { result ≡ [] }
    {
        VerbList {
            verbs: Vec::new(alloc),
            letters: Vec::new(alloc),
            numbers: Vec::new(alloc),
            index: VerbIndex::new(alloc),
        }
    }

    /// Makes the list of these verbs.
    pub fn from_verbs(verbs: Vec<Verb>) -> Self
        ensures { result ≡ verbs.items }
    {
        let letters = letters_of(*verbs.allocator(), &verbs);
        let index = VerbIndex::from_verbs(*verbs.allocator(), &verbs);
        let numbers = numbers_of(*verbs.allocator(), &verbs);
        VerbList {
            verbs,
            letters,
            numbers,
            index,
        }
    }

    /// Returns the verbs.
    pub fn as_slice(&self) -> &[Verb]
        ensures { result.now ≡ self.now }
    {
        &self.verbs
    }

    /// Returns the place of the first verb that a name matches. For a call only executable verbs count.
    pub fn position(&self, need: Need, name: &[u8]) -> Option<usize>
        ensures { result ≡ position (fits_verb need name.now) self.now }
    {
        self.position_named(need, &NameKey::new(name))
    }

    /// Returns the place of the first verb that a name matches. For a call only executable verbs count. Inlined, so that
    /// a list without such a verb most often needs no call.
    #[inline(always)]
    pub fn position_named(&self, need: Need, name: &NameKey<'_>) -> Option<usize>
        ensures { result ≡ position (fits_verb need name.now) self.now }
    {
        if !self.index.passes(name.first_letter(), name.hash()) {
            return None;
        }
        self.position_passed(need, name)
    }

    // Returns the place of the first verb that a name matches, which most often is the first one in its buckets.
    #[inline(never)]
    fn position_passed(&self, need: Need, name: &NameKey<'_>) -> Option<usize>
        ensures { result ≡ position (fits_verb need name.now) self.now }
    {
        let (first, last) = self.index.range(name.hash(), self.verbs.len());
        if first > last {
            return None;
        }
        if self.is_known_at(first, need, name) {
            return Some(first);
        }
        self.position_between(first, last, need, name)
    }

    // Is true if there is a verb at a place and its number alone proves that the name matches it.
    #[inline(always)]
    fn is_known_at(&self, index: usize, need: Need, name: &NameKey<'_>) -> bool
        ensures { IsTrue result → (index < length self.now) × ((v : Verb) → v ≡ slice_index_or self.now index v → fits_verb need name.now v ≡ true) }
    {
        match self.numbers.get(index) {
            Some(number) if *number != 0 && *number == name.number() => {
                self.verbs[index].is_needed(need)
            }
            _ => false,
        }
    }

    // Returns the place of the first verb that a name matches, which matches none outside these places.
    #[inline(never)]
    fn position_between(
        &self,
        first: usize,
        last: usize,
        need: Need,
        name: &NameKey<'_>,
    ) -> Option<usize>
        requires before { (k : ℕ) (v : Verb) → k < length self.now → k < first → fits_verb need name.now (get_or self.now k v) ≡ false }
        requires after { (k : ℕ) (v : Verb) → k < length self.now → last < k → fits_verb need name.now (get_or self.now k v) ≡ false }
        ensures { result ≡ position (fits_verb need name.now) self.now }
    {
        for i in first..self.verbs.len() {
            if i > last {
                return None;
            }
            if self.fits(i, need, name) {
                return Some(i);
            }
        }
        None
    }

    // Returns whether a name matches the verb at a place. Compares numbers alone if both are known.
    #[inline(always)]
    fn fits(&self, index: usize, need: Need, name: &NameKey<'_>) -> bool
        requires { index < length self.now }
        ensures { (v : Verb) → v ≡ slice_index_or self.now index v → result ≡ fits_verb need name.now v }
    {
        let verb = &self.verbs[index];
        let number = self.number(index);
        if number == 0 {
            return fits_by_letter(verb, self.letter(index), need, name.bytes());
        }
        verb.is_needed(need) && has_name(verb, number, name)
    }

    // Returns the number of the verb at a place, or 0 if none is known.
    #[inline(always)]
    fn number(&self, index: usize) -> u64
        ensures { (v : Verb) → v ≡ slice_index_or self.now index v → IsNumberOf result v.names }
    {
        match self.numbers.get(index) {
            Some(number) => *number,
            None => 0,
        }
    }

    // Returns the filter letter of the verb at a place, or 0 if there is none.
    #[inline]
    fn letter(&self, index: usize) -> u8
        ensures { (v : Verb) → v ≡ slice_index_or self.now index v → IsLetter result v.names }
    {
        match self.letters.get(index) {
            Some(letter) => *letter,
            None => 0,
        }
    }

    /// Appends a verb. Out of memory nothing changes.
    pub fn push(&mut self, verb: Verb) -> Result<(), AllocError>
        ensures ok { OnOk result (self.new ≡ self.old ++ verb ∷ []) }
        ensures err { OnErr result (self.new ≡ self.old) }
    {
        let letter = letter_of(verb.names.as_bytes());
        let number = number_of(verb.names.as_bytes());
        let many = self.verbs.len();
        self.verbs.push(verb)?;
        push_letter(&mut self.letters, many, letter);
        push_number(&mut self.numbers, many, number);
        self.index.add_last(*self.verbs.allocator(), &self.verbs);
        Ok(())
    }

    /// Removes the verb at a place.
    pub fn remove(&mut self, index: usize)
        requires { index < length self.old }
        ensures { self.new ≡ remove self.old index }
    {
        remove_letter(&mut self.letters, index);
        remove_number(&mut self.numbers, index);
        let _verb = self.verbs.remove(index);
        self.index = VerbIndex::from_verbs(*self.verbs.allocator(), &self.verbs);
    }

    /// Sets the names, the owner and the permissions of the verb at a place.
    pub fn set_info(&mut self, index: usize, names: MooStr, owner: i32, perms: VerbPerms)
        requires { index < length self.old }
        ensures { self.new ≡ changed_at index (with_verb_info names owner perms) self.old }
    {
        let letter = letter_of(names.as_bytes());
        set_letter(&mut self.letters, index, letter);
        set_number(&mut self.numbers, index, number_of(names.as_bytes()));
        change_info(&mut self.verbs, index, names, owner, perms);
        self.index = VerbIndex::from_verbs(*self.verbs.allocator(), &self.verbs);
    }

    /// Sets the argument specifiers of the verb at a place.
    pub fn set_args(&mut self, index: usize, args: VerbArgs)
        requires { index < length self.old }
        ensures { self.new ≡ changed_at index (with_args args) self.old }
    {
        change_args(&mut self.verbs, index, args);
    }

    /// Sets the program of the verb at a place, or removes it.
    pub fn set_program(&mut self, index: usize, program: Option<Program>)
        requires { index < length self.old }
        ensures { self.new ≡ changed_at index (with_program program) self.old }
    {
        change_program(&mut self.verbs, index, program);
    }
}

// Returns whether a name matches a verb with this filter letter, which it compares first.
#[tactic(auto, using(crate::proofs::Letters::letter_first))]
#[inline(always)]
fn fits_by_letter(verb: &Verb, letter: u8, need: Need, name: &[u8]) -> bool
    requires { IsLetter letter verb.now.names }
    ensures { result ≡ fits_verb need name.now verb.now }
{
    may_begin(letter, first_letter(name)) && verb.fits(need, name)
}

// Returns whether a name is the only name of a verb, which has this number. Compares numbers alone if both are known.
#[inline(always)]
fn has_name(verb: &Verb, number: u64, name: &NameKey<'_>) -> bool
    requires known { number ≢ 0 }
    requires number { IsNumberOf number verb.now.names }
    ensures { result ≡ fits_names verb.now.names name.now }
{
    let sought = name.number();
    if sought != 0 {
        return number == sought;
    }
    same_hashed_name(verb.names.as_bytes(), name.bytes())
}

// Returns the numbers of the verbs. Out of memory there are none.
fn numbers_of(alloc: Global, verbs: &[Verb]) -> Vec<u64>
    ensures { AreNumbers result.items verbs.now }
{
    match all_numbers(alloc, verbs) {
        Ok(numbers) => numbers,
        Err(_) => Vec::new(alloc),
    }
}

fn all_numbers(alloc: Global, verbs: &[Verb]) -> Result<Vec<u64>, AllocError>
    ensures { IfOk result (λ numbers. AreNumbers numbers.items verbs.now) }
{
    let mut numbers = Vec::with_capacity(alloc, verbs.len())?;
    for i in 0..verbs.len() {
        numbers.push(number_of(verbs[i].names.as_bytes()))?;
    }
    Ok(numbers)
}

// Returns the number of the only name among a verb's names, if it has no star, or 0.
fn number_of(names: &[u8]) -> u64
    ensures { IsNumberOf result names.now }
{
    if has_mark(names) {
        0
    } else {
        name_number(names)
    }
}

// Appends a number if there are `many` and there is memory for it.
fn push_number(numbers: &mut Vec<u64>, many: usize, number: u64)
    ensures { ((length numbers.old.items ≡ many) × (numbers.new.items ≡ numbers.old.items ++ number ∷ [])) ⊎ (numbers.new.items ≡ numbers.old.items) }
{
    if numbers.len() == many {
        let _pushed = numbers.push(number);
    }
}

fn remove_number(numbers: &mut Vec<u64>, index: usize)
    ensures { numbers.new.items ≡ remove numbers.old.items index }
{
    if index < numbers.len() {
        let _number = numbers.remove(index);
    }
}

fn set_number(numbers: &mut Vec<u64>, index: usize, number: u64)
    ensures { numbers.new.items ≡ changed_at index (λ _. number) numbers.old.items }
{
    if index < numbers.len() {
        numbers[index] = number;
    }
}

// Returns the filter letters of the verbs. Out of memory there are none.
fn letters_of(alloc: Global, verbs: &[Verb]) -> Vec<u8>
    ensures { AreLetters result.items verbs.now }
{
    match all_letters(alloc, verbs) {
        Ok(letters) => letters,
        Err(_) => Vec::new(alloc),
    }
}

fn all_letters(alloc: Global, verbs: &[Verb]) -> Result<Vec<u8>, AllocError>
    ensures { IfOk result (λ letters. AreLetters letters.items verbs.now) }
{
    let mut letters = Vec::with_capacity(alloc, verbs.len())?;
    for i in 0..verbs.len() {
        letters.push(letter_of(verbs[i].names.as_bytes()))?;
    }
    Ok(letters)
}

// Appends a letter if there are `many` and there is memory for it.
fn push_letter(letters: &mut Vec<u8>, many: usize, letter: u8)
    ensures { ((length letters.old.items ≡ many) × (letters.new.items ≡ letters.old.items ++ letter ∷ [])) ⊎ (letters.new.items ≡ letters.old.items) }
{
    if letters.len() == many {
        let _pushed = letters.push(letter);
    }
}

fn remove_letter(letters: &mut Vec<u8>, index: usize)
    ensures { letters.new.items ≡ remove letters.old.items index }
{
    if index < letters.len() {
        let _letter = letters.remove(index);
    }
}

fn set_letter(letters: &mut Vec<u8>, index: usize, letter: u8)
    ensures { letters.new.items ≡ changed_at index (λ _. letter) letters.old.items }
{
    if index < letters.len() {
        letters[index] = letter;
    }
}
