//! The slots of the variables of a program.
ghost use Rattle.std.specs.Prelude.{◌≡◌, ℕ, ℤ, ◌+ℤ◌, List, [], ◌+◌, ◌<◌, ◌≤◌, ◌++◌, ◌∷◌, Some, None, map, set, position, length, get_or, option_map, vec_len, vec_capacity, IsTrue, IsFalse, IfOk, IfSome};
ghost use Rattle.std.specs.Int.{int_wrap, w32};
ghost use Rattle.std.specs.Str.{bytes_eq};
ghost use Rattle.moo_value.specs.Tree.{Tree, integer, list_of, string};
ghost use Rattle.moo_value.specs.Size.{IsWithinLimits};
ghost use Rattle.moo_value.specs.View.{tree};
ghost use Rattle.moo_value.specs.Compare.{folded};
ghost use Rattle.moo_value.specs.declared.value.Value.TheVariants.{Int, Str, List as ListOf};
ghost use Rattle.moo_syntax_ast.specs.Given.{given_of};
ghost use Rattle.moo_syntax_ast.specs.Slots.{slots};
ghost use Rattle.moo_eval_slot.specs.Bindings.{value_of_name};
ghost use Rattle.moo_eval_slot.specs.Held.{with_held, IsSlot, slot_value};
ghost use Rattle.moo_eval_slot.specs.InnerPut.{IsInnerPut};

use crate::growing::{try_extend, try_push};
use crate::inner_list::put_inner_at;
use moo_syntax_ast::Name;
use moo_syntax_program::Program;
use moo_value::{MooStr, Value};
use std::alloc::{AllocError, Global};
use std::marker::Model;

/// Holds a slot for each name of a program, with a value if one is set.
#[derive(Drop)]
pub struct Slots {
    program: Program,
    values: Vec<Option<Value>>,
}

impl Model for Slots {
    ghost use Rattle.std.specs.Prelude.{◌≡◌, length};
    ghost use Rattle.moo_syntax_ast.specs.Slots.{slots as names_of};
    ghost use Rattle.moo_eval_slot.specs.Held.{Held, held_code};

    ghost Value = { Held };

    ghost coded = { held_code };

    ghost view = { λ s. record { names = names_of s.program; values = s.values.items } };

    ghost invariant = { λ s. length s.values.items ≡ length (names_of s.program) };
}

impl Slots {
    /// Returns the slots of the names of a program, none set. They take this memory, whose values are dropped. Err is
    /// out of memory.
    #[inline(always)]
    pub fn unset(program: Program, memory: Vec<Option<Value>>) -> Result<Slots, AllocError>
        ensures { IfOk result (λ own. slot_value own.names own.values (value_of_name []) ≡ value_of_name []) }
    {
        let values = unset_values(memory, program.slot_names())?;
        Ok(Slots { program, values })
    }

    /// Returns the values of the slots in their order, `None` for a slot that isn't set.
    #[inline(always)]
    pub fn into_values(self) -> Vec<Option<Value>> {
        self.values
    }

    /// Returns the slot that was noted at a name, if the numbers of the program's name there prove that its spelling is
    /// equal. Returns `None` otherwise, and for a name that every frame has. The name may still have a slot.
    #[inline(always)]
    pub fn known_slot(&self, name: &Name) -> Option<usize>
        ensures there { IfSome result (λ i. position (λ own. bytes_eq (folded own) (folded name.now)) self.now.names ≡ Some i) }
        ensures within { IfSome result (λ i. IsSlot self.now i) }
        ensures own { IfSome result (λ _. given_of name.now ≡ None) }
    {
        let hint = name.hint();
        let names = self.program.slot_names();
        if hint >= names.len() {
            return None;
        }
        if names[hint].is_known_as(name) {
            Some(hint)
        } else {
            None
        }
    }

    /// Returns the slot of a name, in any case, or `None` if the program has no such name.
    #[inline(never)]
    pub fn slot_of(&self, name: &Name) -> Option<usize>
        ensures there { result ≡ position (λ own. bytes_eq (folded own) (folded name.now)) self.now.names }
        ensures within { IfSome result (λ i. IsSlot self.now i) }
    {
        own_slot(&self.program, name)
    }

    /// Returns the value in a slot, if one is set.
    #[inline(always)]
    pub fn get(&self, slot: usize) -> Option<&Value>
        requires { IsSlot self.now slot }
        ensures { option_map (λ v. tree v.now) result ≡ option_map (λ v. tree v) (get_or self.now.values slot None) }
    {
        match &self.values[slot] {
            Some(value) => Some(value),
            None => None,
        }
    }

    /// Sets a slot to a value.
    #[inline(always)]
    pub fn set(&mut self, slot: usize, value: Value)
        requires { IsSlot self.old slot }
        ensures { self.new ≡ with_held self.old slot value }
    {
        self.values[slot] = Some(value);
    }

    /// Sets a slot to an integer. A slot that holds an integer is changed in place.
    #[inline(always)]
    pub fn set_integer(&mut self, slot: usize, number: i32)
        requires { IsSlot self.old slot }
        ensures { self.new ≡ with_held self.old slot (Int number) }
    {
        put_integer(&mut self.values, slot, number);
    }

    /// Adds a number to the integer in a slot, modulo 2^32, and returns true. Returns false if the slot holds no
    /// integer; then nothing has changed.
    #[inline(always)]
    pub fn try_add_integer(&mut self, slot: usize, number: i32) -> bool
        requires { IsSlot self.old slot }
        ensures added { IsTrue result → (i : ℤ) × (get_or self.old.values slot None ≡ Some (Int i)) × (self.new ≡ with_held self.old slot (Int (int_wrap w32 (i +ℤ number)))) }
        ensures kept { IsFalse result → self.new ≡ self.old }
    {
        try_add_integer(&mut self.values, slot, number)
    }

    /// Replaces the integer at `index` of the list in a slot by another, in place, and returns whether it did. It
    /// doesn't if there is no such integer, or if something else shares the list; then nothing has changed.
    #[inline(always)]
    pub fn try_put_element(&mut self, slot: usize, index: usize, number: i32) -> bool
        requires { IsSlot self.old slot }
        ensures put { IsTrue result → (ts : List Tree) × (get_or self.old.values slot None ≡ Some (ListOf ts)) × (index < length ts) × IsWithinLimits (list_of (set ts index (integer number))) × (self.new ≡ with_held self.old slot (ListOf (set ts index (integer number)))) }
        ensures kept { IsFalse result → self.new ≡ self.old }
    {
        try_put_element(&mut self.values, slot, index, number)
    }

    /// Replaces the integer at `inner` of the list at `outer` of the list in a slot, and returns whether it did. It
    /// doesn't if there is no such integer, or if something else shares one of the lists; then no value has changed.
    /// Err is out of memory; the slot may then hold an empty list.
    #[inline(always)]
    pub fn try_put_inner(
        &mut self,
        alloc: Global,
        slot: usize,
        outer: usize,
        inner: usize,
        number: i32,
    ) -> Result<bool, AllocError>
        requires { IsSlot self.old slot }
        ensures put { IfOk result (λ done. IsTrue done → (ts : List Tree) × (new : List Tree) × (get_or self.old.values slot None ≡ Some (ListOf ts)) × IsInnerPut ts outer inner number new × (self.new ≡ with_held self.old slot (ListOf new))) }
        ensures kept { IfOk result (λ done. IsFalse done → self.new ≡ self.old) }
    {
        put_inner_at(alloc, &mut self.values, slot, outer, inner, number)
    }

    /// Appends a string to the one in a slot, and returns whether it did. It doesn't if the slot holds no string, or if
    /// the longer one is past the limit; then nothing has changed. Err is out of memory; the slot then isn't set.
    #[inline(always)]
    pub fn try_extend(
        &mut self,
        alloc: Global,
        slot: usize,
        last: &MooStr,
    ) -> Result<bool, AllocError>
        requires { IsSlot self.old slot }
        ensures extended { IfOk result (λ done. IsTrue done → (text : List ℕ) × (get_or self.old.values slot None ≡ Some (Str text)) × IsWithinLimits (string (text ++ last.now)) × (self.new ≡ with_held self.old slot (Str (text ++ last.now)))) }
        ensures kept { IfOk result (λ done. IsFalse done → self.new ≡ self.old) }
    {
        extend_value(alloc, &mut self.values, slot, last)
    }

    /// Appends a value to the list in a slot, and returns whether it did. It doesn't if the slot holds no list, or if
    /// the longer one is past the limits; then nothing has changed. Err is out of memory; the slot then isn't set.
    #[inline(always)]
    pub fn try_push(&mut self, alloc: Global, slot: usize, value: Value) -> Result<bool, AllocError>
        requires { IsSlot self.old slot }
        ensures pushed { IfOk result (λ done. IsTrue done → (elements : List Tree) × (get_or self.old.values slot None ≡ Some (ListOf elements)) × IsWithinLimits (list_of (elements ++ tree value ∷ [])) × (self.new ≡ with_held self.old slot (ListOf (elements ++ tree value ∷ [])))) }
        ensures kept { IfOk result (λ done. IsFalse done → self.new ≡ self.old) }
    {
        push_value(alloc, &mut self.values, slot, value)
    }
}

// Appends a string to the one in a slot, as `Slots::try_extend` does.
#[inline(always)]
fn extend_value(
    alloc: Global,
    values: &mut Vec<Option<Value>>,
    slot: usize,
    last: &MooStr,
) -> Result<bool, AllocError>
    requires { slot < length values.old.items }
    ensures extended { IfOk result (λ done. IsTrue done → (text : List ℕ) × (get_or values.old.items slot None ≡ Some (Str text)) × IsWithinLimits (string (text ++ last.now)) × (values.new.items ≡ set values.old.items slot (Some (Str (text ++ last.now))))) }
    ensures kept { IfOk result (λ done. IsFalse done → values.new.items ≡ values.old.items) }
    ensures as_many { length values.new.items ≡ length values.old.items }
{
    try_extend(alloc, &mut values[slot], last)
}

// Appends a value to the list in a slot, as `Slots::try_push` does.
#[inline(always)]
fn push_value(
    alloc: Global,
    values: &mut Vec<Option<Value>>,
    slot: usize,
    value: Value,
) -> Result<bool, AllocError>
    requires { slot < length values.old.items }
    ensures pushed { IfOk result (λ done. IsTrue done → (elements : List Tree) × (get_or values.old.items slot None ≡ Some (ListOf elements)) × IsWithinLimits (list_of (elements ++ tree value ∷ [])) × (values.new.items ≡ set values.old.items slot (Some (ListOf (elements ++ tree value ∷ []))))) }
    ensures kept { IfOk result (λ done. IsFalse done → values.new.items ≡ values.old.items) }
    ensures as_many { length values.new.items ≡ length values.old.items }
{
    try_push(alloc, &mut values[slot], value)
}

// Sets a slot to an integer.
#[inline(always)]
fn put_integer(values: &mut Vec<Option<Value>>, slot: usize, number: i32)
    requires { slot < length values.old.items }
    ensures { values.new.items ≡ set values.old.items slot (Some (Int number)) }
{
    set_integer(&mut values[slot], number);
}

// Adds to the integer in a slot, as `Slots::try_add_integer` does.
#[inline(always)]
fn try_add_integer(values: &mut Vec<Option<Value>>, slot: usize, number: i32) -> bool
    requires { slot < length values.old.items }
    ensures added { IsTrue result → (i : ℤ) × (get_or values.old.items slot None ≡ Some (Int i)) × (values.new.items ≡ set values.old.items slot (Some (Int (int_wrap w32 (i +ℤ number))))) }
    ensures kept { IsFalse result → values.new.items ≡ values.old.items }
{
    add_in_place(&mut values[slot], number)
}

// Adds a number to the integer at a place, and returns true. Returns false if the place holds no integer.
#[inline(always)]
fn add_in_place(place: &mut Option<Value>, number: i32) -> bool
    ensures added { IsTrue result → (i : ℤ) × (place.old ≡ Some (Int i)) × (place.new ≡ Some (Int (int_wrap w32 (i +ℤ number)))) }
    ensures kept { IsFalse result → place.new ≡ place.old }
{
    match place {
        Some(Value::Int(held)) => {
            *held = sum(*held, number);
            true
        }
        _ => false,
    }
}

#[inline(always)]
fn sum(a: i32, b: i32) -> i32
    ensures { result ≡ int_wrap w32 (a +ℤ b) }
{
    a.wrapping_add(b)
}

// Replaces an integer in the list in a slot, as `Slots::try_put_element` does.
#[inline(always)]
fn try_put_element(values: &mut Vec<Option<Value>>, slot: usize, index: usize, number: i32) -> bool
    requires { slot < length values.old.items }
    ensures put { IsTrue result → (ts : List Tree) × (get_or values.old.items slot None ≡ Some (ListOf ts)) × (index < length ts) × IsWithinLimits (list_of (set ts index (integer number))) × (values.new.items ≡ set values.old.items slot (Some (ListOf (set ts index (integer number))))) }
    ensures kept { IsFalse result → values.new.items ≡ values.old.items }
{
    put_in_place(&mut values[slot], index, number)
}

// Replaces an integer in the list at a place by another if nothing else shares the list, and returns whether it did.
#[inline(always)]
fn put_in_place(place: &mut Option<Value>, index: usize, number: i32) -> bool
    ensures put { IsTrue result → (ts : List Tree) × (place.old ≡ Some (ListOf ts)) × (index < length ts) × IsWithinLimits (list_of (set ts index (integer number))) × (place.new ≡ Some (ListOf (set ts index (integer number)))) }
    ensures kept { IsFalse result → place.new ≡ place.old }
{
    match place {
        Some(Value::List(list)) => list.put_integer(index, number),
        _ => false,
    }
}

// Sets a place to an integer.
#[inline(always)]
fn set_integer(place: &mut Option<Value>, number: i32)
    ensures { place.new ≡ Some (Int number) }
{
    if let Some(Value::Int(held)) = place {
        *held = number;
        return;
    }
    replace_by_integer(place, number);
}

// Sets a place that holds no integer to one. It is a separate function, so that the common case stays short.
#[cold]
#[inline(never)]
fn replace_by_integer(place: &mut Option<Value>, number: i32)
    ensures { place.new ≡ Some (Int number) }
{
    *place = Some(Value::Int(number));
}

// The slots for which memory is taken beyond those of a program's names, so that the next frame most often needs no
// more.
const SPARE_SLOTS: usize = 8;

// Returns a slot without a value for each of these names, in this memory, whose values are dropped.
#[inline(always)]
fn unset_values(
    memory: Vec<Option<Value>>,
    names: &[Name],
) -> Result<Vec<Option<Value>>, AllocError>
    ensures { IfOk result (λ values. values.items ≡ map (λ name. None) names.now) }
{
    let mut values = memory;
    values.clear();
    if values.capacity() < names.len() {
        values.reserve(names.len().saturating_add(SPARE_SLOTS))?;
    }
    push_unset(&mut values, names);
    Ok(values)
}

// Appends a slot without a value for each of these names.
#[inline(always)]
fn push_unset(all: &mut Vec<Option<Value>>, names: &[Name])
    requires room { vec_len all.old + length names.now ≤ vec_capacity all.old }
    ensures { all.new.items ≡ all.old.items ++ map (λ name. None) names.now }
{
    for _ in names {
        all.push_reserved(None);
    }
}

// Returns the slot of a name among those of a program. It is the noted one if the name there has the same spelling,
// and otherwise the one that a search finds.
#[inline(always)]
fn own_slot(program: &Program, name: &Name) -> Option<usize>
    ensures { result ≡ position (λ own. bytes_eq (folded own) (folded name.now)) (slots program.now) }
{
    let hint = name.hint();
    if is_spelled(program, hint, name) {
        Some(hint)
    } else {
        searched_slot(program, name)
    }
}

// Searches for the slot of a name, and notes it at the name. It is a separate function, so that the common case stays
// short.
#[cold]
#[inline(never)]
fn searched_slot(program: &Program, name: &Name) -> Option<usize>
    ensures { result ≡ position (λ own. bytes_eq (folded own) (folded name.now)) (slots program.now) }
{
    let slot = program.slot_of(name.as_bytes())?;
    name.note(slot);
    Some(slot)
}

// Returns whether the program's name in this slot has the same spelling.
#[inline(always)]
fn is_spelled(program: &Program, slot: usize, name: &Name) -> bool
    ensures { IsTrue result → (slot < length (slots program.now)) × (get_or (slots program.now) slot [] ≡ name.now) }
{
    match program.slot_names().get(slot) {
        Some(own) => own.is_spelled_as(name),
        None => false,
    }
}
