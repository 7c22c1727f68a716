//! Strings and lists that become longer within the limits. They grow in place if nothing else shares them.
ghost use Rattle.std.specs.Prelude.{◌≡◌, ℕ, List, ◌↔◌, ◌++◌, ◌∷◌, [], Some, IsTrue, IsFalse, IfOk};
ghost use Rattle.moo_value.specs.Tree.{Tree, list_of, string};
ghost use Rattle.moo_value.specs.View.{tree};
ghost use Rattle.moo_value.specs.Size.{IsWithinLimits};
ghost use Rattle.moo_value.specs.declared.value.Value.TheVariants.{Str, List as ListOf};

use moo_value::{DEPTH_LIMIT, ListLimit, MooList, MooStr, Value, ValueFault, WEIGHT_LIMIT};
use std::alloc::{AllocError, Global};

/// Appends a string to the one at a place, and returns whether it did. It doesn't if no string is there, or if the
/// longer one is past the limit; then nothing has changed. Err is out of memory; the place then holds nothing.
#[inline(always)]
pub(crate) fn try_extend(
    alloc: Global,
    place: &mut Option<Value>,
    last: &MooStr,
) -> Result<bool, AllocError>
    ensures extended { IfOk result (λ done. IsTrue done → (text : List ℕ) × (place.old ≡ Some (Str text)) × IsWithinLimits (string (text ++ last.now)) × (place.new ≡ Some (Str (text ++ last.now)))) }
    ensures kept { IfOk result (λ done. IsFalse done → place.new ≡ place.old) }
{
    match place.take() {
        Some(Value::Str(text)) => {
            if !has_room_after(&text, last) {
                *place = Some(Value::Str(text));
                return Ok(false);
            }
            *place = Some(Value::Str(extended(alloc, text, last)?));
            Ok(true)
        }
        held => {
            *place = held;
            Ok(false)
        }
    }
}

/// Appends a value to the list at a place, and returns whether it did. It doesn't if no list is there, or if the longer
/// one is past the limits; then nothing has changed. Err is out of memory; the place then holds nothing.
#[inline(always)]
pub(crate) fn try_push(
    alloc: Global,
    place: &mut Option<Value>,
    value: Value,
) -> Result<bool, AllocError>
    ensures pushed { IfOk result (λ done. IsTrue done → (elements : List Tree) × (place.old ≡ Some (ListOf elements)) × IsWithinLimits (list_of (elements ++ tree value ∷ [])) × (place.new ≡ Some (ListOf (elements ++ tree value ∷ [])))) }
    ensures kept { IfOk result (λ done. IsFalse done → place.new ≡ place.old) }
{
    match place.take() {
        Some(Value::List(list)) => {
            if !has_room_for(&list, &value) {
                *place = Some(Value::List(list));
                return Ok(false);
            }
            *place = Some(Value::List(pushed(alloc, list, value)?));
            Ok(true)
        }
        held => {
            *place = held;
            Ok(false)
        }
    }
}

/// Returns whether the list with this value before its elements, or after them, is within the limits of weight and
/// depth.
pub fn has_room_for(list: &MooList, value: &Value) -> bool
    ensures last { IsTrue result ↔ IsWithinLimits (list_of (list.now ++ tree value.now ∷ [])) }
    ensures first { IsTrue result ↔ IsWithinLimits (list_of (tree value.now ∷ list.now)) }
{
    let weight = list.weight() + value.weight();
    if weight > WEIGHT_LIMIT {
        return false;
    }
    let depth = list.depth().max(value.depth() + 1);
    depth <= DEPTH_LIMIT
}

/// Returns the list with this value after its elements. The longer list has to be within the limits. A list that
/// nothing else shares grows in place. Err is out of memory.
pub fn pushed(alloc: Global, list: MooList, value: Value) -> Result<MooList, AllocError>
    requires { IsWithinLimits (list_of (list ++ tree value ∷ [])) }
    ensures { IfOk result (λ longer. longer ≡ list ++ tree value ∷ []) }
{
    match list.pushed(alloc, value) {
        Ok(longer) => Ok(longer),
        Err(ListLimit::Memory) => Err(AllocError),
        Err(ListLimit::TooLarge) => unreachable!(),
    }
}

/// Returns the list with this value before its elements. The longer list has to be within the limits. A list that
/// nothing else shares takes the value in place. Err is out of memory.
pub fn prepended(alloc: Global, list: MooList, value: Value) -> Result<MooList, AllocError>
    requires { IsWithinLimits (list_of (tree value ∷ list)) }
    ensures { IfOk result (λ longer. longer ≡ tree value ∷ list) }
{
    match list.prepended(alloc, value) {
        Ok(longer) => Ok(longer),
        Err(ListLimit::Memory) => Err(AllocError),
        Err(ListLimit::TooLarge) => unreachable!(),
    }
}

/// Returns whether the string with another after its bytes is within the limit of weight.
pub fn has_room_after(text: &MooStr, last: &MooStr) -> bool
    ensures { IsTrue result ↔ IsWithinLimits (string (text.now ++ last.now)) }
{
    text.len() + last.len() < WEIGHT_LIMIT as usize
}

/// Returns the string with another after its bytes. The longer string has to be within the limit of weight. A string
/// that nothing else shares grows in place. Err is out of memory.
pub fn extended(alloc: Global, text: MooStr, last: &MooStr) -> Result<MooStr, AllocError>
    requires { IsWithinLimits (string (text ++ last.now)) }
    ensures { IfOk result (λ longer. longer ≡ text ++ last.now) }
{
    match text.extended(alloc, last) {
        Ok(longer) => Ok(longer),
        Err(ValueFault::Memory) => Err(AllocError),
        Err(ValueFault::TooHeavy | ValueFault::BadByte) => unreachable!(),
    }
}
