//! Functions on lists. A list that nothing else holds is changed in place.
ghost use Rattle.std.specs.Prelude.{◌≡◌, ◌≤◌, ◌<◌, ◌∷◌, [], length, insert, remove, position, IfSome, IfOk};
ghost use Rattle.moo_value.specs.View.{tree, trees};
ghost use Rattle.moo_value.specs.Size.{weight_limit};
ghost use Rattle.moo_builtin_operator.specs.Truth.{same_tree, equal};
ghost use Rattle.moo_builtin_operator.specs.Comparison.{place_value};
ghost use Rattle.moo_builtin_value.specs.TextAnswers.{Gives};
ghost use Rattle.moo_builtin_value.specs.Lists.{brought_to, put_in, taken_out, list_append, list_insert, list_set, set_at, list_delete, delete_at, with_member, set_add, without_found, set_remove, is_member};

use crate::looks::is_same;
use crate::made::{RANGE, TYPE_MISMATCH, list_answer};
use moo_builtin_operator::{OperationFault, before_place, is_equal};
use moo_value::{MooList, Value};
use std::alloc::{AllocError, Global};
use std::mem;

/// Computes `listappend`: the list with a value after its last element, or after a place.
pub fn list_append(alloc: Global, args: &mut [Value]) -> Result<Value, OperationFault>
    ensures { Gives result (list_append (trees args.old)) }
{
    match args {
        [list, value] => appended(alloc, take(list), take(value)),
        [list, value, place] => appended_at(alloc, take(list), take(value), take(place)),
        _ => Err(TYPE_MISMATCH),
    }
}

fn appended(alloc: Global, list: Value, value: Value) -> Result<Value, OperationFault>
    ensures { Gives result (list_append (tree list ∷ tree value ∷ [])) }
{
    match list {
        Value::List(list) => {
            let end = list.len();
            put_in(alloc, list, end, value)
        }
        _ => Err(TYPE_MISMATCH),
    }
}

fn appended_at(
    alloc: Global,
    list: Value,
    value: Value,
    place: Value,
) -> Result<Value, OperationFault>
    ensures { Gives result (list_append (tree list ∷ tree value ∷ tree place ∷ [])) }
{
    match (list, place) {
        (Value::List(list), Value::Int(place)) => {
            let before = brought_to(place, list.len());
            put_in(alloc, list, before, value)
        }
        _ => Err(TYPE_MISMATCH),
    }
}

/// Computes `listinsert`: the list with a value before its first element, or before a place.
pub fn list_insert(alloc: Global, args: &mut [Value]) -> Result<Value, OperationFault>
    ensures { Gives result (list_insert (trees args.old)) }
{
    match args {
        [list, value] => inserted(alloc, take(list), take(value)),
        [list, value, place] => inserted_at(alloc, take(list), take(value), take(place)),
        _ => Err(TYPE_MISMATCH),
    }
}

fn inserted(alloc: Global, list: Value, value: Value) -> Result<Value, OperationFault>
    ensures { Gives result (list_insert (tree list ∷ tree value ∷ [])) }
{
    match list {
        Value::List(list) => put_in(alloc, list, 0, value),
        _ => Err(TYPE_MISMATCH),
    }
}

fn inserted_at(
    alloc: Global,
    list: Value,
    value: Value,
    place: Value,
) -> Result<Value, OperationFault>
    ensures { Gives result (list_insert (tree list ∷ tree value ∷ tree place ∷ [])) }
{
    match (list, place) {
        (Value::List(list), Value::Int(place)) => {
            let before = brought_to(place, list.elements().len() + 1).saturating_sub(1);
            put_in(alloc, list, before, value)
        }
        _ => Err(TYPE_MISMATCH),
    }
}

/// Computes `listset`: the list with the element at a place replaced by a value.
pub fn list_set(alloc: Global, args: &mut [Value]) -> Result<Value, OperationFault>
    ensures { Gives result (list_set (trees args.old)) }
{
    match args {
        [list, value, place] => set(alloc, take(list), take(value), take(place)),
        _ => Err(TYPE_MISMATCH),
    }
}

fn set(alloc: Global, list: Value, value: Value, place: Value) -> Result<Value, OperationFault>
    ensures { Gives result (list_set (tree list ∷ tree value ∷ tree place ∷ [])) }
{
    match (list, place) {
        (Value::List(list), Value::Int(place)) => set_at(alloc, list, value, place),
        _ => Err(TYPE_MISMATCH),
    }
}

fn set_at(alloc: Global, list: MooList, value: Value, place: i32) -> Result<Value, OperationFault>
    ensures { Gives result (set_at list place (tree value)) }
{
    match before_place(place, list.len()) {
        Some(before) => list_answer(list.replaced(alloc, before, value)),
        None => Err(RANGE),
    }
}

/// Computes `listdelete`: the list without the element at a place.
pub fn list_delete(alloc: Global, args: &mut [Value]) -> Result<Value, OperationFault>
    ensures { Gives result (list_delete (trees args.old)) }
{
    match args {
        [list, place] => deleted(alloc, take(list), take(place)),
        _ => Err(TYPE_MISMATCH),
    }
}

fn deleted(alloc: Global, list: Value, place: Value) -> Result<Value, OperationFault>
    ensures { Gives result (list_delete (tree list ∷ tree place ∷ [])) }
{
    match list {
        Value::List(list) => match place {
            Value::Int(place) => delete_at(alloc, list, place),
            _ => Err(TYPE_MISMATCH),
        },
        _ => Err(TYPE_MISMATCH),
    }
}

fn delete_at(alloc: Global, list: MooList, place: i32) -> Result<Value, OperationFault>
    ensures { Gives result (delete_at list place) }
{
    match before_place(place, list.len()) {
        Some(before) => taken_out(alloc, list, before),
        None => Err(RANGE),
    }
}

/// Computes `setadd`: the list with a value at its end, if it has no equal element yet.
pub fn set_add(alloc: Global, args: &mut [Value]) -> Result<Value, OperationFault>
    ensures { Gives result (set_add (trees args.old)) }
{
    match args {
        [list, value] => added(alloc, take(list), take(value)),
        _ => Err(TYPE_MISMATCH),
    }
}

fn added(alloc: Global, list: Value, value: Value) -> Result<Value, OperationFault>
    ensures { Gives result (set_add (tree list ∷ tree value ∷ [])) }
{
    match list {
        Value::List(list) => with_member(alloc, list, value),
        _ => Err(TYPE_MISMATCH),
    }
}

fn with_member(alloc: Global, list: MooList, value: Value) -> Result<Value, OperationFault>
    ensures { Gives result (with_member list (tree value)) }
{
    if place_of_equal(&value, &list).is_some() {
        return Ok(Value::List(list));
    }
    let end = list.len();
    put_in(alloc, list, end, value)
}

/// Computes `setremove`: the list without the first element that is equal to a value.
pub fn set_remove(alloc: Global, args: &mut [Value]) -> Result<Value, OperationFault>
    ensures { Gives result (set_remove (trees args.old)) }
{
    match args {
        [list, value] => removed(alloc, take(list), take(value)),
        _ => Err(TYPE_MISMATCH),
    }
}

fn removed(alloc: Global, list: Value, value: Value) -> Result<Value, OperationFault>
    ensures { Gives result (set_remove (tree list ∷ tree value ∷ [])) }
{
    match list {
        Value::List(list) => without_member(alloc, list, value),
        _ => Err(TYPE_MISMATCH),
    }
}

fn without_member(alloc: Global, list: MooList, value: Value) -> Result<Value, OperationFault>
    ensures { Gives result (without_found list (position (equal (tree value)) list)) }
{
    match place_of_equal(&value, &list) {
        Some(before) => taken_out(alloc, list, before),
        None => Ok(Value::List(list)),
    }
}

/// Computes `is_member`: the first place of a value in a list, letters not folded, or 0.
pub fn is_member(args: &[Value]) -> Result<Value, OperationFault>
    ensures { Gives result (is_member (trees args.now)) }
{
    match args {
        [value, list] => place_in(value, list),
        _ => Err(TYPE_MISMATCH),
    }
}

fn place_in(value: &Value, list: &Value) -> Result<Value, OperationFault>
    ensures { Gives result (is_member (tree value.now ∷ tree list.now ∷ [])) }
{
    match list {
        Value::List(list) => Ok(place_value(place_of_same(value, list))),
        _ => Err(TYPE_MISMATCH),
    }
}

fn place_value(found: Option<usize>) -> Value
    requires { IfSome found (λ k. k < weight_limit) }
    ensures { tree result ≡ place_value found }
{
    match found {
        Some(before) => Value::Int(before as i32 + 1),
        None => Value::Int(0),
    }
}

fn place_of_same(value: &Value, list: &MooList) -> Option<usize>
    ensures value { result ≡ position (same_tree (tree value.now)) list.now }
    ensures bound { IfSome result (λ k. k < length list.now) }
    ensures limit { IfSome result (λ k. k < weight_limit) }
{
    position_of_same(value, list.elements())
}

fn position_of_same(value: &Value, elements: &[Value]) -> Option<usize>
    ensures value { result ≡ position (λ v. same_tree (tree value.now) (tree v)) elements.now }
    ensures bound { IfSome result (λ k. k < length elements.now) }
{
    elements.iter().position(|element| is_same(value, element))
}

fn place_of_equal(value: &Value, list: &MooList) -> Option<usize>
    ensures value { result ≡ position (equal (tree value.now)) list.now }
    ensures bound { IfSome result (λ k. k < length list.now) }
{
    position_of_equal(value, list.elements())
}

fn position_of_equal(value: &Value, elements: &[Value]) -> Option<usize>
    ensures value { result ≡ position (λ v. equal (tree value.now) (tree v)) elements.now }
    ensures bound { IfSome result (λ k. k < length elements.now) }
{
    elements.iter().position(|element| is_equal(value, element))
}

// Takes an argument out of its place, so that a list that nothing else holds is changed in place.
fn take(argument: &mut Value) -> Value
    ensures { result ≡ argument.old }
{
    mem::replace(argument, Value::Int(0))
}

fn brought_to(place: i32, count: usize) -> usize
    ensures { result ≡ brought_to place count }
{
    if place < 0 {
        return 0;
    }
    (place as usize).min(count)
}

fn put_in(
    alloc: Global,
    list: MooList,
    before: usize,
    value: Value,
) -> Result<Value, OperationFault>
    requires { before ≤ length list }
    ensures { Gives result (put_in list before (tree value)) }
{
    list_answer(list.inserted(alloc, before, value))
}

#[tactic(auto, using(crate::proofs::Making::limited_made))]
fn taken_out(alloc: Global, list: MooList, before: usize) -> Result<Value, OperationFault>
    requires { before < length list }
    ensures { Gives result (taken_out list before) }
{
    match list.removed(alloc, before) {
        Ok(shorter) => Ok(Value::List(shorter)),
        Err(AllocError) => Err(OperationFault::Memory),
    }
}
