//! Strings and lists with a part replaced.
ghost use Rattle.std.specs.Prelude.{◌≡◌, ◌≤◌, ◌<◌, ◌+◌, length, max, slice_set, Ok, Err, IfOk, IfErr, IfSome, OnOk, IsTrue};
ghost use Rattle.std.specs.Result.{result_err};
ghost use Rattle.moo_value.specs.Tree.{Tree, integer, list_of};
ghost use Rattle.moo_value.specs.Tree as values;
ghost use Rattle.moo_value.specs.Size.{weight, depth, list_weight, list_depth, IsString};
ghost use Rattle.moo_value.specs.Splice.{spliced};
ghost use Rattle.moo_value.specs.View.{tree};
ghost use Rattle.moo_builtin_operator.specs.Answer.{Gives, limited};
ghost use Rattle.moo_builtin_operator.specs.Assignment.{before_place, ends, at_least_zero, with_index_of, with_range_of};

use crate::fault::{OperationFault, QUOTA, RANGE, TYPE_MISMATCH};
use moo_value::{ErrorCode, ListLimit, MooList, MooStr, Value, ValueFault, WEIGHT_LIMIT};
use std::alloc::Global;

/// Returns what `base` is after `base[index] = value`. An element of a list that nothing else shares is replaced in
/// place.
pub fn with_index(
    alloc: Global,
    base: Value,
    index: &Value,
    value: Value,
) -> Result<Value, OperationFault>
    ensures { Gives result (with_index_of (tree base) (tree index.now) (tree value)) }
{
    match base {
        Value::Str(string) => with_byte(alloc, &string, index, &value),
        Value::List(list) => with_element(alloc, list, index, value),
        Value::Int(_) | Value::Obj(_) | Value::Err(_) => Err(TYPE_MISMATCH),
    }
}

/// Returns the error that `with_index` of these arguments raises, if any.
pub fn index_refusal(base: &Value, index: &Value, value: &Value) -> Option<ErrorCode>
    ensures { result ≡ result_err (with_index_of (tree base.now) (tree index.now) (tree value.now)) }
{
    match base {
        Value::Str(string) => byte_place(string, index, value).err(),
        Value::List(list) => match element_place(list, index) {
            Ok(before) if list.fits_replacing(before, value) => None,
            Ok(_) => Some(ErrorCode::Quota),
            Err(error) => Some(error),
        },
        Value::Int(_) | Value::Obj(_) | Value::Err(_) => Some(ErrorCode::TypeMismatch),
    }
}

/// Returns what `base` is after `base[low..high] = value`. A list that nothing else shares is changed in place, unless
/// the part ends before it begins.
pub fn with_range(
    alloc: Global,
    base: Value,
    low: &Value,
    high: &Value,
    value: &Value,
) -> Result<Value, OperationFault>
    ensures { Gives result (with_range_of (tree base) (tree low.now) (tree high.now) (tree value.now)) }
{
    match (base, low, high, value) {
        (Value::Str(base), Value::Int(low), Value::Int(high), Value::Str(value)) => match ends(
            *low,
            *high,
            base.len(),
        ) {
            Some((front, back)) => spliced_text(alloc, &base, front, back, value),
            None => Err(RANGE),
        },
        (Value::List(base), Value::Int(low), Value::Int(high), Value::List(value)) => match ends(
            *low,
            *high,
            base.len(),
        ) {
            Some((front, back)) => spliced_list(alloc, base, front, back, value),
            None => Err(RANGE),
        },
        _ => Err(TYPE_MISMATCH),
    }
}

/// Is true only if `with_range` of these arguments raises nothing. Its list is then no heavier than both lists together,
/// and no deeper than the deeper one. It is false for strings. It is false if the part ends before it begins, or if both
/// lists together are too heavy.
pub fn takes_range(base: &Value, low: &Value, high: &Value, value: &Value) -> bool
    ensures { IsTrue result → (w : Tree) × (with_range_of (tree base.now) (tree low.now) (tree high.now) (tree value.now) ≡ Ok w) × (weight w ≤ weight (tree base.now) + weight (tree value.now)) × (depth w ≤ max (depth (tree base.now)) (depth (tree value.now))) }
{
    match (base, low, high, value) {
        (Value::List(base), Value::Int(low), Value::Int(high), Value::List(value)) => {
            takes_part(base, *low, *high, value)
        }
        _ => false,
    }
}

// Is true only if the list takes the elements of the other one in place of a part.
fn takes_part(base: &MooList, low: i32, high: i32, value: &MooList) -> bool
    ensures { IsTrue result → (w : Tree) × (with_range_of (list_of base.now) (integer low) (integer high) (list_of value.now) ≡ Ok w) × (weight w ≤ list_weight base.now + list_weight value.now) × (depth w ≤ max (list_depth base.now) (list_depth value.now)) }
{
    let Some((front, back)) = ends(low, high, base.len()) else {
        return false;
    };
    if front > back {
        return false;
    }
    if base.weight() + value.weight() > WEIGHT_LIMIT {
        return false;
    }
    true
}

/// Returns how many of `length` elements come before the one at a place, which counts from 1, if there is one.
pub fn before_place(place: i32, length: usize) -> Option<usize>
    ensures value { result ≡ before_place place length }
    ensures bound { IfSome result (λ k. k < length) }
{
    if place < 1 {
        return None;
    }
    let before = place as usize - 1;
    if before < length { Some(before) } else { None }
}

// Returns where a byte of a string is replaced, and the string of one byte that replaces it.
fn byte_place<'a>(
    string: &MooStr,
    index: &Value,
    value: &'a Value,
) -> Result<(usize, &'a MooStr), ErrorCode>
    ensures ok { IfOk result (λ p. with_index_of (values.string string.now) (tree index.now) (tree value.now) ≡ Ok (values.string (spliced string.now p.0 (p.0 + 1) p.1.now))) }
    ensures bound { IfOk result (λ p. p.0 < length string.now) }
    ensures string { OnOk result (IsString string.now) }
    ensures one { IfOk result (λ p. length p.1.now ≡ 1) }
    ensures err { IfErr result (λ e. with_index_of (values.string string.now) (tree index.now) (tree value.now) ≡ Err e) }
{
    let (Value::Int(index), Value::Str(byte)) = (index, value) else {
        return Err(ErrorCode::TypeMismatch);
    };
    let Some(before) = before_place(*index, string.len()) else {
        return Err(ErrorCode::Range);
    };
    if byte.len() == 1 {
        Ok((before, byte))
    } else {
        Err(ErrorCode::InvalidArgument)
    }
}

fn with_byte(
    alloc: Global,
    string: &MooStr,
    index: &Value,
    value: &Value,
) -> Result<Value, OperationFault>
    ensures { Gives result (with_index_of (values.string string.now) (tree index.now) (tree value.now)) }
{
    match byte_place(string, index, value) {
        Ok((before, byte)) => spliced_text(alloc, string, before, before + 1, byte),
        Err(error) => Err(OperationFault::Raise(error)),
    }
}

// Returns where an element of a list is replaced.
fn element_place(list: &MooList, index: &Value) -> Result<usize, ErrorCode>
    ensures ok { IfOk result (λ k. (v : Tree) → with_index_of (list_of list.now) (tree index.now) v ≡ limited (list_of (slice_set list.now k v))) }
    ensures bound { IfOk result (λ k. k < length list.now) }
    ensures err { IfErr result (λ e. (v : Tree) → with_index_of (list_of list.now) (tree index.now) v ≡ Err e) }
{
    let Value::Int(index) = index else {
        return Err(ErrorCode::TypeMismatch);
    };
    match before_place(*index, list.len()) {
        Some(before) => Ok(before),
        None => Err(ErrorCode::Range),
    }
}

fn with_element(
    alloc: Global,
    list: MooList,
    index: &Value,
    value: Value,
) -> Result<Value, OperationFault>
    ensures { Gives result (with_index_of (list_of list) (tree index.now) (tree value)) }
{
    match element_place(&list, index) {
        Ok(before) => replaced(alloc, list, before, value),
        Err(error) => Err(OperationFault::Raise(error)),
    }
}

fn replaced(
    alloc: Global,
    list: MooList,
    before: usize,
    value: Value,
) -> Result<Value, OperationFault>
    requires { before < length list }
    ensures { Gives result (limited (list_of (slice_set list before (tree value)))) }
{
    match list.replaced(alloc, before, value) {
        Ok(list) => Ok(Value::List(list)),
        Err(ListLimit::TooLarge) => Err(QUOTA),
        Err(ListLimit::Memory) => Err(OperationFault::Memory),
    }
}

// Returns how many of `length` elements come before the place `low`, and how many up to the place `high`.
fn ends(low: i32, high: i32, length: usize) -> Option<(usize, usize)>
    ensures value { result ≡ ends low high length }
    ensures front { IfSome result (λ e. e.0 ≤ length) }
    ensures back { IfSome result (λ e. e.1 ≤ length) }
{
    let front = at_least_zero(low).saturating_sub(1);
    if front > length {
        return None;
    }
    if high < 0 {
        return None;
    }
    Some((front, at_least_zero(high).min(length)))
}

fn at_least_zero(number: i32) -> usize
    ensures { result ≡ at_least_zero number }
{
    if number < 0 { 0 } else { number as usize }
}

fn spliced_text(
    alloc: Global,
    base: &MooStr,
    front: usize,
    back: usize,
    value: &MooStr,
) -> Result<Value, OperationFault>
    requires front { front ≤ length base.now }
    requires back { back ≤ length base.now }
    ensures { Gives result (limited (values.string (spliced base.now front back value.now))) }
{
    match base.spliced(alloc, front, back, value) {
        Ok(string) => Ok(Value::Str(string)),
        Err(ValueFault::Memory) => Err(OperationFault::Memory),
        Err(ValueFault::BadByte | ValueFault::TooHeavy) => Err(QUOTA),
    }
}

fn spliced_list(
    alloc: Global,
    base: MooList,
    front: usize,
    back: usize,
    value: &MooList,
) -> Result<Value, OperationFault>
    requires front { front ≤ length base }
    requires back { back ≤ length base }
    ensures { Gives result (limited (list_of (spliced base front back value.now))) }
{
    match base.spliced(alloc, front, back, value) {
        Ok(list) => Ok(Value::List(list)),
        Err(ListLimit::TooLarge) => Err(QUOTA),
        Err(ListLimit::Memory) => Err(OperationFault::Memory),
    }
}
