//! Parts of strings and lists by their places, which count from 1.
ghost use Rattle.std.specs.Prelude.{◌≡◌, ◌≤◌, length, slice_range, Ok, Err, IfOk, IfErr, IfSome};
ghost use Rattle.moo_value.specs.Tree.{list_of};
ghost use Rattle.moo_value.specs.Tree as trees_of_values;
ghost use Rattle.moo_value.specs.View.{tree, trees};
ghost use Rattle.moo_builtin_operator.specs.Answer.{Gives};
ghost use Rattle.moo_builtin_operator.specs.Places.{index_of, range_of, length_of, spliced_of};
ghost use Rattle.moo_builtin_operator.specs.Bounds.{bounds};

use crate::assignment::before_place;
use crate::fault::{OperationFault, RANGE, TYPE_MISMATCH};
use crate::made::{number_of, shared};
use moo_value::{ErrorCode, MooList, MooStr, Value};
use std::alloc::{AllocError, Global};

/// Returns `base[index]`: a string of one byte, or an element of a list. E_TYPE for other values, E_RANGE for no such
/// place.
pub fn index(alloc: Global, base: &Value, index: &Value) -> Result<Value, OperationFault>
    ensures { Gives result (index_of (tree base.now) (tree index.now)) }
{
    match (base, index) {
        (Value::Str(string), Value::Int(index)) => {
            match before_place(*index, string.len()) {
                Some(before) => text_part(alloc, string, before, before + 1),
                None => Err(RANGE),
            }
        }
        (Value::List(list), Value::Int(index)) => {
            match before_place(*index, list.len()) {
                Some(before) => shared(&list.elements()[before]),
                None => Err(RANGE),
            }
        }
        _ => Err(TYPE_MISMATCH),
    }
}

/// Returns `base[low..high]`: a part of a string or a list. E_TYPE for other values, E_RANGE for places outside it.
pub fn range(
    alloc: Global,
    base: &Value,
    low: &Value,
    high: &Value,
) -> Result<Value, OperationFault>
    ensures { Gives result (range_of (tree base.now) (tree low.now) (tree high.now)) }
{
    match (base, low, high) {
        (Value::Str(string), Value::Int(low), Value::Int(high)) => {
            match bounds(*low, *high, string.len()) {
                Some((from, to)) => text_part(alloc, string, from, to),
                None => Err(RANGE),
            }
        }
        (Value::List(list), Value::Int(low), Value::Int(high)) => {
            match bounds(*low, *high, list.len()) {
                Some((from, to)) => list_part(alloc, list, from, to),
                None => Err(RANGE),
            }
        }
        _ => Err(TYPE_MISMATCH),
    }
}

/// Returns the part of a list that `list[low..high]` is: how many elements come before it, and how many up to its end.
/// Returns `None` if the places aren't numbers, or aren't those of a part.
pub fn list_bounds(list: &MooList, low: &Value, high: &Value) -> Option<(usize, usize)>
    ensures part { IfSome result (λ b. range_of (list_of list.now) (tree low.now) (tree high.now) ≡ Ok (list_of (slice_range list.now b.0 b.1))) }
    ensures order { IfSome result (λ b. b.0 ≤ b.1) }
    ensures within { IfSome result (λ b. b.1 ≤ length list.now) }
{
    match (low, high) {
        (Value::Int(low), Value::Int(high)) => bounds(*low, *high, list.len()),
        _ => None,
    }
}

/// Returns the length of a string or a list, the value of `$` inside its index.
pub fn length_of(base: &Value) -> Result<Value, OperationFault>
    ensures { Gives result (length_of (tree base.now)) }
{
    match base {
        Value::Str(string) => Ok(number_of(string.len())),
        Value::List(list) => Ok(number_of(list.elements().len())),
        _ => Err(TYPE_MISMATCH),
    }
}

/// Returns the elements that `@value` puts into a list.
pub fn spliced(value: &Value) -> Result<&[Value], ErrorCode>
    ensures ok { IfOk result (λ vs. spliced_of (tree value.now) ≡ Ok (trees vs.now)) }
    ensures err { IfErr result (λ e. spliced_of (tree value.now) ≡ Err e) }
{
    match value {
        Value::List(list) => Ok(list.elements()),
        _ => Err(ErrorCode::TypeMismatch),
    }
}

fn text_part(
    alloc: Global,
    string: &MooStr,
    from: usize,
    to: usize,
) -> Result<Value, OperationFault>
    requires order { from ≤ to }
    requires within { to ≤ length string.now }
    ensures { Gives result (Ok (trees_of_values.string (slice_range string.now from to))) }
{
    match string.part(alloc, from, to) {
        Ok(part) => Ok(Value::Str(part)),
        Err(AllocError) => Err(OperationFault::Memory),
    }
}

fn list_part(alloc: Global, list: &MooList, from: usize, to: usize) -> Result<Value, OperationFault>
    requires order { from ≤ to }
    requires within { to ≤ length list.now }
    ensures { Gives result (Ok (list_of (slice_range list.now from to))) }
{
    match list.part(alloc, from, to) {
        Ok(part) => Ok(Value::List(part)),
        Err(AllocError) => Err(OperationFault::Memory),
    }
}

// Returns the half-open range, counted from 0, of the places `low` to `high` among `length` elements.
fn bounds(low: i32, high: i32, length: usize) -> Option<(usize, usize)>
    ensures value { result ≡ bounds low high length }
    ensures order { IfSome result (λ b. b.0 ≤ b.1) }
    ensures within { IfSome result (λ b. b.1 ≤ length) }
{
    if high < low {
        return Some((0, 0));
    }
    if low < 1 {
        return None;
    }
    let to = high as usize;
    if to > length {
        return None;
    }
    Some((low as usize - 1, to))
}
