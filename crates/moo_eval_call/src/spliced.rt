//! `tostr`, `min` and `max`, which take any number of values. They read spliced lists in place, so no list is copied.
ghost use Rattle.std.specs.Prelude.{◌≡◌, ◌++◌, None, IfOk, IfErr};
ghost use Rattle.moo_value.specs.View.{trees};
ghost use Rattle.moo_builtin_value.specs.TextAnswers.{Gives};
ghost use Rattle.moo_builtin_value.specs.Conversions.{to_text};
ghost use Rattle.moo_eval_frame.specs.Gathered.{in_a_row};
ghost use Rattle.moo_eval_call.specs.Spliced.{better, extreme_from, GoesOn, Ends};

use moo_builtin_operator::OperationFault;
use moo_builtin_value::{append_texts, to_text};
use moo_eval_frame::{Gathered, Stretch};
use moo_value::{ErrorCode, MooStr, Value};
use std::alloc::{AllocError, Global};

/// Names the number that is looked for: the least or the greatest.
#[derive(Clone, Copy)]
pub enum Extreme {
    Least,
    Greatest,
}

/// Computes `min` or `max` of values: E_ARGS if there are none, E_TYPE if one is no integer. The memory of the values
/// after the last spliced list comes into `room`, unless a value before them raises E_TYPE.
#[inline(never)]
pub fn extreme_number(
    extreme: Extreme,
    values: Gathered,
    room: &mut Vec<Value>,
) -> Result<Value, OperationFault>
    ensures { Gives result (extreme_from extreme None values) }
{
    let (stretches, last) = values.into_stretches();
    let mut so_far = None;
    for stretch in &stretches {
        so_far = extreme_so_far(extreme, so_far, &stretch.values)?;
        so_far = extreme_so_far(extreme, so_far, stretch.list.elements())?;
    }
    let found = extreme_so_far(extreme, so_far, &last);
    *room = last;
    match found? {
        Some(number) => Ok(Value::Int(number)),
        None => Err(OperationFault::Raise(ErrorCode::Arguments)),
    }
}

// Returns the extreme of a number so far and of values.
fn extreme_so_far(
    extreme: Extreme,
    so_far: Option<i32>,
    values: &[Value],
) -> Result<Option<i32>, OperationFault>
    ensures ok { IfOk result (λ found. GoesOn (extreme_from extreme so_far) (trees values.now) (extreme_from extreme found)) }
    ensures err { IfErr result (λ fault. Ends fault (extreme_from extreme so_far) (trees values.now)) }
{
    let mut found = so_far;
    for value in values {
        let Value::Int(number) = value else {
            return Err(OperationFault::Raise(ErrorCode::TypeMismatch));
        };
        found = Some(better(extreme, found, *number));
    }
    Ok(found)
}

// Returns the less or the greater of a number and the one so far, or the number if there is none so far.
fn better(extreme: Extreme, so_far: Option<i32>, number: i32) -> i32
    ensures { result ≡ better extreme so_far number }
{
    let Some(best) = so_far else {
        return number;
    };
    match extreme {
        Extreme::Least => best.min(number),
        Extreme::Greatest => number.max(best),
    }
}

/// Computes `tostr` of values: E_QUOTA as soon as their texts are longer than a string may be. The memory of the values
/// comes into `room`, if no list was spliced in.
#[inline(always)]
pub fn joined_text(
    alloc: Global,
    values: Gathered,
    room: &mut Vec<Value>,
) -> Result<Value, OperationFault>
    ensures { Gives result (to_text values) }
{
    let (stretches, last) = values.into_stretches();
    if !stretches.is_empty() {
        return spliced_text(alloc, &stretches, &last);
    }
    let answer = to_text(alloc, &last);
    *room = last;
    answer
}

// Computes `tostr` of the values of stretches and of those after them.
#[inline(never)]
fn spliced_text(
    alloc: Global,
    stretches: &[Stretch],
    last: &[Value],
) -> Result<Value, OperationFault>
    ensures { Gives result (to_text (in_a_row stretches.now ++ trees last.now)) }
{
    let mut text = Vec::new(alloc);
    for stretch in stretches {
        append_texts(&mut text, &stretch.values)?;
        append_texts(&mut text, stretch.list.elements())?;
    }
    append_texts(&mut text, last)?;
    match MooStr::from_text(alloc, text) {
        Ok(text) => Ok(Value::Str(text)),
        Err(AllocError) => Err(OperationFault::Memory),
    }
}
