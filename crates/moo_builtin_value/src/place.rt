//! Compares strings, and searches one in another.
ghost use Rattle.std.specs.Prelude.{◌≡◌, ◌<◌, Ok, IfOk, IfSome};
ghost use Rattle.moo_value.specs.Compare.{folded};
ghost use Rattle.moo_value.specs.Size.{weight_limit};
ghost use Rattle.moo_value.specs.View.{tree, trees};
ghost use Rattle.moo_builtin_operator.specs.Comparison.{place_value};
ghost use Rattle.moo_builtin_value.specs.TextAnswers.{Gives, Finds};
ghost use Rattle.moo_builtin_value.specs.Texts.{sign, compare, is_exact, index, first_place, last_index, last_place};

use crate::search::{folded_find, is_short};
use crate::strings::TYPE_MISMATCH;
use memchr::memmem;
use moo_builtin_operator::{OperationFault, is_true};
use moo_value::{MooStr, Value};
use std::alloc::{AllocError, Global};
use std::cmp::Ordering;

/// Computes `strcmp`: -1, 0 or 1 by the bytes of two strings.
pub fn compare(args: &[Value]) -> Result<Value, OperationFault>
    ensures { Gives result (compare (trees args.now)) }
{
    match args {
        [Value::Str(a), Value::Str(b)] => Ok(Value::Int(sign(a.as_bytes().cmp(b.as_bytes())))),
        _ => Err(TYPE_MISMATCH),
    }
}

fn sign(ordering: Ordering) -> i32
    ensures { result ≡ sign ordering }
{
    match ordering {
        Ordering::Less => -1,
        Ordering::Equal => 0,
        Ordering::Greater => 1,
    }
}

/// Computes `index`: the first place of a string in another, or 0. Letters are folded unless the third argument is
/// true.
pub fn index(alloc: Global, args: &[Value]) -> Result<Value, OperationFault>
    ensures { Finds (is_exact (trees args.now)) result (index (trees args.now)) }
{
    match args {
        [Value::Str(text), Value::Str(wanted)] => first_place(alloc, text, wanted, false),
        [Value::Str(text), Value::Str(wanted), exact] => {
            first_place(alloc, text, wanted, is_true(exact))
        }
        _ => Err(TYPE_MISMATCH),
    }
}

fn first_place(
    alloc: Global,
    text: &MooStr,
    wanted: &MooStr,
    exact: bool,
) -> Result<Value, OperationFault>
    ensures { Finds exact result (Ok (first_place exact text.now wanted.now)) }
{
    if exact {
        return Ok(place_value(memmem::find(text.as_bytes(), wanted.as_bytes())));
    }
    if is_short(text.as_bytes()) {
        return Ok(place_value(folded_find(text.as_bytes(), wanted.as_bytes(), 0)));
    }
    let text = folded(alloc, text.as_bytes());
    let wanted = folded(alloc, wanted.as_bytes());
    match (text, wanted) {
        (Ok(text), Ok(wanted)) => Ok(place_value(memmem::find(&text, &wanted))),
        _ => Err(OperationFault::Memory),
    }
}

/// Computes `rindex`: the last place of a string in another, or 0. Letters are folded unless the third argument is
/// true.
pub fn last_index(alloc: Global, args: &[Value]) -> Result<Value, OperationFault>
    ensures { Finds (is_exact (trees args.now)) result (last_index (trees args.now)) }
{
    match args {
        [Value::Str(text), Value::Str(wanted)] => last_place(alloc, text, wanted, false),
        [Value::Str(text), Value::Str(wanted), exact] => {
            last_place(alloc, text, wanted, is_true(exact))
        }
        _ => Err(TYPE_MISMATCH),
    }
}

fn last_place(
    alloc: Global,
    text: &MooStr,
    wanted: &MooStr,
    exact: bool,
) -> Result<Value, OperationFault>
    ensures { Finds exact result (Ok (last_place exact text.now wanted.now)) }
{
    if exact {
        return Ok(place_value(memmem::rfind(text.as_bytes(), wanted.as_bytes())));
    }
    let text = folded(alloc, text.as_bytes());
    let wanted = folded(alloc, wanted.as_bytes());
    match (text, wanted) {
        (Ok(text), Ok(wanted)) => Ok(place_value(memmem::rfind(&text, &wanted))),
        _ => Err(OperationFault::Memory),
    }
}

/// Returns a copy of a text with its letters folded.
pub fn folded(alloc: Global, bytes: &[u8]) -> Result<Vec<u8>, AllocError>
    ensures { IfOk result (λ v. v.items ≡ folded bytes.now) }
{
    bytes.to_ascii_lowercase(alloc)
}

fn place_value(found: Option<usize>) -> Value
    requires { IfSome found (λ k. k < weight_limit) }
    ensures { tree result ≡ place_value found }
{
    match found {
        Some(before) => Value::Int(before as i32 + 1),
        None => Value::Int(0),
    }
}
