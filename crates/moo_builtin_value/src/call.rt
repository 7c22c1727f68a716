//! Calls the functions over values alone, and raises their errors.
ghost use Rattle.std.specs.Prelude.{◌≡◌, IfNone};
ghost use Rattle.moo_value.specs.View.{tree, trees};
ghost use Rattle.moo_builtin_value.specs.Calls.{plainly, plain_answer, raised_by, answer, ShowsSome, GivesSome, Raises, Tells};

use crate::lists::{
    is_member, list_append, list_delete, list_insert, list_set, set_add, set_remove,
};
use crate::looks::{equal, length_of, server_version, time, type_of};
use crate::numbers::{absolute, greatest, least};
use crate::{compare, index, last_index, substitute, to_integer, to_literal, to_object, to_text};
use moo_builtin_operator::OperationFault;
use moo_syntax_function::Function;
use moo_value::{ErrorCode, MooStr, Value};
use std::alloc::Global;

/// The outcome of a call.
#[derive(Drop)]
pub enum Outcome {
    /// The call returns a value.
    Value(Value),
    /// The call raises an error, with a message and a value.
    Raise(ErrorCode, MooStr, Value),
    /// Memory ran out.
    Memory,
}

/// Returns what a function over values alone returns or raises. The arguments fit its row of the table; `moment` is
/// in seconds since 1970. `None` for any other function; the arguments then stay as they are.
#[inline(never)]
pub fn answer(alloc: Global, function: Function, args: &mut [Value], moment: u32) -> Option<Outcome>
    ensures value { ShowsSome function (trees args.old) result (answer function moment (trees args.old)) }
    ensures unchanged { IfNone result (args.new ≡ args.old) }
{
    match function {
        Function::Raise => Some(raise(alloc, args)),
        _ => {
            let answer = plain_answer(alloc, function, args, moment)?;
            Some(settled(alloc, answer))
        }
    }
}

/// Returns what a function over values alone returns, for functions whose errors all have their own message. The
/// arguments fit its row of the table. `None` for any other function; the arguments then stay as they are.
#[inline(always)]
pub fn plain_answer(
    alloc: Global,
    function: Function,
    args: &mut [Value],
    moment: u32,
) -> Option<Result<Value, OperationFault>>
    ensures value { GivesSome function (trees args.old) result (plain_answer function moment (trees args.old)) }
    ensures unchanged { IfNone result (args.new ≡ args.old) }
{
    Some(match function {
        Function::Typeof => type_of(args),
        Function::Length => length_of(args),
        Function::Tostr => to_text(alloc, args),
        Function::Toliteral => to_literal(alloc, args),
        Function::Toint | Function::Tonum => to_integer(args),
        Function::Toobj => to_object(args),
        Function::Equal => equal(args),
        Function::Strcmp => compare(args),
        Function::Min => least(args),
        Function::Max => greatest(args),
        Function::Abs => absolute(args),
        Function::Index => index(alloc, args),
        Function::Rindex => last_index(alloc, args),
        Function::Strsub => substitute(alloc, args),
        Function::ListAppend => list_append(alloc, args),
        Function::ListInsert => list_insert(alloc, args),
        Function::ListSet => list_set(alloc, args),
        Function::ListDelete => list_delete(alloc, args),
        Function::SetAdd => set_add(alloc, args),
        Function::SetRemove => set_remove(alloc, args),
        Function::IsMember => is_member(args),
        Function::Time => time(args, moment),
        Function::ServerVersion => server_version(alloc, args),
        _ => return None,
    })
}

/// Returns the outcome of a result: its value, or its error with the error's own message and the value 0.
#[inline(always)]
pub fn settled(alloc: Global, answer: Result<Value, OperationFault>) -> Outcome
    ensures { Tells result answer }
{
    match answer {
        Ok(value) => Outcome::Value(value),
        Err(OperationFault::Raise(error)) => raised(alloc, error),
        Err(OperationFault::Memory) => Outcome::Memory,
    }
}

// Computes `raise`: an error with its own message and 0, or with those that are given.
fn raise(alloc: Global, args: &[Value]) -> Outcome
    ensures { Raises result (raised_by (trees args.now)) }
{
    match args {
        [Value::Err(error)] => raised(alloc, *error),
        [Value::Err(error), Value::Str(message)] => raised_with(*error, message, &Value::Int(0)),
        [Value::Err(error), Value::Str(message), value] => raised_with(*error, message, value),
        _ => raised(alloc, ErrorCode::TypeMismatch),
    }
}

fn raised_with(error: ErrorCode, message: &MooStr, value: &Value) -> Outcome
    ensures { Raises result (record { code = error; message = message.now; value = tree value.now }) }
{
    match (message.try_clone(), value.try_clone()) {
        (Ok(message), Ok(value)) => Outcome::Raise(error, message, value),
        _ => Outcome::Memory,
    }
}

/// Returns an error with its own message and 0, or lack of memory for the message.
#[inline(never)]
pub fn raised(alloc: Global, error: ErrorCode) -> Outcome
    ensures { Raises result (plainly error) }
{
    match MooStr::try_from_bytes(alloc, error.message().as_bytes()) {
        Ok(message) => Outcome::Raise(error, message, Value::Int(0)),
        Err(_) => Outcome::Memory,
    }
}
