//! Calls built-in functions.
ghost use Rattle.std.specs.Prelude.{◌≡◌, ℕ, List, None, Some};
ghost use Rattle.moo_eval_frame.specs.declared.notice.Notice.{Notice};
ghost use Rattle.moo_value.specs.View.{trees};
ghost use Rattle.moo_syntax_function.specs.Names.{function_of};
ghost use Rattle.moo_syntax_function.specs.Table.{row};
ghost use Rattle.moo_syntax_function.specs.Check.{refusal};
ghost use Rattle.moo_builtin_world.specs.Objects.{is_valid};
ghost use Rattle.moo_eval_frame.specs.Seen.{context_of, seen_answer, IsKnownFailure};
ghost use Rattle.moo_eval_semantics.specs.Calls.{unless_refused, task_reply, task_function, caller, ComesTo, CallsFunction};
ghost use Rattle.moo_eval_access.specs.SeenState.{state_at};
ghost use Rattle.moo_builtin.specs.Telling.{Faults};
ghost use Rattle.moo_builtin.specs.Calls.{CallsPlain};
ghost use Rattle.moo_builtin.specs.Outcomes.{IsReply};

use crate::raising::{raised_here, raised_plainly};
use crate::spliced::{Extreme, extreme_number, joined_text};
use crate::task::{is_of_task, task_reply};
use crate::ticks::Ticks;
use moo_builtin::{Caller, call_found, try_plain};
use moo_builtin_operator::OperationFault;
use moo_builtin_value::{Outcome, raised, settled};
use moo_builtin_world::refusal;
use moo_eval_access::are_too_many;
use moo_eval_frame::{Activation, CallStack, Failure, Gathered, Notice, Stop};
use moo_syntax_function::Function;
use moo_value::{ErrorCode, Value};
use moo_world::World;
use std::alloc::{AllocError, Global};

/// Calls a built-in function for the running frame and its programmer. The function inspects the task or its
/// connections, leaves a notice, or is a plain one. A wrong number of arguments raises E_ARGS, then one of a wrong type
/// E_TYPE, then an object that isn't valid E_INVARG. The function's own tests follow, and the programmer's right comes
/// last. An unknown function, and one that calls verbs, raises E_INVARG. If there are more arguments than the function
/// takes, lists that were spliced in are not copied. A plain function may move the memory of its arguments into `room`,
/// for the next call.
pub fn call_function(
    alloc: Global,
    world: &mut World,
    active: &mut Activation,
    stack: &CallStack<'_>,
    ticks: &Ticks,
    notices: &mut Vec<Notice>,
    function: Option<Function>,
    values: Gathered,
    room: &mut Vec<Value>,
) -> Result<Value, Failure>
    ensures { (name : List ℕ) → function_of name ≡ function → IsKnownFailure result → CallsFunction Faults (context_of stack.now None) name values (state_at ticks.now notices.old.items world.old active.old) (seen_answer result) (state_at ticks.now notices.new.items world.new active.new) }
{
    match task_function(function) {
        Some(function) => {
            unless_too_many(
                alloc, world, active, stack, ticks, notices, function, values,
            )
        }
        None => plain(alloc, world, active, stack, function, values, room),
    }
}

/// Calls a built-in function as `call_function` does, with these values. The function may move values out of the slice.
#[inline(always)]
pub fn call_values(
    alloc: Global,
    world: &mut World,
    active: &mut Activation,
    stack: &CallStack<'_>,
    ticks: &Ticks,
    notices: &mut Vec<Notice>,
    function: Option<Function>,
    values: &mut [Value],
) -> Result<Value, Failure>
    ensures { (name : List ℕ) → function_of name ≡ function → IsKnownFailure result → CallsFunction Faults (context_of stack.now None) name (trees values.old) (state_at ticks.now notices.old.items world.old active.old) (seen_answer result) (state_at ticks.now notices.new.items world.new active.new) }
{
    match task_function(function) {
        Some(function) => unless_refused(
            alloc, world, active, stack, ticks, notices, function, values,
        ),
        None => plain_values(alloc, world, active, stack, function, values),
    }
}

// Calls a plain function with values, for the programmer of the running frame.
#[inline(always)]
fn plain_values(
    alloc: Global,
    world: &mut World,
    active: &Activation,
    stack: &CallStack<'_>,
    function: Option<Function>,
    values: &mut [Value],
) -> Result<Value, Failure>
    ensures { (name : List ℕ) (ticks : ℕ) (notices : List Notice) → function_of name ≡ function → IsKnownFailure result → ComesTo (CallsPlain Faults name (trees values.old) world.old (caller (context_of stack.now None) (state_at ticks notices world.old active.now))) (context_of stack.now None) (state_at ticks notices world.old active.now) (seen_answer result) (state_at ticks notices world.new active.now) }
{
    let caller = Caller {
        programmer: active.programmer,
        moment: stack.surroundings.moment,
    };
    let Some(found) = function else {
        return other_values(alloc, world, active, stack, function, values, caller);
    };
    match try_plain(alloc, found, values, world, caller) {
        Some(Ok(value)) => Ok(value),
        Some(Err(OperationFault::Raise(code))) => raised_plainly(alloc, stack, active, code),
        Some(Err(OperationFault::Memory)) => Err(Failure::Stops(Stop::Memory)),
        None => other_values(alloc, world, active, stack, function, values, caller),
    }
}

// Calls `raise`, or raises E_INVARG for what is no plain function.
#[inline(never)]
fn other_values(
    alloc: Global,
    world: &mut World,
    active: &Activation,
    stack: &CallStack<'_>,
    function: Option<Function>,
    values: &mut [Value],
    caller: Caller,
) -> Result<Value, Failure>
    ensures { (name : List ℕ) (ticks : ℕ) (notices : List Notice) → function_of name ≡ function → IsKnownFailure result → ComesTo (CallsPlain Faults name (trees values.old) world.old caller) (context_of stack.now None) (state_at ticks notices world.old active.now) (seen_answer result) (state_at ticks notices world.new active.now) }
{
    match call_found(alloc, function, values, world, caller) {
        Outcome::Value(value) => Ok(value),
        Outcome::Raise(code, message, value) => {
            raised_here(alloc, stack, active, code, message, value)
        }
        Outcome::Memory => Err(Failure::Stops(Stop::Memory)),
    }
}

#[inline(always)]
fn task_function(function: Option<Function>) -> Option<Function>
    ensures { result ≡ task_function function }
{
    let function = function?;
    if is_of_task(function) {
        Some(function)
    } else {
        None
    }
}

#[inline(never)]
fn unless_too_many(
    alloc: Global,
    world: &mut World,
    active: &mut Activation,
    stack: &CallStack<'_>,
    ticks: &Ticks,
    notices: &mut Vec<Notice>,
    function: Function,
    values: Gathered,
) -> Result<Value, Failure>
    ensures { IsKnownFailure result → unless_refused (state_at ticks.now notices.old.items world.old active.old) (refusal (is_valid world.old) (row function) values) (task_reply function (context_of stack.now None) values (state_at ticks.now notices.old.items world.old active.old)) ≡ (seen_answer result, state_at ticks.now notices.new.items world.new active.new) }
{
    if are_too_many(function, &values) {
        return Err(Failure::Fails(ErrorCode::Arguments));
    }
    let args = values.into_values(alloc)?;
    unless_refused(alloc, world, active, stack, ticks, notices, function, &args)
}

fn unless_refused(
    alloc: Global,
    world: &mut World,
    active: &mut Activation,
    stack: &CallStack<'_>,
    ticks: &Ticks,
    notices: &mut Vec<Notice>,
    function: Function,
    args: &[Value],
) -> Result<Value, Failure>
    ensures { IsKnownFailure result → unless_refused (state_at ticks.now notices.old.items world.old active.old) (refusal (is_valid world.old) (row function) (trees args.now)) (task_reply function (context_of stack.now None) (trees args.now) (state_at ticks.now notices.old.items world.old active.old)) ≡ (seen_answer result, state_at ticks.now notices.new.items world.new active.new) }
{
    match refusal(function, args, world) {
        Some(error) => Err(Failure::Fails(error)),
        None => task_reply(alloc, world, active, stack, ticks, notices, function, args),
    }
}

// Calls a plain function, for the programmer of the running frame.
#[inline(always)]
fn plain(
    alloc: Global,
    world: &mut World,
    active: &Activation,
    stack: &CallStack<'_>,
    function: Option<Function>,
    values: Gathered,
    room: &mut Vec<Value>,
) -> Result<Value, Failure>
    ensures { (name : List ℕ) (ticks : ℕ) (notices : List Notice) → function_of name ≡ function → IsKnownFailure result → ComesTo (CallsPlain Faults name values world.old (caller (context_of stack.now None) (state_at ticks notices world.old active.now))) (context_of stack.now None) (state_at ticks notices world.old active.now) (seen_answer result) (state_at ticks notices world.new active.now) }
{
    let caller = Caller {
        programmer: active.programmer,
        moment: stack.surroundings.moment,
    };
    match outcome(alloc, function, values, world, caller, room) {
        Outcome::Value(value) => Ok(value),
        Outcome::Raise(code, message, value) => {
            raised_here(alloc, stack, active, code, message, value)
        }
        Outcome::Memory => Err(Failure::Stops(Stop::Memory)),
    }
}

// Calls a plain function. `tostr`, `min` and `max` read spliced lists in place. E_INVARG if there is no function.
#[inline(always)]
fn outcome(
    alloc: Global,
    function: Option<Function>,
    values: Gathered,
    world: &mut World,
    caller: Caller,
    room: &mut Vec<Value>,
) -> Outcome
    ensures { (name : List ℕ) → function_of name ≡ function → IsReply result world.old world.new (CallsPlain Faults name values world.old caller) }
{
    let Some(found) = function else {
        return raised(alloc, ErrorCode::InvalidArgument);
    };
    match found {
        Function::Tostr => settled(alloc, joined_text(alloc, values, room)),
        Function::Min => settled(alloc, extreme_number(Extreme::Least, values, room)),
        Function::Max => settled(alloc, extreme_number(Extreme::Greatest, values, room)),
        _ => called(alloc, found, values, world, caller, room),
    }
}

// Calls a plain function with the values in a vector: E_ARGS, without copying a list, if there are too many.
fn called(
    alloc: Global,
    function: Function,
    values: Gathered,
    world: &mut World,
    caller: Caller,
    room: &mut Vec<Value>,
) -> Outcome
    ensures { (name : List ℕ) → function_of name ≡ Some function → IsReply result world.old world.new (CallsPlain Faults name values world.old caller) }
{
    if are_too_many(function, &values) {
        return raised(alloc, ErrorCode::Arguments);
    }
    match values.into_values(alloc) {
        Ok(mut args) => {
            let outcome = call_found(alloc, Some(function), &mut args, world, caller);
            *room = args;
            outcome
        }
        Err(AllocError) => Outcome::Memory,
    }
}
