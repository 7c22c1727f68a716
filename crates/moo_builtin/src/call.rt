//! Calls plain functions.
ghost use Rattle.std.specs.Prelude.{◌≡◌, ℕ, List, None, Some};
ghost use Rattle.moo_value.specs.View.{trees};
ghost use Rattle.moo_builtin_value.specs.Calls.{answer, Shows};
ghost use Rattle.moo_syntax_function.specs.Names.{function_of};
ghost use Rattle.moo_builtin.specs.Telling.{Faults};
ghost use Rattle.moo_builtin.specs.Calls.{field, given, Follows, CallsPlain};
ghost use Rattle.moo_builtin.specs.Outcomes.{IsReply, Unless};
ghost use Rattle.moo_builtin.specs.Lacking.{AnswerMayLack, CallMayLack, LacksOnly};

use crate::call_code;
use moo_builtin_value::{Outcome, answer, raised, settled};
use moo_builtin_world::{call_world, refusal};
use moo_syntax_function::Function;
use moo_value::{ErrorCode, MooStr, Value};
use moo_world::World;
use std::alloc::Global;

/// The programmer for whom a call is made, and the moment, in seconds since 1970.
#[derive(Clone, Copy, Debug)]
pub struct Caller {
    pub programmer: i32,
    pub moment: u32,
}

/// Calls a plain function by its name, letters folded. An unknown name raises E_INVARG. A wrong number of arguments
/// raises E_ARGS, then one of a wrong type E_TYPE, then an object that isn't valid E_INVARG. The function's own tests
/// follow, and the programmer's right comes last. A function that isn't plain raises E_INVARG. After an error or lack
/// of memory the world is as it was. Memory is needed only for a list, a string or a change that is made, for the
/// copies of a search that folds letters, for parsing a program, or for an error's message. The arguments may be
/// moved out even if the call raises.
pub fn call_plain(
    alloc: Global,
    name: &MooStr,
    args: &mut [Value],
    world: &mut World,
    caller: Caller,
) -> Outcome
    ensures call { IsReply result world.old world.new (CallsPlain Faults name.now (trees args.old) world.old caller) }
    ensures memory { LacksOnly result (CallMayLack (function_of name.now) (trees args.old) world.old caller) }
{
    let function = Function::from_name(name.as_bytes());
    call_found(alloc, function, args, world, caller)
}

/// Calls the plain function that was found for a name, if there is one. It is `call_plain` after the look-up of the
/// name.
pub fn call_found(
    alloc: Global,
    function: Option<Function>,
    args: &mut [Value],
    world: &mut World,
    caller: Caller,
) -> Outcome
    ensures call { (name : List ℕ) → function_of name ≡ function → IsReply result world.old world.new (CallsPlain Faults name (trees args.old) world.old caller) }
    ensures memory { LacksOnly result (CallMayLack function (trees args.old) world.old caller) }
{
    let Some(function) = function else {
        return raised(alloc, ErrorCode::InvalidArgument);
    };
    called(alloc, function, args, world, caller)
}

// Calls a function of the table.
fn called(
    alloc: Global,
    function: Function,
    args: &mut [Value],
    world: &mut World,
    caller: Caller,
) -> Outcome
    ensures call { (name : List ℕ) → function_of name ≡ Some function → IsReply result world.old world.new (CallsPlain Faults name (trees args.old) world.old caller) }
    ensures memory { LacksOnly result (CallMayLack (Some function) (trees args.old) world.old caller) }
{
    let refused = refusal(function, args, world);
    unless_refused(alloc, refused, function, args, world, caller)
}

// Calls a function, unless its arguments are refused.
fn unless_refused(
    alloc: Global,
    refused: Option<ErrorCode>,
    function: Function,
    args: &mut [Value],
    world: &mut World,
    caller: Caller,
) -> Outcome
    ensures call { IsReply result world.old world.new (Unless refused world.old (Follows (field function) Faults function (trees args.old) world.old caller)) }
    ensures memory { LacksOnly result (refused ≡ None → AnswerMayLack (field function) function (trees args.old) world.old caller) }
{
    match refused {
        Some(error) => raised(alloc, error),
        None => followed(alloc, function, args, world, caller),
    }
}

// Calls a function with arguments that fit its row of the table.
fn followed(
    alloc: Global,
    function: Function,
    args: &mut [Value],
    world: &mut World,
    caller: Caller,
) -> Outcome
    ensures call { IsReply result world.old world.new (Follows (field function) Faults function (trees args.old) world.old caller) }
    ensures memory { LacksOnly result (AnswerMayLack (field function) function (trees args.old) world.old caller) }
{
    if let Some(answer) = call_world(alloc, function, args, world, caller.programmer) {
        return settled(alloc, answer);
    }
    if let Some(answer) = call_code(alloc, function, args, world, caller.programmer) {
        return settled(alloc, answer);
    }
    over_values(alloc, function, args, caller.moment)
}

// Calls a function over values with arguments that fit its row of the table.
fn over_values(alloc: Global, function: Function, args: &mut [Value], moment: u32) -> Outcome
    ensures { Shows function (trees args.old) result (given (answer function moment (trees args.old))) }
{
    match answer(alloc, function, args, moment) {
        Some(outcome) => outcome,
        None => raised(alloc, ErrorCode::InvalidArgument),
    }
}
