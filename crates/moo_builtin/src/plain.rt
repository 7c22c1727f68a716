//! Calls plain functions whose errors have their own messages.
ghost use Rattle.std.specs.Prelude.{◌≡◌, ℕ, List, Some, IfSome, IfNone};
ghost use Rattle.moo_value.specs.View.{trees};
ghost use Rattle.moo_syntax_function.specs.Names.{function_of};
ghost use Rattle.moo_builtin.specs.Telling.{Faults};
ghost use Rattle.moo_builtin.specs.Calls.{field, Follows, CallsPlain};
ghost use Rattle.moo_builtin.specs.Outcomes.{IsAnswer};

use crate::call::Caller;
use crate::call_code;
use moo_builtin_operator::OperationFault;
use moo_builtin_value::plain_answer;
use moo_builtin_world::{call_world, refusal};
use moo_syntax_function::Function;
use moo_value::Value;
use moo_world::World;
use std::alloc::Global;

/// Calls a plain function of the table as `call_found`, and returns its value or its fault. `None`, with nothing changed,
/// for `raise` and for a function that isn't plain.
#[inline(always)]
pub fn try_plain(
    alloc: Global,
    function: Function,
    args: &mut [Value],
    world: &mut World,
    caller: Caller,
) -> Option<Result<Value, OperationFault>>
    ensures some { IfSome result (λ answer. (name : List ℕ) → function_of name ≡ Some function → IsAnswer answer world.old world.new (CallsPlain Faults name (trees args.old) world.old caller)) }
    ensures unchanged { IfNone result (args.new ≡ args.old) }
    ensures kept { IfNone result (world.new ≡ world.old) }
{
    match refusal(function, args, world) {
        Some(error) => Some(Err(OperationFault::Raise(error))),
        None => try_fitting(alloc, function, args, world, caller),
    }
}

// Calls a function with arguments that fit its row of the table.
#[inline(always)]
fn try_fitting(
    alloc: Global,
    function: Function,
    args: &mut [Value],
    world: &mut World,
    caller: Caller,
) -> Option<Result<Value, OperationFault>>
    ensures some { IfSome result (λ answer. IsAnswer answer world.old world.new (Follows (field function) Faults function (trees args.old) world.old caller)) }
    ensures unchanged { IfNone result (args.new ≡ args.old) }
    ensures kept { IfNone result (world.new ≡ world.old) }
{
    if let Some(answer) = call_world(alloc, function, args, world, caller.programmer) {
        return Some(answer);
    }
    if let Some(answer) = call_code(alloc, function, args, world, caller.programmer) {
        return Some(answer);
    }
    plain_answer(alloc, function, args, caller.moment)
}
