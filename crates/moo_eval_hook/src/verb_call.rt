//! Begins calls of functions that call verbs.
ghost use Rattle.std.specs.Prelude.{◌≡◌, ℕ, List, Err, IfOk, IfErr, None};
ghost use Rattle.moo_builtin_operator.specs.Places.{made_list};
ghost use Rattle.moo_eval_frame.specs.Outcome.{answers};
ghost use Rattle.moo_syntax_function.specs.declared.function.Function.TheVariants.{Pass};
ghost use Rattle.moo_value.specs.View.{trees};
ghost use Rattle.moo_eval_frame.specs.Seen.{context_of, failure_of, HadMemoryIn, IsKnownFailure};
ghost use Rattle.moo_eval_frame.specs.declared.notice.Notice.{Notice};
ghost use Rattle.moo_builtin.specs.Telling.{Faults};
ghost use Rattle.moo_eval_access.specs.SeenState.{state_at};
ghost use Rattle.moo_eval_semantics.specs.VerbCalls.{calls_verbs, verb_caller, move_begins, create_begins, recycle_begins, first_progress, Begins, Starts};
ghost use Rattle.moo_eval_hook.specs.SeenByHooks.{calling_of, seen_progress};

use crate::creating::create;
use crate::evaluating::begin_evaluating;
use crate::moving::begin_move;
use crate::passing::pass;
use crate::progress::Progress;
use crate::recycling::begin_recycling;
use moo_builtin_world::refusal;
use moo_eval_access::are_too_many;
use moo_eval_frame::{Activation, CallStack, Failure, Gathered};
use moo_syntax_function::Function;
use moo_value::{ErrorCode, Value};
use moo_world::World;
use std::alloc::Global;

/// Returns the function, if it is one that calls verbs or runs a program: `pass`, `move`, `create`, `recycle` or
/// `eval`.
pub fn verb_caller(function: Option<Function>) -> Option<Function>
    ensures { result ≡ verb_caller function }
{
    match function {
        Some(function) if calls_verbs(function) => Some(function),
        _ => None,
    }
}

fn calls_verbs(function: Function) -> bool
    ensures { result ≡ calls_verbs function }
{
    matches!(
        function,
        Function::Pass | Function::Move | Function::Create | Function::Recycle | Function::Eval
    )
}

/// Begins a call of a function that calls verbs, and returns what comes first: its value, a verb, or a stage. A wrong
/// number of arguments raises E_ARGS, then one of a wrong type E_TYPE, then an object that isn't valid E_INVARG. The
/// function's own tests follow. Any other function raises E_TYPE; no call has one. Lists that were spliced in are not
/// copied if there are more arguments than the function takes. For `pass` E_QUOTA comes first if they are too heavy
/// together for a list, and they are not copied either.
#[inline(never)]
pub fn start_call<'a>(
    alloc: Global,
    world: &mut World,
    stack: &'a CallStack<'_>,
    active: &Activation,
    function: Function,
    values: Gathered,
) -> Result<Progress<'a>, Failure>
    ensures { (ticks : ℕ) (notices : List Notice) → IsKnownFailure result → Starts Faults (context_of stack.now None) function values (state_at ticks notices world.old active.now) (seen_progress result) (state_at ticks notices world.new active.now) }
{
    if are_too_many(function, &values) {
        return Err(Failure::Fails(ErrorCode::Arguments));
    }
    let args = arguments(alloc, function, values)?;
    match refusal(function, &args, world) {
        Some(code) => Err(Failure::Fails(code)),
        None => begin(alloc, world, stack, active, function, args),
    }
}

// Returns the values of the arguments. Those of `pass` have to make a list.
fn arguments(alloc: Global, function: Function, values: Gathered) -> Result<Vec<Value>, Failure>
    ensures ok { IfOk result (λ args. trees args.items ≡ values) }
    ensures err { IfErr result (λ failure. HadMemoryIn failure → (function ≡ Pass) × (answers (made_list values) ≡ Err (failure_of failure))) }
{
    match function {
        Function::Pass => values.into_arguments(alloc),
        _ => Ok(values.into_values(alloc)?),
    }
}

fn begin<'a>(
    alloc: Global,
    world: &mut World,
    stack: &'a CallStack<'_>,
    active: &Activation,
    function: Function,
    args: Vec<Value>,
) -> Result<Progress<'a>, Failure>
    ensures { IsKnownFailure result → Begins Faults function (calling_of stack.now active.now) world.old (trees args.items) (seen_progress result) world.new }
{
    match function {
        Function::Eval => begin_evaluating(alloc, world, stack, active, &args),
        _ => first_progress(alloc, world, stack, active, function, args),
    }
}

fn first_progress<'a>(
    alloc: Global,
    world: &mut World,
    stack: &'a CallStack<'_>,
    active: &Activation,
    function: Function,
    args: Vec<Value>,
) -> Result<Progress<'a>, Failure>
    ensures { IsKnownFailure result → first_progress function (calling_of stack.now active.now) world.old (trees args.items) ≡ (seen_progress result, world.new) }
{
    match function {
        Function::Pass => pass(alloc, world, stack, active, args),
        Function::Move => begin_moving(alloc, world, stack, active, &args),
        Function::Create => begin_creating(alloc, world, stack, active, &args),
        Function::Recycle => recycle(alloc, world, stack, active, &args),
        _ => Err(Failure::Fails(ErrorCode::TypeMismatch)),
    }
}

fn begin_moving<'a>(
    alloc: Global,
    world: &mut World,
    stack: &'a CallStack<'_>,
    active: &Activation,
    args: &[Value],
) -> Result<Progress<'a>, Failure>
    ensures { IsKnownFailure result → move_begins (calling_of stack.now active.now) world.old (trees args.now) ≡ (seen_progress result, world.new) }
{
    match args {
        [Value::Obj(what), Value::Obj(to)] => begin_move(alloc, world, stack, active, *what, *to),
        _ => Err(Failure::Fails(ErrorCode::TypeMismatch)),
    }
}

fn begin_creating<'a>(
    alloc: Global,
    world: &mut World,
    stack: &'a CallStack<'_>,
    active: &Activation,
    args: &[Value],
) -> Result<Progress<'a>, Failure>
    ensures { IsKnownFailure result → create_begins (calling_of stack.now active.now) world.old (trees args.now) ≡ (seen_progress result, world.new) }
{
    match args {
        [Value::Obj(up)] => create(alloc, world, stack, active, *up, active.programmer),
        [Value::Obj(up), Value::Obj(owner)] => create(alloc, world, stack, active, *up, *owner),
        _ => Err(Failure::Fails(ErrorCode::TypeMismatch)),
    }
}

fn recycle<'a>(
    alloc: Global,
    world: &World,
    stack: &'a CallStack<'_>,
    active: &Activation,
    args: &[Value],
) -> Result<Progress<'a>, Failure>
    ensures { IsKnownFailure result → recycle_begins (calling_of stack.now active.now) world.now (trees args.now) ≡ (seen_progress result, world.now) }
{
    match args {
        [Value::Obj(o)] => begin_recycling(alloc, world, stack, active, *o),
        _ => Err(Failure::Fails(ErrorCode::TypeMismatch)),
    }
}
