//! Verbs of objects that a function calls, if an object has them.
ghost use Rattle.std.specs.Prelude.{◌≡◌, ◌∷◌, List, IfOk, Ok};
ghost use Rattle.moo_eval_frame.specs.declared.frame.TraceFrame.{TraceFrame};
ghost use Rattle.moo_eval_frame.specs.declared.frame.TraceEntry.{TraceEntry};
ghost use Rattle.moo_eval_frame.specs.declared.frame.TraceEntry.TheVariants.{Verb};
ghost use Rattle.moo_eval_frame.specs.Seen.{IsKnownFailure};
ghost use Rattle.moo_eval_access.specs.SeenCalled.{entered_of, found_of};
ghost use Rattle.moo_eval_semantics.specs.Progressing.{hook, through};
ghost use Rattle.moo_eval_hook.specs.SeenByHooks.{calling_of, seen_progress, arguments_of};
ghost use Rattle.moo_eval_access.specs.Entering.{found_verb};

use crate::progress::Progress;
use moo_eval_access::{Called, Found, called_verb, enter_found};
use moo_eval_frame::{Activation, CallStack, Failure};
use moo_eval_semantics::Stage;
use moo_value::{MooList, MooStr, Value};
use moo_world::World;
use std::alloc::{AllocError, Global};

/// Calls a verb of an object for a function, with an object as its argument, or without arguments: E_MAXREC if no
/// frame is left. If there is no such executable verb, the stage comes at once, and nothing is made for the call.
pub(crate) fn hook<'a>(
    alloc: Global,
    world: &World,
    stack: &'a CallStack<'_>,
    active: &Activation,
    function: &'static str,
    o: i32,
    name: &str,
    what: Option<i32>,
    stage: Stage,
) -> Result<Progress<'a>, Failure>
    ensures { IsKnownFailure result → hook (calling_of stack.now active.now) world.now function.now o name.now (arguments_of what) stage ≡ seen_progress result }
{
    match called_verb(world, o, name.as_bytes()) {
        Some(found) => call_found(
            alloc, world, stack, active, function, o, found, name, what, stage,
        ),
        None => Ok(Progress::StageNext(stage)),
    }
}

// Calls a verb that was found.
fn call_found<'a>(
    alloc: Global,
    world: &World,
    stack: &'a CallStack<'_>,
    active: &Activation,
    function: &'static str,
    o: i32,
    found: Found<'_>,
    name: &str,
    what: Option<i32>,
    stage: Stage,
) -> Result<Progress<'a>, Failure>
    ensures { found_verb world.now o name.now ≡ Ok (found_of found.entry) → IsKnownFailure result → hook (calling_of stack.now active.now) world.now function.now o name.now (arguments_of what) stage ≡ seen_progress result }
{
    let verb = name_of_hook(alloc, &found.verb.names, name)?;
    let args = arguments(alloc, what)?;
    let called = enter_found(alloc, world, stack, active, o, found, &verb, args)?;
    Ok(Progress::verb_next(alloc, through(function, called), stage)?)
}

/// Puts the entry of a function between an entered verb and its caller. The caller is a frame of a verb.
pub(crate) fn through<'a>(function: &'static str, called: Called<'a>) -> Called<'a>
    ensures { (f : TraceFrame) (rest : List TraceEntry) → called.entry.stack.callers ≡ Verb f ∷ rest → entered_of result ≡ through function.now (entered_of called.entry) }
{
    let Called { stack, given } = called;
    let CallStack {
        running,
        callers,
        surroundings,
    } = stack;
    Called {
        stack: CallStack {
            running,
            callers: callers.through(function),
            surroundings,
        },
        given,
    }
}

// Returns the name by which a verb is called. If it is the verb's only name, they share its bytes.
fn name_of_hook(alloc: Global, names: &MooStr, name: &str) -> Result<MooStr, AllocError>
    ensures { IfOk result (λ s. s ≡ name.now) }
{
    if names.as_bytes() == name.as_bytes() {
        return names.try_clone();
    }
    text(alloc, name)
}

/// Returns a string of these bytes.
pub(crate) fn text(alloc: Global, bytes: &str) -> Result<MooStr, AllocError>
    ensures { IfOk result (λ s. s ≡ bytes.now) }
{
    MooStr::try_from_bytes(alloc, bytes.as_bytes()).map_err(|_| AllocError)
}

// Returns the arguments of a verb: an object, or nothing.
fn arguments(alloc: Global, what: Option<i32>) -> Result<MooList, AllocError>
    ensures { IfOk result (λ args. args ≡ arguments_of what) }
{
    let mut args = Vec::new(alloc);
    if let Some(o) = what {
        args.push(Value::Obj(o))?;
    }
    MooList::try_from_vec(alloc, args).map_err(|_| AllocError)
}
