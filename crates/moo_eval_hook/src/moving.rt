//! `move`: 'Object Movement' of the LambdaMOO Programmer's Manual, 'Functions that call verbs' of
//! docs/reference/language.md. If no frame is left for a verb that is to be called, E_MAXREC is raised; earlier changes
//! stay.
ghost use Rattle.std.specs.Prelude.{◌≡◌};
ghost use Rattle.moo_eval_frame.specs.Seen.{IsKnownFailure};
ghost use Rattle.moo_eval_semantics.specs.Moving.{move_calls, is_to_move, moved, moving, may_enter, accepted, has_come, after_leaving};
ghost use Rattle.moo_eval_hook.specs.SeenByHooks.{calling_of, seen_progress};

use crate::hook::hook;
use crate::objects::{is_nowhere, is_place, location};
use crate::progress::{Progress, as_outcome};
use moo_eval_frame::{Activation, CallStack, Failure};
use moo_eval_semantics::Stage;
use moo_value::{ErrorCode, Value};
use moo_world::{Rights, World};
use std::alloc::Global;

/// Begins to move an object. E_INVARG if the place is neither an object nor #-1, then E_PERM if the programmer neither
/// owns the object nor is a wizard. Then the place's `accept` is called; with #-1 the object moves at once.
pub(crate) fn begin_move<'a>(
    alloc: Global,
    world: &mut World,
    stack: &'a CallStack<'_>,
    active: &Activation,
    what: i32,
    to: i32,
) -> Result<Progress<'a>, Failure>
    ensures { IsKnownFailure result → moving (calling_of stack.now active.now) world.old what to ≡ (seen_progress result, world.new) }
{
    if !is_place(world, to) {
        return Err(Failure::Fails(ErrorCode::InvalidArgument));
    }
    if !Rights::may_own(world, active.programmer, what) {
        return Err(Failure::Fails(ErrorCode::Permission));
    }
    if is_nowhere(to) {
        return move_object(alloc, world, stack, active, what, to);
    }
    let stage = Stage::Accepting(what, to);
    call_verb(alloc, world, stack, active, to, "accept", what, stage)
}

/// Goes on after the place's `accept`. E_NACC if the place doesn't accept and the programmer is no wizard. If the
/// object is there already, or one of the two was recycled, the value is 0. E_RECMOVE if the place is the object or in
/// it. Else the object moves, and the `exitfunc` of the place that it leaves is called.
pub(crate) fn accept<'a>(
    alloc: Global,
    world: &mut World,
    stack: &'a CallStack<'_>,
    active: &Activation,
    what: i32,
    to: i32,
    answer: bool,
) -> Result<Progress<'a>, Failure>
    ensures { IsKnownFailure result → accepted (calling_of stack.now active.now) world.old what to answer ≡ (seen_progress result, world.new) }
{
    if !may_enter(world, active.programmer, answer) {
        return Err(Failure::Fails(ErrorCode::NotAccepted));
    }
    move_object(alloc, world, stack, active, what, to)
}

fn may_enter(world: &World, programmer: i32, answer: bool) -> bool
    ensures { result ≡ may_enter world.now programmer answer }
{
    answer || Rights::is_wizard(world, programmer)
}

// Moves the object, if it isn't there and both are still valid: E_RECMOVE if the place is the object or in it. The
// `exitfunc` of the place that it leaves is called.
fn move_object<'a>(
    alloc: Global,
    world: &mut World,
    stack: &'a CallStack<'_>,
    active: &Activation,
    what: i32,
    to: i32,
) -> Result<Progress<'a>, Failure>
    ensures { IsKnownFailure result → moved (calling_of stack.now active.now) world.old what to ≡ (seen_progress result, world.new) }
{
    if !is_to_move(world, what, to) {
        return Ok(Progress::Done(Value::Int(0)));
    }
    let old = location(world, what);
    as_outcome(world.move_bare(what, to))?;
    let stage = Stage::Leaving(what, to);
    call_verb(alloc, world, stack, active, old, "exitfunc", what, stage)
}

fn is_to_move(world: &World, what: i32, to: i32) -> bool
    ensures { result ≡ is_to_move world.now what to }
{
    world.valid(what) && is_place(world, to) && location(world, what) != to
}

/// Goes on after the old place's `exitfunc`. If the object is still in the new place, the `enterfunc` of that place is
/// called; else the value is 0.
pub(crate) fn leave<'a>(
    alloc: Global,
    world: &World,
    stack: &'a CallStack<'_>,
    active: &Activation,
    what: i32,
    to: i32,
) -> Result<Progress<'a>, Failure>
    ensures { IsKnownFailure result → after_leaving (calling_of stack.now active.now) world.now what to ≡ (seen_progress result, world.now) }
{
    if !has_come(world, what, to) {
        return Ok(Progress::Done(Value::Int(0)));
    }
    let stage = Stage::Entering;
    call_verb(alloc, world, stack, active, to, "enterfunc", what, stage)
}

fn has_come(world: &World, what: i32, to: i32) -> bool
    ensures { result ≡ has_come world.now what to }
{
    world.valid(what) && world.valid(to) && location(world, what) == to
}

// Calls a verb of an object with the moved object as its argument.
fn call_verb<'a>(
    alloc: Global,
    world: &World,
    stack: &'a CallStack<'_>,
    active: &Activation,
    o: i32,
    name: &str,
    what: i32,
    stage: Stage,
) -> Result<Progress<'a>, Failure>
    ensures { IsKnownFailure result → move_calls (calling_of stack.now active.now) world.now o name.now what stage ≡ (seen_progress result, world.now) }
{
    hook(
        alloc,
        world,
        stack,
        active,
        "move",
        o,
        name,
        Some(what),
        stage,
    )
}
