//! `recycle`: 'Fundamental Operations on Objects' of the LambdaMOO Programmer's Manual, 'Functions that call verbs' of
//! docs/reference/language.md. If no frame is left for a verb that is to be called, E_MAXREC is raised; earlier changes
//! stay.
ghost use Rattle.std.specs.Prelude.{◌≡◌};
ghost use Rattle.moo_eval_frame.specs.Seen.{IsKnownFailure};
ghost use Rattle.moo_eval_semantics.specs.Objects.{first_inside};
ghost use Rattle.moo_eval_semantics.specs.Recycling.{recycle_calls, recycling, owner_of, taken_away, moved_out, emptied};
ghost use Rattle.moo_eval_hook.specs.SeenByHooks.{calling_of, seen_progress, arguments_of};

use crate::hook::hook;
use crate::objects::first_inside;
use crate::progress::{Progress, as_outcome};
use crate::quota::{change_quota, quota};
use moo_eval_frame::{Activation, CallStack, Failure};
use moo_eval_semantics::Stage;
use moo_value::ErrorCode;
use moo_world::{Rights, World};
use std::alloc::Global;

/// Begins to recycle an object: E_PERM if the programmer neither owns it nor is a wizard. Its `recycle` is called.
pub(crate) fn begin_recycling<'a>(
    alloc: Global,
    world: &World,
    stack: &'a CallStack<'_>,
    active: &Activation,
    o: i32,
) -> Result<Progress<'a>, Failure>
    ensures { IsKnownFailure result → recycling (calling_of stack.now active.now) world.now o ≡ (seen_progress result, world.now) }
{
    if !Rights::may_own(world, active.programmer, o) {
        return Err(Failure::Fails(ErrorCode::Permission));
    }
    call_verb(alloc, world, stack, active, o, "recycle", None)
}

/// Moves the first of the object's contents out, and calls the object's `exitfunc`. If it has no contents the object
/// is removed, and no longer counts in its owner's quota: E_INVARG if a verb has recycled it before.
pub(crate) fn empty<'a>(
    alloc: Global,
    world: &mut World,
    stack: &'a CallStack<'_>,
    active: &Activation,
    o: i32,
) -> Result<Progress<'a>, Failure>
    ensures { IsKnownFailure result → emptied (calling_of stack.now active.now) world.old o (first_inside world.old o) ≡ (seen_progress result, world.new) }
{
    match first_inside(world, o) {
        Some(inside) => move_out(alloc, world, stack, active, o, inside),
        None => take_away(alloc, world, o),
    }
}

fn move_out<'a>(
    alloc: Global,
    world: &mut World,
    stack: &'a CallStack<'_>,
    active: &Activation,
    o: i32,
    inside: i32,
) -> Result<Progress<'a>, Failure>
    ensures { IsKnownFailure result → moved_out (calling_of stack.now active.now) world.old o inside ≡ (seen_progress result, world.new) }
{
    as_outcome(world.move_bare(inside, -1))?;
    call_verb(alloc, world, stack, active, o, "exitfunc", Some(inside))
}

// Removes the object. It no longer counts in its owner's quota, which is read once the object is gone.
fn take_away<'a>(alloc: Global, world: &mut World, o: i32) -> Result<Progress<'a>, Failure>
    ensures { IsKnownFailure result → taken_away world.old o ≡ (seen_progress result, world.new) }
{
    let owner = owner_of(world, o);
    as_outcome(world.recycle_bare(alloc, o))?;
    let left = quota(alloc, world, owner)?;
    change_quota(world, owner, left, 1);
    Ok(Progress::StageNext(Stage::Recycled(o)))
}

fn owner_of(world: &World, o: i32) -> i32
    ensures { result ≡ owner_of world.now o }
{
    match world.object(o) {
        Some(object) => object.owner(),
        None => 0,
    }
}

// Calls a verb of the object, after which its contents are moved out.
fn call_verb<'a>(
    alloc: Global,
    world: &World,
    stack: &'a CallStack<'_>,
    active: &Activation,
    o: i32,
    name: &str,
    what: Option<i32>,
) -> Result<Progress<'a>, Failure>
    ensures { IsKnownFailure result → recycle_calls (calling_of stack.now active.now) world.now o name.now (arguments_of what) ≡ (seen_progress result, world.now) }
{
    let stage = Stage::Emptying(o);
    hook(alloc, world, stack, active, "recycle", o, name, what, stage)
}
