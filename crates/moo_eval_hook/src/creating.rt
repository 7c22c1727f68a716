//! `create`: 'Fundamental Operations on Objects' of the LambdaMOO Programmer's Manual, 'Functions that call verbs' of
//! docs/reference/language.md.
ghost use Rattle.std.specs.Prelude.{◌≡◌};
ghost use Rattle.moo_eval_frame.specs.Seen.{IsKnownFailure};
ghost use Rattle.moo_eval_semantics.specs.Creating.{may_be_parent, owner_of_new, creating};
ghost use Rattle.moo_eval_hook.specs.SeenByHooks.{calling_of, seen_progress};

use crate::hook::hook;
use crate::progress::{Progress, as_outcome};
use crate::quota::{change_quota, is_used_up, quota};
use moo_eval_frame::{Activation, CallStack, Failure};
use moo_eval_semantics::Stage;
use moo_value::ErrorCode;
use moo_world::{Rights, World};
use std::alloc::Global;

/// Makes an object. E_PERM if the programmer may not make an object inherit from the parent. Then E_QUOTA if the owner
/// may not own more or there is no number left. Then E_PERM if the programmer is neither the owner nor a wizard. The
/// object counts in its owner's quota, and its `initialize` is called: E_MAXREC if no frame is left for it; the object
/// stays.
pub(crate) fn create<'a>(
    alloc: Global,
    world: &mut World,
    stack: &'a CallStack<'_>,
    active: &Activation,
    up: i32,
    owner: i32,
) -> Result<Progress<'a>, Failure>
    ensures { IsKnownFailure result → creating (calling_of stack.now active.now) world.old up owner ≡ (seen_progress result, world.new) }
{
    if !may_be_parent(world, active.programmer, up) {
        return Err(Failure::Fails(ErrorCode::Permission));
    }
    let left = quota(alloc, world, owner)?;
    if is_used_up(left) {
        return Err(Failure::Fails(ErrorCode::Quota));
    }
    as_outcome(world.try_create(up))?;
    if !Rights::controls(world, active.programmer, owner) {
        return Err(Failure::Fails(ErrorCode::Permission));
    }
    let owner_of_new = owner_of_new(world, owner);
    let o = as_outcome(world.create(alloc, up, owner_of_new))?;
    change_quota(world, owner, left, -1);
    hook(
        alloc,
        world,
        stack,
        active,
        "create",
        o,
        "initialize",
        None,
        Stage::Created(o),
    )
}

// Returns whether the programmer may make an object inherit from another, or from none.
fn may_be_parent(world: &World, programmer: i32, to: i32) -> bool
    ensures { result ≡ may_be_parent world.now programmer to }
{
    to == -1 || Rights::may_inherit_from(world, programmer, to)
}

// Returns the owner of a new object; #-1 means the new object itself.
fn owner_of_new(world: &World, owner: i32) -> i32
    ensures { result ≡ owner_of_new world.now owner }
{
    if owner != -1 {
        return owner;
    }
    // For the proof alone: the length fits in 32 bits.
    world.is_well_formed();
    world.objects().len() as i32
}
