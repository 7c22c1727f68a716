//! `pass`: 'Object-Oriented Programming' of the LambdaMOO Programmer's Manual, 'Functions that call verbs' of
//! docs/reference/language.md.
ghost use Rattle.std.specs.Prelude.{◌≡◌};
ghost use Rattle.moo_value.specs.View.{trees};
ghost use Rattle.moo_eval_frame.specs.Seen.{IsKnownFailure};
ghost use Rattle.moo_eval_semantics.specs.Passing.{passing};
ghost use Rattle.moo_eval_hook.specs.SeenByHooks.{calling_of, seen_progress};

use crate::objects::parent;
use crate::progress::Progress;
use moo_eval_access::enter_verb_from;
use moo_eval_frame::{Activation, CallStack, Failure};
use moo_eval_semantics::Stage;
use moo_value::Value;
use moo_world::World;
use std::alloc::Global;

/// Calls the verb with the name of the running one that is found from the parent of its definer on. E_QUOTA for a list
/// of arguments past the limits, E_INVIND if there is no parent. E_VERBNF if the parent has no such executable verb,
/// E_MAXREC if no frame is left.
pub(crate) fn pass<'a>(
    alloc: Global,
    world: &World,
    stack: &'a CallStack<'_>,
    active: &Activation,
    args: Vec<Value>,
) -> Result<Progress<'a>, Failure>
    ensures { IsKnownFailure result → passing (calling_of stack.now active.now) world.now (trees args.items) ≡ seen_progress result }
{
    let frame = &stack.running;
    let from = parent(world, frame.definer);
    let called = enter_verb_from(
        alloc,
        world,
        stack,
        active,
        frame.this,
        from,
        &frame.verb,
        args,
    )?;
    Ok(Progress::verb_next(alloc, called, Stage::Passed)?)
}
