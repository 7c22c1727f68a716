//! The stages that follow once a verb has returned.
ghost use Rattle.std.specs.Prelude.{◌≡◌, ◌≤◌, ℕ, None, IfOk, OnOk};
ghost use Rattle.moo_value.specs.View.{tree};
ghost use Rattle.moo_eval_frame.specs.Seen.{context_of, IsKnownFailure};
ghost use Rattle.moo_eval_access.specs.SeenState.{state_at};
ghost use Rattle.moo_eval_semantics.specs.Stages.{next_progress, noticed, resumed};
ghost use Rattle.moo_eval_hook.specs.SeenByHooks.{calling_of, progress_of, seen_progress};
ghost use Rattle.moo_eval_hook.specs.Turns.{stage_turns, progress_turns};

use crate::evaluating::has_given;
use crate::moving::{accept, leave};
use crate::progress::Progress;
use crate::recycling::empty;
use moo_builtin_operator::is_true;
use moo_eval_frame::{Activation, CallStack, Failure, Notice};
use moo_eval_semantics::Stage;
use moo_value::Value;
use moo_world::World;
use std::alloc::{AllocError, Global};

/// Continues a function at a stage, with the value of the verb before it, and returns what comes next. Raises the
/// errors of the stage (`accept`, `leave`, `empty`, and E_QUOTA of the value of `eval`); earlier changes stay. Adds the
/// notice of a recycled object. As long as no verb changes the world, fewer stages are left after it.
pub fn resume_call<'a>(
    alloc: Global,
    world: &mut World,
    stack: &'a CallStack<'_>,
    active: &Activation,
    notices: &mut Vec<Notice>,
    stage: Stage,
    answer: Value,
) -> Result<Progress<'a>, Failure>
    ensures meaning { (ticks : ℕ) → IsKnownFailure result → resumed (context_of stack.now None) stage (tree answer) (state_at ticks notices.old.items world.old active.now) ≡ (seen_progress result, state_at ticks notices.new.items world.new active.now) }
    ensures fewer { IfOk result (λ next. progress_turns world.new (progress_of next) ≤ stage_turns world.old stage) }
{
    // For the proof alone: the trees of the world are whole, which bounds what is left to do.
    world.is_well_formed();
    notice(notices, stage)?;
    next_progress(alloc, world, stack, active, stage, answer)
}

// Leaves the notice of a recycled object, once its verbs have run.
fn notice(notices: &mut Vec<Notice>, stage: Stage) -> Result<(), AllocError>
    ensures { OnOk result (notices.new.items ≡ noticed stage notices.old.items) }
{
    if let Stage::Recycled(o) = stage {
        notices.push(Notice::Recycle(o))?;
    }
    Ok(())
}

fn next_progress<'a>(
    alloc: Global,
    world: &mut World,
    stack: &'a CallStack<'_>,
    active: &Activation,
    stage: Stage,
    answer: Value,
) -> Result<Progress<'a>, Failure>
    ensures { IsKnownFailure result → next_progress (calling_of stack.now active.now) world.old stage (tree answer) ≡ (seen_progress result, world.new) }
{
    match stage {
        Stage::Passed => Ok(Progress::Done(answer)),
        Stage::Created(o) => Ok(Progress::Done(Value::Obj(o))),
        Stage::Accepting(what, to) => {
            let answer = is_true(&answer);
            accept(alloc, world, stack, active, what, to, answer)
        }
        Stage::Leaving(what, to) => leave(alloc, world, stack, active, what, to),
        Stage::Entering => Ok(Progress::Done(Value::Int(0))),
        Stage::Emptying(o) => empty(alloc, world, stack, active, o),
        Stage::Recycled(_) => Ok(Progress::Done(Value::Int(0))),
        Stage::Evaluated => Ok(Progress::Done(has_given(alloc, answer)?)),
    }
}
