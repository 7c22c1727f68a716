//! Evaluates the arguments of calls.
ghost use Rattle.std.specs.Prelude.{◌≡◌, ◌≤◌, false};
ghost use Rattle.std.specs.List.{list_any};
ghost use Rattle.moo_value.specs.View.{trees};
ghost use Rattle.moo_syntax_node.specs.Source.{source_items};
ghost use Rattle.moo_builtin.specs.Telling.{Faults};
ghost use Rattle.moo_eval_semantics.specs.Meaning.{EvaluatesAll};
ghost use Rattle.moo_eval_frame.specs.Seen.{context_of, seen_by, IsKnownFailure};
ghost use Rattle.moo_eval_task.specs.Arguments.{Collects, is_splice};
ghost use Rattle.moo_eval_task.specs.Seen.{state_of};

use crate::interpreter::{evaluate, evaluate_all};
use moo_eval_frame::{Activation, CallStack, Failure};
use moo_eval_task::{Task, has_splice, push};
use moo_syntax_node::NodeItem;
use moo_value::{ErrorCode, Value};
use moo_world::World;

/// Evaluates the arguments of a call of a verb into `values`, in place of those that it holds. It fails with
/// E_QUOTA, before it copies an element, if the spliced lists are too heavy together. Inlined, so that other
/// arguments need no call.
#[cycle(evaluation)]
#[inline(always)]
pub(crate) fn evaluate_arguments(
    task: &mut Task,
    world: &mut World,
    active: &mut Activation,
    stack: &CallStack<'_>,
    indexed: Option<&Value>,
    items: &[NodeItem],
    values: &mut Vec<Value>,
) -> Result<(), Failure>
    ensures meaning { IsKnownFailure result → Collects Faults (context_of stack.now indexed.entry) (source_items items.now) (state_of task.old world.old active.old) (seen_by (λ done. trees values.new.items) result) (state_of task.new world.new active.new) }
    ensures ticks { task.new.ticks_left ≤ task.old.ticks_left }
{
    if has_splice(items) {
        *values = splice_arguments(task, world, active, stack, indexed, items)?;
        return Ok(());
    }
    evaluate_elements(task, world, active, stack, indexed, items, values)
}

/// Evaluates items without a splice, from left to right, into `values`, in place of those that it holds.
#[cycle(evaluation)]
#[inline(always)]
pub(crate) fn evaluate_elements(
    task: &mut Task,
    world: &mut World,
    active: &mut Activation,
    stack: &CallStack<'_>,
    indexed: Option<&Value>,
    items: &[NodeItem],
    values: &mut Vec<Value>,
) -> Result<(), Failure>
    requires { list_any is_splice items.now ≡ false }
    ensures meaning { IsKnownFailure result → EvaluatesAll Faults (context_of stack.now indexed.entry) (source_items items.now) (state_of task.old world.old active.old) (seen_by (λ done. trees values.new.items) result) (state_of task.new world.new active.new) }
    ensures ticks { task.new.ticks_left ≤ task.old.ticks_left }
{
    values.clear();
    values.reserve(items.len())?;
    for item in items {
        match item {
            NodeItem::Element(node) => {
                let value = evaluate(task, world, active, stack, indexed, node)?;
                push(values, value)?;
            }
            // The `requires` excludes splices.
            NodeItem::Splice(_node) => return Err(Failure::Fails(ErrorCode::TypeMismatch)),
            NodeItem::Optional(_) | NodeItem::Defaulted(_, _) => {
                return Err(Failure::Fails(ErrorCode::TypeMismatch));
            }
        }
    }
    Ok(())
}

// Evaluates items with a splice. Not inlined, so that other calls need no stack space for it.
#[cycle(evaluation)]
#[inline(never)]
fn splice_arguments(
    task: &mut Task,
    world: &mut World,
    active: &mut Activation,
    stack: &CallStack<'_>,
    indexed: Option<&Value>,
    items: &[NodeItem],
) -> Result<Vec<Value>, Failure>
    ensures meaning { IsKnownFailure result → Collects Faults (context_of stack.now indexed.entry) (source_items items.now) (state_of task.old world.old active.old) (seen_by (λ values. trees values.items) result) (state_of task.new world.new active.new) }
    ensures ticks { task.new.ticks_left ≤ task.old.ticks_left }
{
    let room = task.spare.take_values();
    let values = evaluate_all(task, world, active, stack, indexed, items, room)?;
    values.into_arguments(task.alloc())
}
