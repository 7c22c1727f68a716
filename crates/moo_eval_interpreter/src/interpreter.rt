//! Evaluates expressions.
ghost use Rattle.std.specs.Prelude.{◌-◌, ◌<◌, ◌≤◌, Ok, Err};
ghost use Rattle.moo_syntax_node.specs.Source.{source, source_items};
ghost use Rattle.moo_eval_semantics.specs.Meaning.{Evaluates, EvaluatesAll};
ghost use Rattle.moo_eval_frame.specs.Seen.{context_of, seen_value, seen_by, IsKnown, IsKnownFailure};
ghost use Rattle.moo_builtin.specs.Telling.{Faults};
ghost use Rattle.moo_eval_task.specs.Seen.{state_of};

use crate::nodes::evaluate_node;
use moo_eval_frame::{Activation, CallStack, Failure, Gathered, Stop};
use moo_eval_task::Task;
use moo_syntax_node::{Node, NodeItem};
use moo_value::{ErrorCode, Value};
use moo_world::World;

/// Returns the value of an expression, which takes a tick as it begins. `indexed` is the value that `$` measures. Err
/// is a raised error, or that ticks or memory ran out. Inlined, so that a variable or an integer needs no call.
#[cycle(evaluation)]
#[inline(always)]
pub fn evaluate(
    task: &mut Task,
    world: &mut World,
    active: &mut Activation,
    stack: &CallStack<'_>,
    indexed: Option<&Value>,
    node: &Node,
) -> Result<Value, Stop>
    ensures meaning { IsKnown result → Evaluates Faults (context_of stack.now indexed.entry) (source node.now) (state_of task.old world.old active.old) (seen_value result) (state_of task.new world.new active.new) }
    ensures ticks { task.new.ticks_left ≤ task.old.ticks_left }
{
    if let Some(value) = task.try_leaf(active, node) {
        return Ok(value);
    }
    evaluate_node(task, world, active, stack, indexed, node)
}

/// Evaluates items from left to right, in this memory, whose values are dropped. E_TYPE for a splice of a value that is
/// no list. Inlined, so that nested lists and calls need its stack space once.
#[cycle(evaluation)]
#[inline(always)]
pub(crate) fn evaluate_all(
    task: &mut Task,
    world: &mut World,
    active: &mut Activation,
    stack: &CallStack<'_>,
    indexed: Option<&Value>,
    items: &[NodeItem],
    memory: Vec<Value>,
) -> Result<Gathered, Failure>
    ensures meaning { IsKnownFailure result → EvaluatesAll Faults (context_of stack.now indexed.entry) (source_items items.now) (state_of task.old world.old active.old) (seen_by (λ values. values) result) (state_of task.new world.new active.new) }
    ensures ticks { task.new.ticks_left ≤ task.old.ticks_left }
{
    let mut values = Gathered::with_memory(task.alloc(), memory, items.len())?;
    for item in items {
        match item {
            NodeItem::Element(node) => {
                let value = evaluate(task, world, active, stack, indexed, node)?;
                values.push(value)?;
            }
            NodeItem::Splice(node) => {
                let value = evaluate(task, world, active, stack, indexed, node)?;
                values.splice(task.alloc(), value)?;
            }
            NodeItem::Optional(_) | NodeItem::Defaulted(_, _) => {
                return Err(Failure::Fails(ErrorCode::TypeMismatch));
            }
        }
    }
    Ok(values)
}
