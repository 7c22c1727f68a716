//! Evaluates operators, indexes, ranges and lists.
ghost use Rattle.std.specs.Prelude.{◌≤◌, Ok};
ghost use Rattle.moo_syntax_ast.specs.Tree.{unary, binary, index, range, list};
ghost use Rattle.moo_syntax_node.specs.Source.{source, source_items};
ghost use Rattle.moo_eval_frame.specs.Seen.{context_of, seen_answer, IsKnownFailure};
ghost use Rattle.moo_builtin.specs.Telling.{Faults};
ghost use Rattle.moo_eval_semantics.specs.Meaning.{Computes};
ghost use Rattle.moo_eval_task.specs.Seen.{state_of};

use crate::interpreter::{evaluate, evaluate_all};
use moo_builtin_operator as operation;
use moo_eval_access::binary_in_place;
use moo_eval_frame::{Activation, CallStack, Failure};
use moo_eval_task::{Task, listed};
use moo_syntax_ast::operator::{BinaryOperator, UnaryOperator};
use moo_syntax_node::{Node, NodeItem};
use moo_value::Value;
use moo_world::World;

#[cycle(evaluation)]
#[inline(never)]
pub(crate) fn unary(
    task: &mut Task,
    world: &mut World,
    active: &mut Activation,
    stack: &CallStack<'_>,
    indexed: Option<&Value>,
    operator: UnaryOperator,
    operand: &Node,
) -> Result<Value, Failure>
    ensures meaning { IsKnownFailure result → Computes Faults (context_of stack.now indexed.entry) (unary operator (source operand.now)) (state_of task.old world.old active.old) (seen_answer result) (state_of task.new world.new active.new) }
    ensures ticks { task.new.ticks_left ≤ task.old.ticks_left }
{
    let operand = evaluate(task, world, active, stack, indexed, operand)?;
    Ok(operation::unary(operator, &operand)?)
}

#[cycle(evaluation)]
#[inline(never)]
pub(crate) fn binary(
    task: &mut Task,
    world: &mut World,
    active: &mut Activation,
    stack: &CallStack<'_>,
    indexed: Option<&Value>,
    operator: BinaryOperator,
    left: &Node,
    right: &Node,
) -> Result<Value, Failure>
    ensures meaning { IsKnownFailure result → Computes Faults (context_of stack.now indexed.entry) (binary operator (source left.now) (source right.now)) (state_of task.old world.old active.old) (seen_answer result) (state_of task.new world.new active.new) }
    ensures ticks { task.new.ticks_left ≤ task.old.ticks_left }
{
    let left = evaluate(task, world, active, stack, indexed, left)?;
    let right = evaluate(task, world, active, stack, indexed, right)?;
    Ok(binary_in_place(task.alloc(), operator, left, &right)?)
}

// Evaluates `base[index]`; in the index `$` is the length of the base.
#[cycle(evaluation)]
#[inline(never)]
pub(crate) fn index(
    task: &mut Task,
    world: &mut World,
    active: &mut Activation,
    stack: &CallStack<'_>,
    indexed: Option<&Value>,
    base: &Node,
    place: &Node,
) -> Result<Value, Failure>
    ensures meaning { IsKnownFailure result → Computes Faults (context_of stack.now indexed.entry) (index (source base.now) (source place.now)) (state_of task.old world.old active.old) (seen_answer result) (state_of task.new world.new active.new) }
    ensures ticks { task.new.ticks_left ≤ task.old.ticks_left }
{
    let base = evaluate(task, world, active, stack, indexed, base)?;
    let place = evaluate(task, world, active, stack, Some(&base), place)?;
    Ok(operation::index(task.alloc(), &base, &place)?)
}

#[cycle(evaluation)]
#[inline(never)]
pub(crate) fn range(
    task: &mut Task,
    world: &mut World,
    active: &mut Activation,
    stack: &CallStack<'_>,
    indexed: Option<&Value>,
    base: &Node,
    low: &Node,
    high: &Node,
) -> Result<Value, Failure>
    ensures meaning { IsKnownFailure result → Computes Faults (context_of stack.now indexed.entry) (range (source base.now) (source low.now) (source high.now)) (state_of task.old world.old active.old) (seen_answer result) (state_of task.new world.new active.new) }
    ensures ticks { task.new.ticks_left ≤ task.old.ticks_left }
{
    let base = evaluate(task, world, active, stack, indexed, base)?;
    let low = evaluate(task, world, active, stack, Some(&base), low)?;
    let high = evaluate(task, world, active, stack, Some(&base), high)?;
    Ok(operation::range(task.alloc(), &base, &low, &high)?)
}

#[cycle(evaluation)]
#[inline(never)]
pub(crate) fn list(
    task: &mut Task,
    world: &mut World,
    active: &mut Activation,
    stack: &CallStack<'_>,
    indexed: Option<&Value>,
    items: &[NodeItem],
) -> Result<Value, Failure>
    ensures meaning { IsKnownFailure result → Computes Faults (context_of stack.now indexed.entry) (list (source_items items.now)) (state_of task.old world.old active.old) (seen_answer result) (state_of task.new world.new active.new) }
    ensures ticks { task.new.ticks_left ≤ task.old.ticks_left }
{
    let room = Vec::new(task.alloc());
    let values = evaluate_all(task, world, active, stack, indexed, items, room)?;
    listed(task.alloc(), values)
}
