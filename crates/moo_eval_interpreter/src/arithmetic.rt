//! Evaluates operators between integers, variables, their elements, lengths and types, and such operators. They are
//! computed from integers alone if that can be, and else node by node.
ghost use Rattle.std.specs.Prelude.{◌≤◌, Ok};
ghost use Rattle.moo_syntax_ast.specs.Tree.{binary};
ghost use Rattle.moo_syntax_node.specs.Source.{source};
ghost use Rattle.moo_eval_frame.specs.Seen.{context_of, seen_answer, seen_value, IsKnown, IsKnownFailure};
ghost use Rattle.moo_builtin.specs.Telling.{Faults};
ghost use Rattle.moo_eval_semantics.specs.Meaning.{Evaluates, Computes};
ghost use Rattle.moo_eval_task.specs.Seen.{state_of};

use crate::interpreter::evaluate;
use crate::nodes::evaluate_parts;
use moo_eval_access::binary_in_place;
use moo_eval_frame::{Activation, CallStack, Failure, Stop};
use moo_eval_task::Task;
use moo_syntax_ast::operator::BinaryOperator;
use moo_syntax_node::Node;
use moo_value::Value;
use moo_world::World;

/// Computes an operator, whose tick was taken, node by node.
#[cycle(evaluation)]
#[inline(never)]
pub(crate) fn arithmetic(
    task: &mut Task,
    world: &mut World,
    active: &mut Activation,
    stack: &CallStack<'_>,
    indexed: Option<&Value>,
    operator: BinaryOperator,
    left: &Node,
    right: &Node,
) -> Result<Value, Failure>
    ensures meaning { IsKnownFailure result → Computes Faults (context_of stack.now indexed.entry) (binary operator (source left.now) (source right.now)) (state_of task.old world.old active.old) (seen_answer result) (state_of task.new world.new active.new) }
    ensures ticks { task.new.ticks_left ≤ task.old.ticks_left }
{
    let left = evaluate_tried(task, world, active, stack, indexed, left)?;
    let right = evaluate_tried(task, world, active, stack, indexed, right)?;
    Ok(binary_in_place(task.alloc(), operator, left, &right)?)
}

/// Evaluates a node that couldn't be computed at once, or a part of one. It doesn't try an operator again, so the time
/// of a statement is linear in its size. Inlined, so that a variable or an integer needs no call.
#[cycle(evaluation)]
#[inline(always)]
pub(crate) fn evaluate_tried(
    task: &mut Task,
    world: &mut World,
    active: &mut Activation,
    stack: &CallStack<'_>,
    indexed: Option<&Value>,
    node: &Node,
) -> Result<Value, Stop>
    ensures meaning { IsKnown result → Evaluates Faults (context_of stack.now indexed.entry) (source node.now) (state_of task.old world.old active.old) (seen_value result) (state_of task.new world.new active.new) }
    ensures ticks { task.new.ticks_left ≤ task.old.ticks_left }
{
    match node {
        Node::Arithmetic(..) => evaluate_parts(task, world, active, stack, indexed, node),
        _ => evaluate(task, world, active, stack, indexed, node),
    }
}
