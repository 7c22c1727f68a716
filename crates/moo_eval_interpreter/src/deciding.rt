//! Evaluates operators and conditionals of which only some parts are evaluated.
ghost use Rattle.std.specs.Prelude.{◌≤◌, None};
ghost use Rattle.moo_syntax_ast.specs.Tree.{logic, conditional, performs};
ghost use Rattle.moo_syntax_node.specs.Source.{source};
ghost use Rattle.moo_eval_frame.specs.Seen.{context_of, seen_answer, seen_flow, IsKnown, IsKnownFailure};
ghost use Rattle.moo_builtin.specs.Telling.{Faults};
ghost use Rattle.moo_eval_semantics.specs.Meaning.{Computes, Does};
ghost use Rattle.moo_eval_task.specs.Seen.{state_of};

use crate::assignment::assign_value;
use crate::conditions::passes;
use crate::interpreter::evaluate;
use crate::statement::evaluate_alone;
use moo_builtin_operator::is_decided;
use moo_eval_frame::{Activation, CallStack, Failure, Flow, Stop};
use moo_eval_task::{Task, as_set_variable};
use moo_syntax_ast::operator::LogicOperator;
use moo_syntax_node::Node;
use moo_value::Value;
use moo_world::World;

// Evaluates the second operand only if the first doesn't decide.
#[cycle(evaluation)]
#[inline(never)]
pub(crate) fn logic(
    task: &mut Task,
    world: &mut World,
    active: &mut Activation,
    stack: &CallStack<'_>,
    indexed: Option<&Value>,
    operator: LogicOperator,
    left: &Node,
    right: &Node,
) -> Result<Value, Failure>
    ensures meaning { IsKnownFailure result → Computes Faults (context_of stack.now indexed.entry) (logic operator (source left.now) (source right.now)) (state_of task.old world.old active.old) (seen_answer result) (state_of task.new world.new active.new) }
    ensures ticks { task.new.ticks_left ≤ task.old.ticks_left }
{
    let first = evaluate(task, world, active, stack, indexed, left)?;
    if is_decided(operator, &first) {
        return Ok(first);
    }
    Ok(evaluate(task, world, active, stack, indexed, right)?)
}

/// Runs `left && right;` or `left || right;`. The second operand runs as a statement does, so that an assignment there
/// may change a list in place. Not inlined, so that nested statements need no stack space for it.
#[cycle(evaluation)]
#[inline(never)]
pub(crate) fn logic_alone(
    task: &mut Task,
    world: &mut World,
    active: &mut Activation,
    stack: &CallStack<'_>,
    operator: LogicOperator,
    left: &Node,
    right: &Node,
) -> Result<Flow, Stop>
    ensures meaning { IsKnown result → Does Faults (context_of stack.now None) (performs (logic operator (source left.now) (source right.now))) (state_of task.old world.old active.old) (seen_flow result) (state_of task.new world.new active.new) }
    ensures ticks { task.new.ticks_left ≤ task.old.ticks_left }
{
    task.take_tick(active, stack)?;
    let first = evaluate(task, world, active, stack, None, left)?;
    if is_decided(operator, &first) {
        return Ok(Flow::Next);
    }
    match as_set_variable(right) {
        Some((name, value)) => assign_value(task, world, active, stack, name, value),
        None => evaluate_alone(task, world, active, stack, right),
    }
}

// Evaluates the test, and then one of the two expressions.
#[cycle(evaluation)]
#[inline(never)]
pub(crate) fn conditional(
    task: &mut Task,
    world: &mut World,
    active: &mut Activation,
    stack: &CallStack<'_>,
    indexed: Option<&Value>,
    test: &Node,
    first: &Node,
    second: &Node,
) -> Result<Value, Failure>
    ensures meaning { IsKnownFailure result → Computes Faults (context_of stack.now indexed.entry) (conditional (source test.now) (source first.now) (source second.now)) (state_of task.old world.old active.old) (seen_answer result) (state_of task.new world.new active.new) }
    ensures ticks { task.new.ticks_left ≤ task.old.ticks_left }
{
    let passes = passes(task, world, active, stack, indexed, test)?;
    if passes {
        return Ok(evaluate(task, world, active, stack, indexed, first)?);
    }
    Ok(evaluate(task, world, active, stack, indexed, second)?)
}
