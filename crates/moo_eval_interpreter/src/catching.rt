//! Evaluates catches.
ghost use Rattle.std.specs.Prelude.{◌≤◌, Err};
ghost use Rattle.moo_syntax_node.specs.Source.{source, source_codes, source_items};
ghost use Rattle.moo_eval_control.specs.Catching.{guards};
ghost use Rattle.moo_eval_frame.specs.Seen.{context_of, seen_answer, seen_answers, seen_by, IsKnownFailure};
ghost use Rattle.moo_eval_control.specs.SeenCatching.{code_values, catch_of};
ghost use Rattle.moo_builtin.specs.Telling.{Faults};
ghost use Rattle.moo_eval_semantics.specs.Meaning.{Computes, EvaluatesAll};
ghost use Rattle.moo_eval_task.specs.Attempts.{Attempts};
ghost use Rattle.moo_eval_task.specs.Seen.{state_of};

use crate::interpreter::{evaluate, evaluate_all};
use crate::nodes::compute;
use moo_eval_frame::{Activation, CallStack, Failure};
use moo_eval_task::{Attempt, Task};
use moo_syntax_node::{Node, NodeCodes, NodeItem};
use moo_value::Value;
use moo_world::World;

// Evaluates the codes first. If they name the error, it is the value, or `other` gives the value in its place.
#[cycle(evaluation)]
#[inline(never)]
pub(crate) fn catch(
    task: &mut Task,
    world: &mut World,
    active: &mut Activation,
    stack: &CallStack<'_>,
    indexed: Option<&Value>,
    body: &Node,
    codes: &NodeCodes,
    other: &Option<Box<Node>>,
) -> Result<Value, Failure>
    ensures meaning { IsKnownFailure result → Computes Faults (context_of stack.now indexed.entry) (catch_of (source body.now) (source_codes codes.now) other.now) (state_of task.old world.old active.old) (seen_answer result) (state_of task.new world.new active.new) }
    ensures ticks { task.new.ticks_left ≤ task.old.ticks_left }
{
    let values = guards(task, world, active, stack, indexed, codes)?;
    let attempt = attempt(task, world, active, stack, indexed, body, codes, &values);
    task.spare.keep_values(values);
    match attempt? {
        Attempt::Value(value) => Ok(value),
        Attempt::Caught(code) => match other {
            None => Ok(Value::Err(code)),
            Some(other) => Ok(evaluate(task, world, active, stack, indexed, other)?),
        },
    }
}

// Returns the values of the codes of a catch. It makes none for literal errors, of which it takes only the ticks, or
// for `ANY`.
#[cycle(evaluation)]
#[inline(always)]
fn guards(
    task: &mut Task,
    world: &mut World,
    active: &mut Activation,
    stack: &CallStack<'_>,
    indexed: Option<&Value>,
    codes: &NodeCodes,
) -> Result<Vec<Value>, Failure>
    ensures meaning { IsKnownFailure result → EvaluatesAll Faults (context_of stack.now indexed.entry) (guards (source_codes codes.now)) (state_of task.old world.old active.old) (seen_by (λ vs. code_values codes.now vs.items) result) (state_of task.new world.new active.new) }
    ensures ticks { task.new.ticks_left ≤ task.old.ticks_left }
{
    match codes {
        NodeCodes::Any => Ok(Vec::new(task.alloc())),
        NodeCodes::Known(errors) => {
            task.take_ticks(active, stack, errors.len())?;
            Ok(Vec::new(task.alloc()))
        }
        NodeCodes::Listed(items) => evaluate_codes(task, world, active, stack, indexed, items),
    }
}

/// Returns the values of codes that are not all literal errors. Not inlined, so that nested catches need no stack
/// space for it.
#[cycle(evaluation)]
#[inline(never)]
pub(crate) fn evaluate_codes(
    task: &mut Task,
    world: &mut World,
    active: &mut Activation,
    stack: &CallStack<'_>,
    indexed: Option<&Value>,
    items: &[NodeItem],
) -> Result<Vec<Value>, Failure>
    ensures meaning { IsKnownFailure result → EvaluatesAll Faults (context_of stack.now indexed.entry) (source_items items.now) (state_of task.old world.old active.old) (seen_answers result) (state_of task.new world.new active.new) }
    ensures ticks { task.new.ticks_left ≤ task.old.ticks_left }
{
    let room = task.spare.take_values();
    let values = evaluate_all(task, world, active, stack, indexed, items, room)?;
    Ok(values.into_values(task.alloc())?)
}

// Evaluates the body of a catch. An error of its own that the codes name is caught before it is raised.
#[cycle(evaluation)]
#[inline(never)]
fn attempt(
    task: &mut Task,
    world: &mut World,
    active: &mut Activation,
    stack: &CallStack<'_>,
    indexed: Option<&Value>,
    body: &Node,
    codes: &NodeCodes,
    values: &[Value],
) -> Result<Attempt, Failure>
    ensures meaning { IsKnownFailure result → Attempts Faults (context_of stack.now indexed.entry) (source_codes codes.now) (code_values codes.now values.now) (source body.now) (state_of task.old world.old active.old) result (state_of task.new world.new active.new) }
    ensures ticks { task.new.ticks_left ≤ task.old.ticks_left }
{
    if let Some(value) = task.try_node(active, body) {
        return Ok(Attempt::Value(value));
    }
    task.take_tick(active, stack)?;
    match compute(task, world, active, stack, indexed, body) {
        Ok(value) => Ok(Attempt::Value(value)),
        Err(failure) => task.settle_attempt(active, stack, codes, values, failure),
    }
}
