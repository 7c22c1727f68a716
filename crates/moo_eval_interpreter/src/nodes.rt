//! Evaluates nodes. Each takes a tick, computes its value, and raises an error of its own if the frame has the d bit.
ghost use Rattle.std.specs.Prelude.{◌≤◌, Ok};
ghost use Rattle.moo_syntax_ast.specs.Tree.{call};
ghost use Rattle.moo_syntax_node.specs.Source.{source};
ghost use Rattle.moo_eval_frame.specs.Seen.{context_of, seen_answer, seen_value, IsKnown, IsKnownFailure};
ghost use Rattle.moo_builtin.specs.Telling.{Faults};
ghost use Rattle.moo_eval_semantics.specs.Meaning.{Evaluates, Computes};
ghost use Rattle.moo_eval_task.specs.Seen.{state_of};

use crate::arithmetic::arithmetic;
use crate::assignment::assign;
use crate::calls::verb_call;
use crate::catching::catch;
use crate::deciding::{conditional, logic};
use crate::functions::call;
use crate::operators::{binary, index, list, range, unary};
use crate::property::{computed_property, written_property};
use moo_eval_access::as_text;
use moo_eval_frame::{Activation, CallStack, Failure, Stop, measure, read_variable};
use moo_eval_task::{Task, copied_text};
use moo_syntax_node::Node;
use moo_value::Value;
use moo_world::World;

/// Evaluates an expression, at once if that can be. Not inlined, so that nested expressions need no stack space for
/// all kinds.
#[cycle(evaluation)]
#[inline(never)]
pub(crate) fn evaluate_node(
    task: &mut Task,
    world: &mut World,
    active: &mut Activation,
    stack: &CallStack<'_>,
    indexed: Option<&Value>,
    node: &Node,
) -> Result<Value, Stop>
    ensures meaning { IsKnown result → Evaluates Faults (context_of stack.now indexed.entry) (source node.now) (state_of task.old world.old active.old) (seen_value result) (state_of task.new world.new active.new) }
    ensures ticks { task.new.ticks_left ≤ task.old.ticks_left }
{
    if let Some(value) = task.try_node(active, node) {
        return Ok(value);
    }
    if let Some(value) = task.try_property(world, active, node) {
        return Ok(value);
    }
    evaluate_parts(task, world, active, stack, indexed, node)
}

/// Takes the tick of an expression, computes its value from those of its parts, and settles an error of its own.
#[cycle(evaluation)]
#[inline(always)]
pub(crate) fn evaluate_parts(
    task: &mut Task,
    world: &mut World,
    active: &mut Activation,
    stack: &CallStack<'_>,
    indexed: Option<&Value>,
    node: &Node,
) -> Result<Value, Stop>
    ensures meaning { IsKnown result → Evaluates Faults (context_of stack.now indexed.entry) (source node.now) (state_of task.old world.old active.old) (seen_value result) (state_of task.new world.new active.new) }
    ensures ticks { task.new.ticks_left ≤ task.old.ticks_left }
{
    task.take_tick(active, stack)?;
    match compute(task, world, active, stack, indexed, node) {
        Ok(value) => Ok(value),
        Err(failure) => task.settled(active, stack, failure),
    }
}

/// Computes the value of an expression, whose tick was taken. Inlined; the functions for each kind aren't, so that
/// nested expressions need stack space only for their own kinds.
#[cycle(evaluation)]
#[inline(always)]
pub(crate) fn compute(
    task: &mut Task,
    world: &mut World,
    active: &mut Activation,
    stack: &CallStack<'_>,
    indexed: Option<&Value>,
    node: &Node,
) -> Result<Value, Failure>
    ensures meaning { IsKnownFailure result → Computes Faults (context_of stack.now indexed.entry) (source node.now) (state_of task.old world.old active.old) (seen_answer result) (state_of task.new world.new active.new) }
    ensures ticks { task.new.ticks_left ≤ task.old.ticks_left }
{
    match node {
        Node::Integer(number) => Ok(Value::Int(*number)),
        Node::Object(number) => Ok(Value::Obj(*number)),
        Node::Error(code) => Ok(Value::Err(*code)),
        Node::Str(text) => copied_text(text),
        Node::Variable(name) => read_variable(active, name),
        Node::Length => measure(indexed),
        Node::Unary(operator, operand) => {
            unary(task, world, active, stack, indexed, *operator, operand)
        }
        Node::Binary(operator, left, right) => {
            binary(task, world, active, stack, indexed, *operator, left, right)
        }
        Node::Arithmetic(operator, left, right) => {
            arithmetic(task, world, active, stack, indexed, *operator, left, right)
        }
        Node::Logic(operator, left, right) => {
            logic(task, world, active, stack, indexed, *operator, left, right)
        }
        Node::Conditional(test, first, second) => {
            conditional(task, world, active, stack, indexed, test, first, second)
        }
        Node::Index(base, place) => index(task, world, active, stack, indexed, base, place),
        Node::Range(base, low, high) => {
            range(task, world, active, stack, indexed, base, low, high)
        }
        Node::List(items) => list(task, world, active, stack, indexed, items),
        Node::Constant(list) => task.constant(active, stack, list),
        Node::Property(base, name) => match as_text(name) {
            Some(name) => written_property(task, world, active, stack, indexed, base, name),
            None => computed_property(task, world, active, stack, indexed, base, name),
        },
        Node::VerbCall(base, name, items) => {
            verb_call(task, world, active, stack, indexed, base, name, items)
        }
        Node::Call(name, items) => call(task, world, active, stack, indexed, name, items),
        Node::Assign(target, value) => {
            assign(task, world, active, stack, indexed, target, value)
        }
        Node::Catch(body, codes, other) => {
            catch(task, world, active, stack, indexed, body, codes, other)
        }
    }
}
