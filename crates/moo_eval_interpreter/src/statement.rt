//! Runs statements.
ghost use Rattle.std.specs.Prelude.{◌≢◌, ◌≤◌, ◌<◌, None, Ok, Err, option_map, OnOk, IfOk, IfErr};
ghost use Rattle.moo_syntax_ast.specs.Tree.{performs, branches, elseif, no_statement};
ghost use Rattle.moo_syntax_node.specs.declared.statement.NodeStmt.TheVariants.{Return};
ghost use Rattle.moo_syntax_node.specs.Source.{source};
ghost use Rattle.moo_syntax_node.specs.Blocks.{source_statement, source_block, source_arm_list};
ghost use Rattle.moo_eval_semantics.specs.Meaning.{Does, RunsAll, Selects};
ghost use Rattle.moo_eval_frame.specs.Seen.{context_of, seen_flow, stop_of, HadMemory, IsKnown};
ghost use Rattle.moo_builtin.specs.Telling.{Faults};
ghost use Rattle.moo_eval_interpreter.specs.Chosen.{IsChosen};
ghost use Rattle.moo_eval_task.specs.Seen.{state_of};

use crate::assignment::assign_value;
use crate::conditions::passes;
use crate::deciding::logic_alone;
use crate::element::set_element;
use crate::extension::extend_value;
use crate::interpreter::evaluate;
use crate::lengthening::lengthen;
use crate::loops::{for_list, for_range, repeat};
use crate::nodes::evaluate_parts;
use crate::property::set_property;
use crate::property_element::set_property_element;
use crate::scattering::{scatter_alone, scatter_names};
use crate::trying::{run_except, run_finally};
use crate::update::update;
use moo_eval_access::as_set_property;
use moo_eval_control::copied_name;
use moo_eval_frame::{Activation, CallStack, Flow, Stop};
use moo_eval_task::{Task, as_set_property_element};
use moo_syntax_node::{Node, NodeArm, NodeStmt};
use moo_value::Value;
use moo_world::World;

// Runs a statement that `try_statement` has declined.
#[cycle(evaluation)]
#[inline(always)]
fn perform(
    task: &mut Task,
    world: &mut World,
    active: &mut Activation,
    stack: &CallStack<'_>,
    statement: &NodeStmt,
) -> Result<Flow, Stop>
    ensures meaning { IsKnown result → Does Faults (context_of stack.now None) (source_statement statement.now) (state_of task.old world.old active.old) (seen_flow result) (state_of task.new world.new active.new) }
    ensures ticks { task.new.ticks_left ≤ task.old.ticks_left }
{
    match statement {
        NodeStmt::Return(value) => give(task, world, active, stack, value),
        NodeStmt::Expression(node) => evaluate_alone(task, world, active, stack, node),
        NodeStmt::Set(name, value) => assign_value(task, world, active, stack, name, value),
        NodeStmt::Lengthen(name, last) => lengthen(task, world, active, stack, name, last),
        NodeStmt::Extend(name, last) => extend_value(task, world, active, stack, name, last),
        NodeStmt::Update(name, called, items) => {
            update(task, world, active, stack, name, called, items)
        }
        NodeStmt::Put(name, place, value) => {
            set_element(task, world, active, stack, name, place, value)
        }
        NodeStmt::ScatterNames(names, value) => {
            scatter_names(task, world, active, stack, names, value)
        }
        NodeStmt::Scatter(items, value) => {
            scatter_alone(task, world, active, stack, items, value)
        }
        NodeStmt::If(test, body, arms) => branch(task, world, active, stack, test, body, arms),
        NodeStmt::ForList(name, list, body) => for_list(
            task, world, active, stack, name, list, body,
        ),
        NodeStmt::ForRange(name, low, high, body) => {
            for_range(task, world, active, stack, name, low, high, body)
        }
        NodeStmt::While(name, test, body) => repeat(task, world, active, stack, name, test, body),
        NodeStmt::Break(name) => Ok(Flow::Break(copied_name(name)?)),
        NodeStmt::Continue(name) => Ok(Flow::Continue(copied_name(name)?)),
        NodeStmt::TryExcept(body, handlers) => run_except(
            task, world, active, stack, body, handlers,
        ),
        NodeStmt::TryFinally(body, cleanup) => run_finally(
            task, world, active, stack, body, cleanup,
        ),
    }
}

// Returns the value of the expression as the flow of a `return`, or 0 if there is none. Inlined, so that a `return`
// needs no call.
#[cycle(evaluation)]
#[inline(always)]
fn give(
    task: &mut Task,
    world: &mut World,
    active: &mut Activation,
    stack: &CallStack<'_>,
    value: &Option<Box<Node>>,
) -> Result<Flow, Stop>
    ensures meaning { IsKnown result → Does Faults (context_of stack.now None) (source_statement (Return value.now)) (state_of task.old world.old active.old) (seen_flow result) (state_of task.new world.new active.new) }
    ensures ticks { task.new.ticks_left ≤ task.old.ticks_left }
{
    match value {
        None => Ok(Flow::Return(Value::Int(0))),
        Some(node) => Ok(Flow::Return(evaluate(task, world, active, stack, None, node)?)),
    }
}

/// Evaluates an expression whose value is not used.
#[cycle(evaluation)]
#[inline(always)]
pub(crate) fn evaluate_alone(
    task: &mut Task,
    world: &mut World,
    active: &mut Activation,
    stack: &CallStack<'_>,
    node: &Node,
) -> Result<Flow, Stop>
    ensures meaning { IsKnown result → Does Faults (context_of stack.now None) (performs (source node.now)) (state_of task.old world.old active.old) (seen_flow result) (state_of task.new world.new active.new) }
    ensures ticks { task.new.ticks_left ≤ task.old.ticks_left }
{
    if let Some((base, name, value)) = as_set_property(node) {
        return set_property(task, world, active, stack, base, name, value);
    }
    match as_set_property_element(node) {
        Some((base, name, place, value)) => {
            set_property_element(task, world, active, stack, base, name, place, value)
        }
        None => drop_value(task, world, active, stack, node),
    }
}

// Evaluates an expression of any kind, and drops its value. Not inlined, so that nested statements need no stack
// space for it.
#[cycle(evaluation)]
#[inline(never)]
fn drop_value(
    task: &mut Task,
    world: &mut World,
    active: &mut Activation,
    stack: &CallStack<'_>,
    node: &Node,
) -> Result<Flow, Stop>
    ensures meaning { IsKnown result → Does Faults (context_of stack.now None) (performs (source node.now)) (state_of task.old world.old active.old) (seen_flow result) (state_of task.new world.new active.new) }
    ensures ticks { task.new.ticks_left ≤ task.old.ticks_left }
{
    if let Node::Logic(operator, left, right) = node {
        return logic_alone(task, world, active, stack, *operator, left, right);
    }
    let is_put = task.try_put_inner(active, node)?;
    if is_put {
        return Ok(Flow::Next);
    }
    let _value = evaluate_parts(task, world, active, stack, None, node)?;
    Ok(Flow::Next)
}

/// Runs statements in order, up to one that leads elsewhere: a `return`, or a `break` or `continue` of a loop around
/// them. Returns where they lead. Err is a raised error, or that ticks or memory ran out.
#[cycle(evaluation)]
#[inline(never)]
pub fn run_all(
    task: &mut Task,
    world: &mut World,
    active: &mut Activation,
    stack: &CallStack<'_>,
    statements: &[NodeStmt],
) -> Result<Flow, Stop>
    ensures meaning { IsKnown result → RunsAll Faults (context_of stack.now None) (source_block statements.now) (state_of task.old world.old active.old) (seen_flow result) (state_of task.new world.new active.new) }
    ensures ticks { task.new.ticks_left ≤ task.old.ticks_left }
    ensures fewer { OnOk result (source_block statements.now ≢ no_statement → task.new.ticks_left < task.old.ticks_left) }
{
    run_block(task, world, active, stack, statements)
}

/// Runs statements in order, up to one that leads elsewhere. Inlined, so that a turn of a loop needs no call.
#[cycle(evaluation)]
#[inline(always)]
pub(crate) fn run_block(
    task: &mut Task,
    world: &mut World,
    active: &mut Activation,
    stack: &CallStack<'_>,
    statements: &[NodeStmt],
) -> Result<Flow, Stop>
    ensures meaning { IsKnown result → RunsAll Faults (context_of stack.now None) (source_block statements.now) (state_of task.old world.old active.old) (seen_flow result) (state_of task.new world.new active.new) }
    ensures ticks { task.new.ticks_left ≤ task.old.ticks_left }
    ensures fewer { OnOk result (source_block statements.now ≢ no_statement → task.new.ticks_left < task.old.ticks_left) }
{
    for statement in statements {
        task.take_tick(active, stack)?;
        if task.try_statement(active, statement) {
            continue;
        }
        match perform(task, world, active, stack, statement)? {
            Flow::Next => {}
            flow => return Ok(flow),
        }
    }
    Ok(Flow::Next)
}

// Runs the first arm of an `if` whose condition is true.
#[cycle(evaluation)]
#[inline(never)]
fn branch(
    task: &mut Task,
    world: &mut World,
    active: &mut Activation,
    stack: &CallStack<'_>,
    test: &Node,
    body: &[NodeStmt],
    arms: &[NodeArm],
) -> Result<Flow, Stop>
    ensures meaning { IsKnown result → Does Faults (context_of stack.now None) (branches (source test.now) (source_block body.now) (source_arm_list arms.now)) (state_of task.old world.old active.old) (seen_flow result) (state_of task.new world.new active.new) }
    ensures ticks { task.new.ticks_left ≤ task.old.ticks_left }
{
    match choose(task, world, active, stack, test, body, arms)? {
        Some(chosen) => run_block(task, world, active, stack, chosen),
        None => Ok(Flow::Next),
    }
}

// Returns the statements of the first arm of an `if` whose condition is true, or `None` if there is none.
#[cycle(evaluation)]
#[inline(always)]
fn choose<'a>(
    task: &mut Task,
    world: &mut World,
    active: &mut Activation,
    stack: &CallStack<'_>,
    test: &Node,
    body: &'a [NodeStmt],
    arms: &'a [NodeArm],
) -> Result<Option<&'a [NodeStmt]>, Stop>
    ensures ok { IfOk result (λ chosen. IsChosen Faults (context_of stack.now None) (elseif (source test.now) (source_block body.now) (source_arm_list arms.now)) (state_of task.old world.old active.old) (option_map (λ body. source_block body.now) chosen) (state_of task.new world.new active.new)) }
    ensures err { IfErr result (λ stop. HadMemory stop → Selects Faults (context_of stack.now None) (elseif (source test.now) (source_block body.now) (source_arm_list arms.now)) (state_of task.old world.old active.old) (Err (stop_of stop)) (state_of task.new world.new active.new)) }
    ensures ticks { task.new.ticks_left ≤ task.old.ticks_left }
{
    let passes = passes(task, world, active, stack, None, test)?;
    if passes {
        return Ok(Some(body));
    }
    select(task, world, active, stack, arms)
}

// Returns the statements of the first of these arms whose condition is true, or `None` if there is none.
#[cycle(evaluation)]
#[inline(always)]
fn select<'a>(
    task: &mut Task,
    world: &mut World,
    active: &mut Activation,
    stack: &CallStack<'_>,
    arms: &'a [NodeArm],
) -> Result<Option<&'a [NodeStmt]>, Stop>
    ensures ok { IfOk result (λ chosen. IsChosen Faults (context_of stack.now None) (source_arm_list arms.now) (state_of task.old world.old active.old) (option_map (λ body. source_block body.now) chosen) (state_of task.new world.new active.new)) }
    ensures err { IfErr result (λ stop. HadMemory stop → Selects Faults (context_of stack.now None) (source_arm_list arms.now) (state_of task.old world.old active.old) (Err (stop_of stop)) (state_of task.new world.new active.new)) }
    ensures ticks { task.new.ticks_left ≤ task.old.ticks_left }
{
    for arm in arms {
        match arm {
            NodeArm::ElseIf(test, body) => {
                let passes = passes(task, world, active, stack, None, test)?;
                if passes {
                    return Ok(Some(body));
                }
            }
            NodeArm::Else(body) => return Ok(Some(body)),
        }
    }
    Ok(None)
}
