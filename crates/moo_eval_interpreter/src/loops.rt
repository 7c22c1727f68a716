//! Runs loops.
ghost use Rattle.std.specs.Prelude.{◌≤◌, ◌<◌, ◌∷◌, [], None, Some, OnOk};
ghost use Rattle.moo_value.specs.View.{tree as value_tree, trees};
ghost use Rattle.moo_syntax_ast.specs.Tree.{for_list, for_range};
ghost use Rattle.moo_syntax_node.specs.Source.{source};
ghost use Rattle.moo_syntax_node.specs.Blocks.{source_block};
ghost use Rattle.moo_eval_semantics.specs.Meaning.{Does, Turns, Loops, Visits, Counts};
ghost use Rattle.moo_eval_slot.specs.Bindings.{bind};
ghost use Rattle.moo_eval_frame.specs.Seen.{context_of, seen_flow, seen_turn, IsKnown};
ghost use Rattle.moo_builtin.specs.Telling.{Faults};
ghost use Rattle.moo_eval_task.specs.Seen.{state_of};

use crate::conditions::passes;
use crate::interpreter::evaluate;
use crate::statement::run_block;
use moo_builtin_operator::spliced;
use moo_eval_control::{Span, after_turn, no_turn};
use moo_eval_frame::{Activation, CallStack, Flow, Stop};
use moo_eval_task::{Task, set_value};
use moo_syntax_ast::Name;
use moo_syntax_node::{Node, NodeStmt};
use moo_value::{MooStr, Value};
use moo_world::World;

// Runs a turn of a `while`, which takes a tick as it begins. Returns how the loop ends, or `None` if it goes on.
#[cycle(evaluation)]
#[inline(always)]
fn turn(
    task: &mut Task,
    world: &mut World,
    active: &mut Activation,
    stack: &CallStack<'_>,
    own: &Option<MooStr>,
    body: &[NodeStmt],
) -> Result<Option<Flow>, Stop>
    ensures meaning { IsKnown result → Turns Faults (context_of stack.now None) own.now [] (source_block body.now) (state_of task.old world.old active.old) (seen_turn result) (state_of task.new world.new active.new) }
    ensures ticks { task.new.ticks_left ≤ task.old.ticks_left }
    ensures fewer { OnOk result (task.new.ticks_left < task.old.ticks_left) }
{
    task.take_tick(active, stack)?;
    let flow = run_block(task, world, active, stack, body)?;
    if let Flow::Next = flow {
        return Ok(None);
    }
    Ok(after_turn(own.as_ref(), flow))
}

// Runs a turn of a `for`, which takes a tick before the variable is set. Returns how the loop ends, or `None` if it
// goes on.
#[cycle(evaluation)]
#[inline(always)]
fn visit(
    task: &mut Task,
    world: &mut World,
    active: &mut Activation,
    stack: &CallStack<'_>,
    name: &Name,
    value: Value,
    body: &[NodeStmt],
) -> Result<Option<Flow>, Stop>
    ensures meaning { IsKnown result → Turns Faults (context_of stack.now None) (Some name.now) (bind name.now (value_tree value) ∷ []) (source_block body.now) (state_of task.old world.old active.old) (seen_turn result) (state_of task.new world.new active.new) }
    ensures ticks { task.new.ticks_left ≤ task.old.ticks_left }
    ensures fewer { OnOk result (task.new.ticks_left < task.old.ticks_left) }
{
    task.take_tick(active, stack)?;
    set_value(&mut active.variables, name, value)?;
    let flow = run_block(task, world, active, stack, body)?;
    if let Flow::Next = flow {
        return Ok(None);
    }
    Ok(after_turn(Some(name.text()), flow))
}

// Runs a `while`, from a test on.
#[cycle(evaluation)]
#[inline(never)]
pub(crate) fn repeat(
    task: &mut Task,
    world: &mut World,
    active: &mut Activation,
    stack: &CallStack<'_>,
    own: &Option<MooStr>,
    test: &Node,
    body: &[NodeStmt],
) -> Result<Flow, Stop>
    ensures meaning { IsKnown result → Loops Faults (context_of stack.now None) own.now (source test.now) (source_block body.now) (state_of task.old world.old active.old) (seen_flow result) (state_of task.new world.new active.new) }
    ensures ticks { task.new.ticks_left ≤ task.old.ticks_left }
{
    'turns: loop {
        let passes = passes(task, world, active, stack, None, test)?;
        if !passes {
            return Ok(Flow::Next);
        }
        if let Some(flow) = turn(task, world, active, stack, own, body)? {
            return Ok(flow);
        }
    }
}

#[cycle(evaluation)]
#[inline(never)]
pub(crate) fn for_list(
    task: &mut Task,
    world: &mut World,
    active: &mut Activation,
    stack: &CallStack<'_>,
    name: &Name,
    list: &Node,
    body: &[NodeStmt],
) -> Result<Flow, Stop>
    ensures meaning { IsKnown result → Does Faults (context_of stack.now None) (for_list name.now (source list.now) (source_block body.now)) (state_of task.old world.old active.old) (seen_flow result) (state_of task.new world.new active.new) }
    ensures ticks { task.new.ticks_left ≤ task.old.ticks_left }
{
    let list = evaluate(task, world, active, stack, None, list)?;
    match spliced(&list) {
        Ok(values) => visit_all(task, world, active, stack, name, values, body),
        Err(code) => no_turn(task.alloc(), stack, active, code),
    }
}

#[cycle(evaluation)]
fn visit_all(
    task: &mut Task,
    world: &mut World,
    active: &mut Activation,
    stack: &CallStack<'_>,
    name: &Name,
    values: &[Value],
    body: &[NodeStmt],
) -> Result<Flow, Stop>
    ensures meaning { IsKnown result → Visits Faults (context_of stack.now None) name.now (trees values.now) (source_block body.now) (state_of task.old world.old active.old) (seen_flow result) (state_of task.new world.new active.new) }
    ensures ticks { task.new.ticks_left ≤ task.old.ticks_left }
{
    for value in values {
        let value = value.try_clone()?;
        if let Some(flow) = visit(task, world, active, stack, name, value, body)? {
            return Ok(flow);
        }
    }
    Ok(Flow::Next)
}

#[cycle(evaluation)]
#[inline(never)]
pub(crate) fn for_range(
    task: &mut Task,
    world: &mut World,
    active: &mut Activation,
    stack: &CallStack<'_>,
    name: &Name,
    low: &Node,
    high: &Node,
    body: &[NodeStmt],
) -> Result<Flow, Stop>
    ensures meaning { IsKnown result → Does Faults (context_of stack.now None) (for_range name.now (source low.now) (source high.now) (source_block body.now)) (state_of task.old world.old active.old) (seen_flow result) (state_of task.new world.new active.new) }
    ensures ticks { task.new.ticks_left ≤ task.old.ticks_left }
{
    let low = evaluate(task, world, active, stack, None, low)?;
    let high = evaluate(task, world, active, stack, None, high)?;
    match Span::new(&low, &high) {
        Ok(span) => count(task, world, active, stack, name, span, body),
        Err(code) => no_turn(task.alloc(), stack, active, code),
    }
}

// Runs the turns of a `for` over a range. The counter goes one past `high`, so its type is wider than that of the
// numbers.
#[cycle(evaluation)]
fn count(
    task: &mut Task,
    world: &mut World,
    active: &mut Activation,
    stack: &CallStack<'_>,
    name: &Name,
    span: Span,
    body: &[NodeStmt],
) -> Result<Flow, Stop>
    ensures meaning { IsKnown result → Counts Faults (context_of stack.now None) name.now span span.low (source_block body.now) (state_of task.old world.old active.old) (seen_flow result) (state_of task.new world.new active.new) }
    ensures ticks { task.new.ticks_left ≤ task.old.ticks_left }
{
    let mut number = i64::from(span.low);
    'numbers: while number <= i64::from(span.high) {
        let value = span.value(number as i32);
        if let Some(flow) = visit(task, world, active, stack, name, value, body)? {
            return Ok(flow);
        }
        number += 1;
    }
    Ok(Flow::Next)
}
