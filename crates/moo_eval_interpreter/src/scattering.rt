//! Runs assignments of the elements of a list to names.
ghost use Rattle.std.specs.Prelude.{◌≤◌, None, Result, Ok, Err, map};
ghost use Rattle.moo_syntax_ast.specs.Tree.{assign, performs, list};
ghost use Rattle.moo_syntax_node.specs.Source.{source, source_items};
ghost use Rattle.moo_syntax_node.specs.Blocks.{named_items};
ghost use Rattle.moo_value.specs.View.{tree as value_tree};
ghost use Rattle.moo_eval_access.specs.Target.{scattered};
ghost use Rattle.moo_eval_semantics.specs.Meaning.{Does, Puts, SetsDefaults};
ghost use Rattle.moo_eval_frame.specs.Seen.{context_of, seen_done, seen_flow, IsKnown, IsKnownFailure};
ghost use Rattle.moo_builtin.specs.Telling.{Faults};
ghost use Rattle.moo_eval_task.specs.Seen.{state_of};
ghost use Rattle.moo_eval_control.specs.SeenScatter.{left_out_of};

use crate::interpreter::evaluate;
use moo_eval_control::{LeftOut, set_names};
use moo_eval_frame::{Activation, CallStack, Failure, Flow, Stop};
use moo_eval_task::Task;
use moo_syntax_ast::Name;
use moo_syntax_node::{Node, NodeItem};
use moo_value::Value;
use moo_world::World;

/// Runs `{x, y} = value` of variables alone, if the assignment's own value is not used. Not inlined, so that nested
/// statements need no stack space for it.
#[cycle(evaluation)]
#[inline(never)]
pub(crate) fn scatter_names(
    task: &mut Task,
    world: &mut World,
    active: &mut Activation,
    stack: &CallStack<'_>,
    names: &[Name],
    value: &Node,
) -> Result<Flow, Stop>
    ensures meaning { IsKnown result → Does Faults (context_of stack.now None) (performs (assign (list (named_items names.now)) (source value.now))) (state_of task.old world.old active.old) (seen_flow result) (state_of task.new world.new active.new) }
    ensures ticks { task.new.ticks_left ≤ task.old.ticks_left }
{
    let scattered = task.try_scatter(active, names, value)?;
    if scattered {
        return Ok(Flow::Next);
    }
    task.take_tick(active, stack)?;
    let value = evaluate(task, world, active, stack, None, value)?;
    match set_names(active, names, &value) {
        Ok(()) => Ok(Flow::Next),
        Err(failure) => {
            let _error = task.settled(active, stack, failure)?;
            Ok(Flow::Next)
        }
    }
}

/// Runs `{items} = value`, if the assignment's own value is not used. Not inlined, so that nested statements need
/// no stack space for it.
#[cycle(evaluation)]
#[inline(never)]
pub(crate) fn scatter_alone(
    task: &mut Task,
    world: &mut World,
    active: &mut Activation,
    stack: &CallStack<'_>,
    items: &[NodeItem],
    value: &Node,
) -> Result<Flow, Stop>
    ensures meaning { IsKnown result → Does Faults (context_of stack.now None) (performs (assign (list (source_items items.now)) (source value.now))) (state_of task.old world.old active.old) (seen_flow result) (state_of task.new world.new active.new) }
    ensures ticks { task.new.ticks_left ≤ task.old.ticks_left }
{
    task.take_tick(active, stack)?;
    let value = evaluate(task, world, active, stack, None, value)?;
    match scatter(task, world, active, stack, None, items, &value) {
        Ok(()) => Ok(Flow::Next),
        Err(failure) => {
            let _error = task.settled(active, stack, failure)?;
            Ok(Flow::Next)
        }
    }
}

/// Sets the names that get an element first, then those with a default, from the left.
#[cycle(evaluation)]
pub(crate) fn scatter(
    task: &mut Task,
    world: &mut World,
    active: &mut Activation,
    stack: &CallStack<'_>,
    indexed: Option<&Value>,
    items: &[NodeItem],
    value: &Value,
) -> Result<(), Failure>
    ensures meaning { IsKnownFailure result → Puts Faults (context_of stack.now indexed.entry) (scattered (source_items items.now)) (value_tree value.now) (state_of task.old world.old active.old) (seen_done result) (state_of task.new world.new active.new) }
    ensures ticks { task.new.ticks_left ≤ task.old.ticks_left }
{
    let defaults = task.deal(active, items, value)?;
    set_defaults(task, world, active, stack, indexed, &defaults)
}

#[cycle(evaluation)]
fn set_defaults(
    task: &mut Task,
    world: &mut World,
    active: &mut Activation,
    stack: &CallStack<'_>,
    indexed: Option<&Value>,
    defaults: &[LeftOut<'_>],
) -> Result<(), Failure>
    ensures meaning { IsKnownFailure result → SetsDefaults Faults (context_of stack.now indexed.entry) (map left_out_of defaults.now) (state_of task.old world.old active.old) (seen_done result) (state_of task.new world.new active.new) }
    ensures ticks { task.new.ticks_left ≤ task.old.ticks_left }
{
    for default in defaults {
        let value = evaluate(task, world, active, stack, indexed, default.value)?;
        active.variables.set(default.name, value)?;
    }
    Ok(())
}
