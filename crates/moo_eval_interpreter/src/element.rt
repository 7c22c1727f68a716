//! Runs assignments to an element of a list, or a byte of a string, in a variable.
ghost use Rattle.std.specs.Prelude.{◌≤◌, None, Ok, Err, IfErr, OnOk};
ghost use Rattle.moo_syntax_ast.specs.Tree.{performs};
ghost use Rattle.moo_syntax_node.specs.Source.{source};
ghost use Rattle.moo_eval_frame.specs.Seen.{context_of, failure_of, seen_flow, HadMemoryIn, IsKnown};
ghost use Rattle.moo_builtin.specs.Telling.{Faults};
ghost use Rattle.moo_eval_task.specs.Element.{sets_place, IsPut};
ghost use Rattle.moo_eval_semantics.specs.Meaning.{Computes, Does};
ghost use Rattle.moo_eval_task.specs.Seen.{state_of};

use crate::deferred::evaluate_stored;
use crate::interpreter::evaluate;
use moo_eval_deferred::set_deferred_at;
use moo_eval_frame::{Activation, CallStack, Failure, Flow, Stop, read_variable};
use moo_eval_task::Task;
use moo_syntax_ast::Name;
use moo_syntax_node::Node;
use moo_world::World;

/// Runs `name[place] = value`, if the assignment's own value is not used. Not inlined, so that nested statements
/// need no stack space for it.
#[cycle(evaluation)]
#[inline(never)]
pub(crate) fn set_element(
    task: &mut Task,
    world: &mut World,
    active: &mut Activation,
    stack: &CallStack<'_>,
    name: &Name,
    place: &Node,
    value: &Node,
) -> Result<Flow, Stop>
    ensures meaning { IsKnown result → Does Faults (context_of stack.now None) (performs (sets_place name.now (source place.now) (source value.now))) (state_of task.old world.old active.old) (seen_flow result) (state_of task.new world.new active.new) }
    ensures ticks { task.new.ticks_left ≤ task.old.ticks_left }
{
    task.take_tick(active, stack)?;
    let done = put_at(task, world, active, stack, name, place, value);
    task.end_statement(active, stack, done)
}

// Reads the variable, then evaluates the place, in which `$` measures the variable's value. Then evaluates the value,
// and sets the variable.
#[cycle(evaluation)]
fn put_at(
    task: &mut Task,
    world: &mut World,
    active: &mut Activation,
    stack: &CallStack<'_>,
    name: &Name,
    place: &Node,
    value: &Node,
) -> Result<(), Failure>
    ensures ok { OnOk result (IsPut Faults (context_of stack.now None) name.now (source place.now) (source value.now) (state_of task.old world.old active.old) (state_of task.new world.new active.new)) }
    ensures err { IfErr result (λ failure. HadMemoryIn failure → Computes Faults (context_of stack.now None) (sets_place name.now (source place.now) (source value.now)) (state_of task.old world.old active.old) (Err (failure_of failure)) (state_of task.new world.new active.new)) }
    ensures ticks { task.new.ticks_left ≤ task.old.ticks_left }
{
    let container = read_variable(active, name)?;
    let place = evaluate(task, world, active, stack, Some(&container), place)?;
    let value = evaluate_stored(task, world, active, stack, None, value)?;
    set_deferred_at(
        task.alloc(),
        &mut active.variables,
        name,
        container,
        place,
        value,
    )?;
    Ok(())
}
