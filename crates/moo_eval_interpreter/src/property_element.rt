//! Runs `base.name[place] = value;`.
ghost use Rattle.std.specs.Prelude.{◌≤◌, None, Err, IfErr, OnOk, Ok};
ghost use Rattle.moo_value.specs.Tree.{Tree};
ghost use Rattle.moo_syntax_ast.specs.Tree.{performs};
ghost use Rattle.moo_syntax_node.specs.Source.{source};
ghost use Rattle.moo_eval_frame.specs.Seen.{context_of, failure_of, seen_flow, HadMemoryIn, IsKnown};
ghost use Rattle.moo_builtin.specs.Telling.{Faults};
ghost use Rattle.moo_eval_semantics.specs.Meaning.{Computes, Does};
ghost use Rattle.moo_eval_task.specs.Element.{sets_part};
ghost use Rattle.moo_eval_task.specs.Seen.{state_of};

use crate::deferred::evaluate_stored;
use crate::interpreter::evaluate;
use moo_eval_access::read_written;
use moo_eval_deferred::set_property_deferred_at;
use moo_eval_frame::{Activation, CallStack, Failure, Flow, Stop};
use moo_eval_task::Task;
use moo_syntax_ast::Text;
use moo_syntax_node::Node;
use moo_world::World;

/// Runs `base.name[place] = value`, if the assignment's own value is not used. Not inlined, so that nested
/// statements need no stack space for it.
#[cycle(evaluation)]
#[inline(never)]
pub(crate) fn set_property_element(
    task: &mut Task,
    world: &mut World,
    active: &mut Activation,
    stack: &CallStack<'_>,
    base: &Node,
    name: &Text,
    place: &Node,
    value: &Node,
) -> Result<Flow, Stop>
    ensures meaning { IsKnown result → Does Faults (context_of stack.now None) (performs (sets_part (source base.now) name.now (source place.now) (source value.now))) (state_of task.old world.old active.old) (seen_flow result) (state_of task.new world.new active.new) }
    ensures ticks { task.new.ticks_left ≤ task.old.ticks_left }
{
    task.take_tick(active, stack)?;
    let done = put_property_element(task, world, active, stack, base, name, place, value);
    task.end_statement(active, stack, done)
}

// Evaluates the object and reads the property. Then evaluates the place, in which `$` measures the property's
// value, and the value, and sets the property.
#[cycle(evaluation)]
#[inline(always)]
fn put_property_element(
    task: &mut Task,
    world: &mut World,
    active: &mut Activation,
    stack: &CallStack<'_>,
    base: &Node,
    name: &Text,
    place: &Node,
    value: &Node,
) -> Result<(), Failure>
    ensures ok { OnOk result ((v : Tree) × Computes Faults (context_of stack.now None) (sets_part (source base.now) name.now (source place.now) (source value.now)) (state_of task.old world.old active.old) (Ok v) (state_of task.new world.new active.new)) }
    ensures err { IfErr result (λ failure. HadMemoryIn failure → Computes Faults (context_of stack.now None) (sets_part (source base.now) name.now (source place.now) (source value.now)) (state_of task.old world.old active.old) (Err (failure_of failure)) (state_of task.new world.new active.new)) }
    ensures ticks { task.new.ticks_left ≤ task.old.ticks_left }
{
    let base = evaluate(task, world, active, stack, None, base)?;
    task.take_tick(active, stack)?;
    let container = read_written(task.alloc(), world, active.programmer, &base, name)?;
    let place = evaluate(task, world, active, stack, Some(&container), place)?;
    let value = evaluate_stored(task, world, active, stack, None, value)?;
    set_property_deferred_at(
        task.alloc(),
        world,
        active.programmer,
        &base,
        name,
        container,
        place,
        value,
    )
}
