//! Runs assignments.
ghost use Rattle.std.specs.Prelude.{◌≤◌, None, Ok};
ghost use Rattle.moo_syntax_ast.specs.Tree.{variable, assign, performs};
ghost use Rattle.moo_syntax_node.specs.Source.{source};
ghost use Rattle.moo_value.specs.View.{tree as value_tree};
ghost use Rattle.moo_eval_access.specs.Target.{Path};
ghost use Rattle.moo_eval_semantics.specs.Meaning.{Computes, Does, Locates, Finds, Steps, Stores};
ghost use Rattle.moo_eval_frame.specs.Seen.{context_of, seen_answer, seen_by, seen_done, seen_flow, IsKnown, IsKnownFailure};
ghost use Rattle.moo_builtin.specs.Telling.{Faults};
ghost use Rattle.moo_eval_task.specs.Seen.{state_of};
ghost use Rattle.moo_eval_access.specs.SeenTarget.{root_seen, step_of, steps_of, path_of, spot_of};

use crate::arithmetic::evaluate_tried;
use crate::deferred::evaluate_deferred;
use crate::interpreter::evaluate;
use crate::scattering::scatter;
use moo_eval_access::{
    Path, Places, Root, Spot, Step, as_property, is_own_change, push_step, rebuilt, root_alone,
    taken_apart,
};
use moo_eval_deferred::{assign_deferred, set_deferred};
use moo_eval_frame::{Activation, CallStack, Failure, Flow, Stop};
use moo_eval_task::Task;
use moo_syntax_ast::Name;
use moo_syntax_node::Node;
use moo_value::Value;
use moo_world::World;

#[cycle(evaluation)]
#[inline(never)]
pub(crate) fn assign(
    task: &mut Task,
    world: &mut World,
    active: &mut Activation,
    stack: &CallStack<'_>,
    indexed: Option<&Value>,
    target: &Node,
    value: &Node,
) -> Result<Value, Failure>
    ensures meaning { IsKnownFailure result → Computes Faults (context_of stack.now indexed.entry) (assign (source target.now) (source value.now)) (state_of task.old world.old active.old) (seen_answer result) (state_of task.new world.new active.new) }
    ensures ticks { task.new.ticks_left ≤ task.old.ticks_left }
{
    match target {
        Node::Variable(name) if is_own_change(&active.variables, name, value) => {
            assign_changed(task, world, active, stack, indexed, name, value)
        }
        Node::Variable(name) => {
            let value = evaluate(task, world, active, stack, indexed, value)?;
            let copy = value.try_clone()?;
            active.variables.set(name, copy)?;
            Ok(value)
        }
        _ => assign_path(task, world, active, stack, indexed, target, value),
    }
}

// Assigns a list that may be changed in place to a variable. Not inlined, so that other assignments need no stack space
// for it.
#[cycle(evaluation)]
#[inline(never)]
fn assign_changed(
    task: &mut Task,
    world: &mut World,
    active: &mut Activation,
    stack: &CallStack<'_>,
    indexed: Option<&Value>,
    name: &Name,
    value: &Node,
) -> Result<Value, Failure>
    ensures meaning { IsKnownFailure result → Computes Faults (context_of stack.now indexed.entry) (assign (variable name.now) (source value.now)) (state_of task.old world.old active.old) (seen_answer result) (state_of task.new world.new active.new) }
    ensures ticks { task.new.ticks_left ≤ task.old.ticks_left }
{
    let value = evaluate_deferred(task, world, active, stack, indexed, value)?;
    let assigned = assign_deferred(task.alloc(), &mut active.variables, name, value)?;
    Ok(assigned)
}

// Finds the target first, then evaluates the value, then stores it.
#[cycle(evaluation)]
#[inline(never)]
fn assign_path(
    task: &mut Task,
    world: &mut World,
    active: &mut Activation,
    stack: &CallStack<'_>,
    indexed: Option<&Value>,
    target: &Node,
    value: &Node,
) -> Result<Value, Failure>
    ensures meaning { IsKnownFailure result → Computes Faults (context_of stack.now indexed.entry) (assign (source target.now) (source value.now)) (state_of task.old world.old active.old) (seen_answer result) (state_of task.new world.new active.new) }
    ensures ticks { task.new.ticks_left ≤ task.old.ticks_left }
{
    let path = locate(task, world, active, stack, indexed, target)?;
    let value = evaluate(task, world, active, stack, indexed, value)?;
    store(task, world, active, stack, indexed, path, &value)?;
    Ok(value)
}

/// Assigns to a variable, if the assignment's own value is not used. A list that the value changes is changed in place
/// if that can be. Not inlined, so that nested statements need no stack space for it.
#[cycle(evaluation)]
#[inline(never)]
pub(crate) fn assign_value(
    task: &mut Task,
    world: &mut World,
    active: &mut Activation,
    stack: &CallStack<'_>,
    name: &Name,
    value: &Node,
) -> Result<Flow, Stop>
    ensures meaning { IsKnown result → Does Faults (context_of stack.now None) (performs (assign (variable name.now) (source value.now))) (state_of task.old world.old active.old) (seen_flow result) (state_of task.new world.new active.new) }
    ensures ticks { task.new.ticks_left ≤ task.old.ticks_left }
{
    task.take_tick(active, stack)?;
    if is_own_change(&active.variables, name, value) {
        let value = evaluate_deferred(task, world, active, stack, None, value)?;
        set_deferred(task.alloc(), &mut active.variables, name, value)?;
        return Ok(Flow::Next);
    }
    let value = evaluate_tried(task, world, active, stack, None, value)?;
    active.variables.set(name, value)?;
    Ok(Flow::Next)
}

// Returns the path to what a target sets; its containers are read from the root on.
#[cycle(evaluation)]
#[inline(never)]
fn locate<'a>(
    task: &mut Task,
    world: &mut World,
    active: &mut Activation,
    stack: &CallStack<'_>,
    indexed: Option<&Value>,
    target: &'a Node,
) -> Result<Path<'a>, Failure>
    ensures meaning { IsKnownFailure result → Locates Faults (context_of stack.now indexed.entry) (source target.now) (state_of task.old world.old active.old) (seen_by path_of result) (state_of task.new world.new active.new) }
    ensures ticks { task.new.ticks_left ≤ task.old.ticks_left }
{
    let parts = taken_apart(task.alloc(), target)?;
    let root = find(task, world, active, stack, indexed, parts.root)?;
    let mut path = Path {
        root,
        steps: Vec::new(task.alloc()),
    };
    for spot in &parts.spots {
        let step = step(task, world, active, stack, indexed, &path, spot)?;
        push_step(&mut path, step)?;
    }
    Ok(path)
}

// Returns what the root of a target names.
#[cycle(evaluation)]
#[inline(never)]
fn find<'a>(
    task: &mut Task,
    world: &mut World,
    active: &mut Activation,
    stack: &CallStack<'_>,
    indexed: Option<&Value>,
    root: &'a Node,
) -> Result<Root<'a>, Failure>
    ensures meaning { IsKnownFailure result → Finds Faults (context_of stack.now indexed.entry) (source root.now) (state_of task.old world.old active.old) (seen_by root_seen result) (state_of task.new world.new active.new) }
    ensures ticks { task.new.ticks_left ≤ task.old.ticks_left }
{
    match as_property(root) {
        Some((base, name)) => {
            let base = evaluate(task, world, active, stack, indexed, base)?;
            let name = evaluate(task, world, active, stack, indexed, name)?;
            Ok(Root::Property(base, name))
        }
        None => root_alone(root),
    }
}

// Returns the container at the end of a path, and the places in it; in them `$` is the container's length.
#[cycle(evaluation)]
#[inline(never)]
fn step(
    task: &mut Task,
    world: &mut World,
    active: &mut Activation,
    stack: &CallStack<'_>,
    indexed: Option<&Value>,
    path: &Path<'_>,
    spot: &Spot<'_>,
) -> Result<Step, Failure>
    ensures meaning { IsKnownFailure result → Steps Faults (context_of stack.now indexed.entry) (root_seen path.now.root) (steps_of path.now.steps.items) (spot_of spot.now) (state_of task.old world.old active.old) (seen_by step_of result) (state_of task.new world.new active.new) }
    ensures ticks { task.new.ticks_left ≤ task.old.ticks_left }
{
    let container = path.value(task.alloc(), world, active)?;
    match spot {
        Spot::Element(place) => {
            let place = evaluate(task, world, active, stack, Some(&container), place)?;
            let places = Places::Element(place);
            Ok(Step { container, places })
        }
        Spot::Part(low, high) => {
            let low = evaluate(task, world, active, stack, Some(&container), low)?;
            let high = evaluate(task, world, active, stack, Some(&container), high)?;
            let places = Places::Part(low, high);
            Ok(Step { container, places })
        }
    }
}

#[cycle(evaluation)]
#[inline(never)]
fn store(
    task: &mut Task,
    world: &mut World,
    active: &mut Activation,
    stack: &CallStack<'_>,
    indexed: Option<&Value>,
    path: Path<'_>,
    value: &Value,
) -> Result<(), Failure>
    ensures meaning { IsKnownFailure result → Stores Faults (context_of stack.now indexed.entry) (root_seen path.entry.root) (steps_of path.entry.steps.items) (value_tree value.now) (state_of task.old world.old active.old) (seen_done result) (state_of task.new world.new active.new) }
    ensures ticks { task.new.ticks_left ≤ task.old.ticks_left }
{
    let Path { root, steps } = path;
    let value = value.try_clone()?;
    match root {
        Root::Variable(name) => task.store_variable(active, name, steps, value),
        Root::Property(base, name) => {
            task.store_property(world, active, &base, &name, steps, value)
        }
        Root::Scatter(items) => {
            let whole = rebuilt(task.alloc(), steps, value)?;
            scatter(task, world, active, stack, indexed, items, &whole)
        }
        Root::Literals(list) => task.store_literals(list, steps, value),
    }
}
