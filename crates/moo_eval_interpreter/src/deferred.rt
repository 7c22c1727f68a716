//! Evaluates values that are stored in a place whose old value is let go of first. So `{@l[i], x}`, `listappend(l[i], x)`
//! and `l[2..$]` change a list in place.
ghost use Rattle.std.specs.Prelude.{◌≤◌, Ok, Err, IfOk, IfErr};
ghost use Rattle.moo_syntax_ast.specs.Tree.{list, splice, element, no_items, call, range};
ghost use Rattle.moo_syntax_node.specs.Source.{source, source_items};
ghost use Rattle.moo_eval_frame.specs.Seen.{context_of, stop_of, seen_by, HadMemory, IsKnownFailure};
ghost use Rattle.moo_builtin.specs.Telling.{Faults};
ghost use Rattle.moo_eval_deferred.specs.Deferred.{deferred_tree};
ghost use Rattle.moo_eval_access.specs.Form.{form_source};
ghost use Rattle.moo_eval_semantics.specs.Meaning.{Computes, Evaluates};
ghost use Rattle.moo_eval_task.specs.Seen.{state_of};

use crate::conditions::passes;
use crate::functions::call_with;
use crate::interpreter::{evaluate, evaluate_all};
use moo_eval_access::{ListForm, is_list_change, list_form};
use moo_eval_deferred::{Deferred, ListCall, LongerList, deferred_range};
use moo_eval_frame::{Activation, CallStack, Failure, Gathered, Stop};
use moo_eval_task::Task;
use moo_syntax_node::{FunctionName, Node, NodeItem};
use moo_value::{ErrorCode, Value};
use moo_world::World;

/// Evaluates a node. A list that the node changes may stay as it is until the value is stored.
#[cycle(evaluation)]
#[inline(always)]
pub(crate) fn evaluate_stored(
    task: &mut Task,
    world: &mut World,
    active: &mut Activation,
    stack: &CallStack<'_>,
    indexed: Option<&Value>,
    node: &Node,
) -> Result<Deferred, Stop>
    ensures ok { IfOk result (λ value. Evaluates Faults (context_of stack.now indexed.entry) (source node.now) (state_of task.old world.old active.old) (Ok (deferred_tree value)) (state_of task.new world.new active.new)) }
    ensures err { IfErr result (λ stop. HadMemory stop → Evaluates Faults (context_of stack.now indexed.entry) (source node.now) (state_of task.old world.old active.old) (Err (stop_of stop)) (state_of task.new world.new active.new)) }
    ensures ticks { task.new.ticks_left ≤ task.old.ticks_left }
{
    if is_list_change(node) {
        return evaluate_deferred(task, world, active, stack, indexed, node);
    }
    let value = evaluate(task, world, active, stack, indexed, node)?;
    Ok(Deferred::Value(value))
}

/// Evaluates a node. If its value is a changed list, the list isn't changed yet; so too if it is a conditional
/// expression that gives such a list. Not inlined, so that nested statements need no stack space for it.
#[cycle(evaluation)]
#[inline(never)]
pub(crate) fn evaluate_deferred(
    task: &mut Task,
    world: &mut World,
    active: &mut Activation,
    stack: &CallStack<'_>,
    indexed: Option<&Value>,
    node: &Node,
) -> Result<Deferred, Stop>
    ensures ok { IfOk result (λ value. Evaluates Faults (context_of stack.now indexed.entry) (source node.now) (state_of task.old world.old active.old) (Ok (deferred_tree value)) (state_of task.new world.new active.new)) }
    ensures err { IfErr result (λ stop. HadMemory stop → Evaluates Faults (context_of stack.now indexed.entry) (source node.now) (state_of task.old world.old active.old) (Err (stop_of stop)) (state_of task.new world.new active.new)) }
    ensures ticks { task.new.ticks_left ≤ task.old.ticks_left }
{
    if let Node::Conditional(test, first, second) = node {
        task.take_tick(active, stack)?;
        let passes = passes(task, world, active, stack, indexed, test)?;
        if passes {
            return evaluate_deferred(task, world, active, stack, indexed, first);
        }
        return evaluate_deferred(task, world, active, stack, indexed, second);
    }
    let Some(form) = list_form(node) else {
        let value = evaluate(task, world, active, stack, indexed, node)?;
        return Ok(Deferred::Value(value));
    };
    task.take_tick(active, stack)?;
    match defer(task, world, active, stack, indexed, form) {
        Ok(value) => Ok(value),
        Err(failure) => {
            let value = task.settled(active, stack, failure)?;
            Ok(Deferred::Value(value))
        }
    }
}

// Computes the parts of a changed list.
#[cycle(evaluation)]
#[inline(always)]
fn defer(
    task: &mut Task,
    world: &mut World,
    active: &mut Activation,
    stack: &CallStack<'_>,
    indexed: Option<&Value>,
    form: ListForm<'_>,
) -> Result<Deferred, Failure>
    ensures meaning { IsKnownFailure result → Computes Faults (context_of stack.now indexed.entry) (form_source form.entry) (state_of task.old world.old active.old) (seen_by deferred_tree result) (state_of task.new world.new active.new) }
    ensures ticks { task.new.ticks_left ≤ task.old.ticks_left }
{
    match form {
        ListForm::Appended(list, last) => {
            defer_appended(task, world, active, stack, indexed, list, last)
        }
        ListForm::Prepended(first, list) => {
            defer_prepended(task, world, active, stack, indexed, first, list)
        }
        ListForm::Extended(list, more) => {
            defer_extended(task, world, active, stack, indexed, list, more)
        }
        ListForm::Called(called, items) => {
            defer_call(task, world, active, stack, indexed, called, items)
        }
        ListForm::Part(base, low, high) => {
            defer_range(task, world, active, stack, indexed, base, low, high)
        }
    }
}

// Computes the parts of `{@spliced, last}`.
#[cycle(evaluation)]
#[inline(always)]
fn defer_appended(
    task: &mut Task,
    world: &mut World,
    active: &mut Activation,
    stack: &CallStack<'_>,
    indexed: Option<&Value>,
    spliced: &Node,
    last: &Node,
) -> Result<Deferred, Failure>
    ensures meaning { IsKnownFailure result → Computes Faults (context_of stack.now indexed.entry) (list (splice (source spliced.now) (element (source last.now) no_items))) (state_of task.old world.old active.old) (seen_by deferred_tree result) (state_of task.new world.new active.new) }
    ensures ticks { task.new.ticks_left ≤ task.old.ticks_left }
{
    let found = evaluate(task, world, active, stack, indexed, spliced)?;
    let Value::List(list) = found else {
        return Err(Failure::Fails(ErrorCode::TypeMismatch));
    };
    let last = evaluate(task, world, active, stack, indexed, last)?;
    match LongerList::appended(list, last) {
        Some(longer) => Ok(Deferred::Longer(longer)),
        None => Err(Failure::Fails(ErrorCode::Quota)),
    }
}

// Computes the parts of `{first, @spliced}`.
#[cycle(evaluation)]
#[inline(always)]
fn defer_prepended(
    task: &mut Task,
    world: &mut World,
    active: &mut Activation,
    stack: &CallStack<'_>,
    indexed: Option<&Value>,
    first: &Node,
    spliced: &Node,
) -> Result<Deferred, Failure>
    ensures meaning { IsKnownFailure result → Computes Faults (context_of stack.now indexed.entry) (list (element (source first.now) (splice (source spliced.now) no_items))) (state_of task.old world.old active.old) (seen_by deferred_tree result) (state_of task.new world.new active.new) }
    ensures ticks { task.new.ticks_left ≤ task.old.ticks_left }
{
    let first = evaluate(task, world, active, stack, indexed, first)?;
    let found = evaluate(task, world, active, stack, indexed, spliced)?;
    let Value::List(list) = found else {
        return Err(Failure::Fails(ErrorCode::TypeMismatch));
    };
    match LongerList::prepended(first, list) {
        Some(longer) => Ok(Deferred::Longer(longer)),
        None => Err(Failure::Fails(ErrorCode::Quota)),
    }
}

// Computes the parts of `{@spliced, ..}`.
#[cycle(evaluation)]
#[inline(always)]
fn defer_extended(
    task: &mut Task,
    world: &mut World,
    active: &mut Activation,
    stack: &CallStack<'_>,
    indexed: Option<&Value>,
    spliced: &Node,
    more: &[NodeItem],
) -> Result<Deferred, Failure>
    ensures meaning { IsKnownFailure result → Computes Faults (context_of stack.now indexed.entry) (list (splice (source spliced.now) (source_items more.now))) (state_of task.old world.old active.old) (seen_by deferred_tree result) (state_of task.new world.new active.new) }
    ensures ticks { task.new.ticks_left ≤ task.old.ticks_left }
{
    let found = evaluate(task, world, active, stack, indexed, spliced)?;
    let Value::List(list) = found else {
        return Err(Failure::Fails(ErrorCode::TypeMismatch));
    };
    let room = task.spare.take_values();
    let values = evaluate_all(task, world, active, stack, indexed, more, room)?;
    let values = values.into_values(task.alloc())?;
    match LongerList::extended(list, values) {
        Some(longer) => Ok(Deferred::Longer(longer)),
        None => Err(Failure::Fails(ErrorCode::Quota)),
    }
}

/// Evaluates the arguments of a call of a built-in function. Calls the function, unless it changes a list.
#[cycle(evaluation)]
#[inline(never)]
pub(crate) fn defer_call(
    task: &mut Task,
    world: &mut World,
    active: &mut Activation,
    stack: &CallStack<'_>,
    indexed: Option<&Value>,
    called: &FunctionName,
    items: &[NodeItem],
) -> Result<Deferred, Failure>
    ensures meaning { IsKnownFailure result → Computes Faults (context_of stack.now indexed.entry) (call called.now (source_items items.now)) (state_of task.old world.old active.old) (seen_by deferred_tree result) (state_of task.new world.new active.new) }
    ensures ticks { task.new.ticks_left ≤ task.old.ticks_left }
{
    let room = task.spare.take_values();
    let values = evaluate_all(task, world, active, stack, indexed, items, room)?;
    let args = values.into_values(task.alloc())?;
    match ListCall::try_new(called.function(), args) {
        Ok(call) => Ok(Deferred::Called(call)),
        Err(args) => {
            let values = Gathered::of(task.alloc(), args);
            let value = call_with(task, world, active, stack, called, values)?;
            Ok(Deferred::Value(value))
        }
    }
}

// Computes `base[low..high]`. A part of a list isn't taken yet. Not inlined, as `range`.
#[cycle(evaluation)]
#[inline(never)]
fn defer_range(
    task: &mut Task,
    world: &mut World,
    active: &mut Activation,
    stack: &CallStack<'_>,
    indexed: Option<&Value>,
    base: &Node,
    low: &Node,
    high: &Node,
) -> Result<Deferred, Failure>
    ensures meaning { IsKnownFailure result → Computes Faults (context_of stack.now indexed.entry) (range (source base.now) (source low.now) (source high.now)) (state_of task.old world.old active.old) (seen_by deferred_tree result) (state_of task.new world.new active.new) }
    ensures ticks { task.new.ticks_left ≤ task.old.ticks_left }
{
    let base = evaluate(task, world, active, stack, indexed, base)?;
    let low = evaluate(task, world, active, stack, Some(&base), low)?;
    let high = evaluate(task, world, active, stack, Some(&base), high)?;
    deferred_range(task.alloc(), base, &low, &high)
}
