//! Evaluates calls of built-in functions.
ghost use Rattle.std.specs.Prelude.{◌≡◌, ◌≤◌, ℕ, List, [], Option, None, Some};
ghost use Rattle.std.specs.Borrow.{Bor};
ghost use Rattle.moo_value.specs.declared.value.Value.{Value as ValueModel};
ghost use Rattle.moo_syntax_ast.specs.Tree.{Items, element, no_items, call};
ghost use Rattle.moo_syntax_node.specs.Source.{source, source_items};
ghost use Rattle.moo_eval_semantics.specs.VerbCalls.{caller_of};
ghost use Rattle.moo_eval_semantics.specs.Meaning.{Applies, Computes};
ghost use Rattle.moo_eval_frame.specs.Seen.{context_of, seen_answer, IsKnownFailure};
ghost use Rattle.moo_builtin.specs.Telling.{Faults};
ghost use Rattle.moo_eval_task.specs.Seen.{state_of};

use crate::arguments::evaluate_elements;
use crate::calls::proceed;
use crate::interpreter::{evaluate, evaluate_all};
use moo_eval_frame::{Activation, CallStack, Failure, Gathered};
use moo_eval_hook::{start_call, verb_caller};
use moo_eval_task::{Task, has_splice};
use moo_syntax_function::Function;
use moo_syntax_node::{FunctionName, Node, NodeItem};
use moo_value::Value;
use moo_world::World;

/// Calls a built-in function.
#[cycle(evaluation)]
#[inline(never)]
pub(crate) fn call(
    task: &mut Task,
    world: &mut World,
    active: &mut Activation,
    stack: &CallStack<'_>,
    indexed: Option<&Value>,
    name: &FunctionName,
    items: &[NodeItem],
) -> Result<Value, Failure>
    ensures meaning { IsKnownFailure result → Computes Faults (context_of stack.now indexed.entry) (call name.now (source_items items.now)) (state_of task.old world.old active.old) (seen_answer result) (state_of task.new world.new active.new) }
    ensures ticks { task.new.ticks_left ≤ task.old.ticks_left }
{
    if let [NodeItem::Element(node)] = items {
        if verb_caller(name.function()).is_none() {
            return call_unary(task, world, active, stack, indexed, name, node);
        }
    }
    call_any(task, world, active, stack, indexed, name, items)
}

// Calls a built-in function that calls no verb, with one argument. No list of its values is made.
#[cycle(evaluation)]
#[inline(always)]
fn call_unary(
    task: &mut Task,
    world: &mut World,
    active: &mut Activation,
    stack: &CallStack<'_>,
    indexed: Option<&Value>,
    name: &FunctionName,
    node: &Node,
) -> Result<Value, Failure>
    requires { caller_of name.now ≡ None }
    ensures meaning { IsKnownFailure result → Computes Faults (context_of stack.now indexed.entry) (call name.now (element (source node.now) no_items)) (state_of task.old world.old active.old) (seen_answer result) (state_of task.new world.new active.new) }
    ensures ticks { task.new.ticks_left ≤ task.old.ticks_left }
{
    if let Some(value) = task.try_shown(world, active, name, node) {
        return Ok(value);
    }
    let value = evaluate(task, world, active, stack, indexed, node)?;
    let mut values = [value];
    task.call_values(world, active, stack, name.function(), &mut values)
}

// Calls a built-in function. Inlined, so that nested calls need its stack space once.
#[cycle(evaluation)]
#[inline(always)]
fn call_any(
    task: &mut Task,
    world: &mut World,
    active: &mut Activation,
    stack: &CallStack<'_>,
    indexed: Option<&Value>,
    name: &FunctionName,
    items: &[NodeItem],
) -> Result<Value, Failure>
    ensures meaning { IsKnownFailure result → Computes Faults (context_of stack.now indexed.entry) (call name.now (source_items items.now)) (state_of task.old world.old active.old) (seen_answer result) (state_of task.new world.new active.new) }
    ensures ticks { task.new.ticks_left ≤ task.old.ticks_left }
{
    if has_splice(items) {
        return call_spliced(task, world, active, stack, indexed, name, items);
    }
    let mut values = task.spare.take_values();
    evaluate_elements(task, world, active, stack, indexed, items, &mut values)?;
    let function = name.function();
    if let Some(caller) = verb_caller(function) {
        let values = Gathered::of(task.alloc(), values);
        return call_caller(task, world, active, stack, caller, values);
    }
    let answer = task.call_values(world, active, stack, function, &mut values);
    task.spare.keep_values(values);
    answer
}

// Calls a built-in function with arguments that have a splice. Not inlined, so that other calls need no stack space
// for it.
#[cycle(evaluation)]
#[inline(never)]
fn call_spliced(
    task: &mut Task,
    world: &mut World,
    active: &mut Activation,
    stack: &CallStack<'_>,
    indexed: Option<&Value>,
    name: &FunctionName,
    items: &[NodeItem],
) -> Result<Value, Failure>
    ensures meaning { IsKnownFailure result → Computes Faults (context_of stack.now indexed.entry) (call name.now (source_items items.now)) (state_of task.old world.old active.old) (seen_answer result) (state_of task.new world.new active.new) }
    ensures ticks { task.new.ticks_left ≤ task.old.ticks_left }
{
    let room = task.spare.take_values();
    let values = evaluate_all(task, world, active, stack, indexed, items, room)?;
    call_with(task, world, active, stack, name, values)
}

/// Calls a built-in function, its arguments evaluated.
#[cycle(evaluation)]
#[inline(always)]
pub(crate) fn call_with(
    task: &mut Task,
    world: &mut World,
    active: &mut Activation,
    stack: &CallStack<'_>,
    name: &FunctionName,
    values: Gathered,
) -> Result<Value, Failure>
    ensures meaning { (indexed : Option (Bor ValueModel)) (items : Items) → IsKnownFailure result → Applies Faults (context_of stack.now indexed) (call name.now items) values [] (state_of task.old world.old active.old) (seen_answer result) (state_of task.new world.new active.new) }
    ensures ticks { task.new.ticks_left ≤ task.old.ticks_left }
{
    let function = name.function();
    let Some(caller) = verb_caller(function) else {
        return task.call_function(world, active, stack, function, values);
    };
    call_caller(task, world, active, stack, caller, values)
}

// Calls a function that calls verbs, its arguments evaluated. Not inlined, so that nested calls need no stack
// space for it.
#[cycle(evaluation)]
#[inline(never)]
fn call_caller(
    task: &mut Task,
    world: &mut World,
    active: &Activation,
    stack: &CallStack<'_>,
    caller: Function,
    values: Gathered,
) -> Result<Value, Failure>
    ensures meaning { (indexed : Option (Bor ValueModel)) (name : List ℕ) (items : Items) → caller_of name ≡ Some caller → IsKnownFailure result → Applies Faults (context_of stack.now indexed) (call name items) values [] (state_of task.old world.old active.now) (seen_answer result) (state_of task.new world.new active.now) }
    ensures ticks { task.new.ticks_left ≤ task.old.ticks_left }
{
    let first = start_call(task.alloc(), world, stack, active, caller, values)?;
    proceed(task, world, active, stack, first)
}
