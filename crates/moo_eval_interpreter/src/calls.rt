//! Evaluates calls of verbs.
ghost use Rattle.std.specs.Prelude.{◌≢◌, ◌≤◌, ◌<◌, ◌-◌, ◌∷◌, [], Option, None, OnOk};
ghost use Rattle.std.specs.Borrow.{Bor};
ghost use Rattle.moo_value.specs.declared.value.Value.{Value as ValueModel};
ghost use Rattle.moo_value.specs.Tree.{string};
ghost use Rattle.moo_value.specs.View.{tree as tree_of, trees};
ghost use Rattle.moo_syntax_ast.specs.declared.tree.Literal.TheVariants.{Str};
ghost use Rattle.moo_syntax_ast.specs.Tree.{Expr, Items, no_statement, literal, verb_call};
ghost use Rattle.moo_syntax_node.specs.Source.{source, source_items};
ghost use Rattle.moo_eval_frame.specs.declared.frame.Activation.{Activation};
ghost use Rattle.moo_eval_access.specs.SeenCalled.{entered_of};
ghost use Rattle.moo_eval_hook.specs.SeenByHooks.{progress_of};
ghost use Rattle.moo_eval_task.specs.Hooks.{RunsCalled};
ghost use Rattle.moo_eval_semantics.specs.Meaning.{Applies, Computes, Proceeds};
ghost use Rattle.moo_eval_frame.specs.Seen.{context_of, seen_answer, IsKnownFailure};
ghost use Rattle.moo_eval_semantics.specs.Operands.{answered};
ghost use Rattle.moo_builtin.specs.Telling.{Faults};
ghost use Rattle.moo_eval_task.specs.Seen.{state_of};

use crate::arguments::evaluate_arguments;
use crate::interpreter::evaluate;
use crate::statement::run_block;
use moo_eval_access::{Called, as_text, enter_verb, enter_written};
use moo_eval_frame::{Activation, CallStack, Failure, FrameMemory, Variables};
use moo_eval_hook::Progress;
use moo_eval_task::{Pending, Task, answered};
use moo_syntax_ast::Text;
use moo_syntax_node::{Node, NodeItem};
use moo_value::Value;
use moo_world::World;

/// Calls a verb, which runs in a frame of its own, over the same world and with the ticks that are left. Not
/// inlined, so that other expressions need no stack space for it.
#[cycle(evaluation)]
#[inline(never)]
pub(crate) fn verb_call(
    task: &mut Task,
    world: &mut World,
    active: &mut Activation,
    stack: &CallStack<'_>,
    indexed: Option<&Value>,
    base: &Node,
    name: &Node,
    items: &[NodeItem],
) -> Result<Value, Failure>
    ensures meaning { IsKnownFailure result → Computes Faults (context_of stack.now indexed.entry) (verb_call (source base.now) (source name.now) (source_items items.now)) (state_of task.old world.old active.old) (seen_answer result) (state_of task.new world.new active.new) }
    ensures ticks { task.new.ticks_left ≤ task.old.ticks_left }
{
    match as_text(name) {
        Some(name) => call_literal(task, world, active, stack, indexed, base, name, items),
        None => call_computed(task, world, active, stack, indexed, base, name, items),
    }
}

// Calls a verb whose name is a literal. An object that is a literal or in a variable is read at once.
#[cycle(evaluation)]
#[inline(always)]
fn call_literal(
    task: &mut Task,
    world: &mut World,
    active: &mut Activation,
    stack: &CallStack<'_>,
    indexed: Option<&Value>,
    base: &Node,
    name: &Text,
    items: &[NodeItem],
) -> Result<Value, Failure>
    ensures meaning { IsKnownFailure result → Computes Faults (context_of stack.now indexed.entry) (verb_call (source base.now) (literal (Str name.now)) (source_items items.now)) (state_of task.old world.old active.old) (seen_answer result) (state_of task.new world.new active.new) }
    ensures ticks { task.new.ticks_left ≤ task.old.ticks_left }
{
    match task.try_object(active, base) {
        Some(this) => {
            let mut args = task.spare.take_values();
            evaluate_arguments(task, world, active, stack, indexed, items, &mut args)?;
            call_written(task, world, active, stack, &Value::Obj(this), name, args)
        }
        None => call_evaluated(task, world, active, stack, indexed, base, name, items),
    }
}

// Calls a verb whose name is a literal: evaluates the object first. Not inlined, so that other calls need no stack
// space for it.
#[cycle(evaluation)]
#[inline(never)]
fn call_evaluated(
    task: &mut Task,
    world: &mut World,
    active: &mut Activation,
    stack: &CallStack<'_>,
    indexed: Option<&Value>,
    base: &Node,
    name: &Text,
    items: &[NodeItem],
) -> Result<Value, Failure>
    ensures meaning { IsKnownFailure result → Computes Faults (context_of stack.now indexed.entry) (verb_call (source base.now) (literal (Str name.now)) (source_items items.now)) (state_of task.old world.old active.old) (seen_answer result) (state_of task.new world.new active.new) }
    ensures ticks { task.new.ticks_left ≤ task.old.ticks_left }
{
    let base = evaluate(task, world, active, stack, indexed, base)?;
    task.take_tick(active, stack)?;
    let mut args = task.spare.take_values();
    evaluate_arguments(task, world, active, stack, indexed, items, &mut args)?;
    call_written(task, world, active, stack, &base, name, args)
}

// Calls a verb whose name is computed: evaluates its operands first.
#[cycle(evaluation)]
#[inline(never)]
fn call_computed(
    task: &mut Task,
    world: &mut World,
    active: &mut Activation,
    stack: &CallStack<'_>,
    indexed: Option<&Value>,
    base: &Node,
    name: &Node,
    items: &[NodeItem],
) -> Result<Value, Failure>
    ensures meaning { IsKnownFailure result → Computes Faults (context_of stack.now indexed.entry) (verb_call (source base.now) (source name.now) (source_items items.now)) (state_of task.old world.old active.old) (seen_answer result) (state_of task.new world.new active.new) }
    ensures ticks { task.new.ticks_left ≤ task.old.ticks_left }
{
    let base = evaluate(task, world, active, stack, indexed, base)?;
    let name = evaluate(task, world, active, stack, indexed, name)?;
    let mut args = task.spare.take_values();
    evaluate_arguments(task, world, active, stack, indexed, items, &mut args)?;
    call_verb(task, world, active, stack, &base, &name, args)
}

// Calls a verb whose name is a literal, its operands evaluated. Not inlined, so that calls in the arguments of
// calls need no stack space for it.
#[cycle(evaluation)]
#[inline(never)]
fn call_written(
    task: &mut Task,
    world: &mut World,
    active: &Activation,
    stack: &CallStack<'_>,
    base: &Value,
    name: &Text,
    args: Vec<Value>,
) -> Result<Value, Failure>
    ensures meaning { (indexed : Option (Bor ValueModel)) (a b : Expr) (items : Items) → IsKnownFailure result → Applies Faults (context_of stack.now indexed) (verb_call a b items) (tree_of base.now ∷ string name.now ∷ trees args.items) [] (state_of task.old world.old active.now) (seen_answer result) (state_of task.new world.new active.now) }
    ensures ticks { task.new.ticks_left ≤ task.old.ticks_left }
{
    let mut memory = task.spare.take();
    let called = enter_written(
        task.alloc(),
        world,
        stack,
        active,
        base,
        name,
        args,
        &mut memory,
    )?;
    run_called(task, world, called, memory)
}

// Calls a verb, its operands evaluated. Not inlined, so that calls in the arguments of calls need no stack space
// for it.
#[cycle(evaluation)]
#[inline(never)]
fn call_verb(
    task: &mut Task,
    world: &mut World,
    active: &Activation,
    stack: &CallStack<'_>,
    base: &Value,
    name: &Value,
    args: Vec<Value>,
) -> Result<Value, Failure>
    ensures meaning { (indexed : Option (Bor ValueModel)) (a b : Expr) (items : Items) → IsKnownFailure result → Applies Faults (context_of stack.now indexed) (verb_call a b items) (tree_of base.now ∷ tree_of name.now ∷ trees args.items) [] (state_of task.old world.old active.now) (seen_answer result) (state_of task.new world.new active.now) }
    ensures ticks { task.new.ticks_left ≤ task.old.ticks_left }
{
    let mut memory = task.spare.take();
    let called = enter_verb(
        task.alloc(),
        world,
        stack,
        active,
        base,
        name,
        args,
        &mut memory,
    )?;
    run_called(task, world, called, memory)
}

// Runs an entered verb to its end, in the memory of a frame that has ended. It takes a tick if it has a statement.
// Inlined, so that the entered verb is not moved.
#[cycle(evaluation)]
#[inline(always)]
fn run_called(
    task: &mut Task,
    world: &mut World,
    called: Called<'_>,
    memory: FrameMemory,
) -> Result<Value, Failure>
    ensures meaning { (caller : Activation) → IsKnownFailure result → RunsCalled Faults (entered_of called.entry) (state_of task.old world.old caller) (seen_answer result) (state_of task.new world.new caller) }
    ensures ticks { task.new.ticks_left ≤ task.old.ticks_left }
    ensures fewer { called.entry.stack.running.program ≢ no_statement → OnOk result (task.new.ticks_left < task.old.ticks_left) }
{
    let Called {
        stack: callee,
        given,
    } = called;
    let program = callee.running.program.try_clone()?;
    let mut running = Activation {
        variables: Variables::begun(program, given, memory)?,
        programmer: callee.running.programmer,
    };
    let statements = callee.running.program.code();
    let outcome = run_block(task, world, &mut running, &callee, statements);
    let (memory, arguments) = running.variables.into_memory(task.alloc());
    task.spare.keep(memory, arguments);
    answered(outcome)
}

/// Continues a function that calls verbs until it ends. Not inlined, as `call_function` and `start_call`, so that
/// nested calls need no stack space for it.
#[cycle(evaluation)]
#[inline(never)]
pub(crate) fn proceed<'a>(
    task: &mut Task,
    world: &mut World,
    active: &Activation,
    stack: &'a CallStack<'_>,
    first: Progress<'a>,
) -> Result<Value, Failure>
    ensures meaning { IsKnownFailure result → Proceeds Faults (context_of stack.now None) (progress_of first.entry) (state_of task.old world.old active.now) (seen_answer result) (state_of task.new world.new active.now) }
    ensures ticks { task.new.ticks_left ≤ task.old.ticks_left }
{
    let mut pending = task.pass_over(world, active, stack, first)?;
    'verbs: loop {
        let (called, stage) = match pending {
            Pending::Answer(value) => return Ok(value),
            Pending::Verb(called, stage) => (called, stage),
        };
        let memory = task.spare.take();
        let answer = run_called(task, world, Box::into_inner(called), memory)?;
        pending = task.resume(world, active, stack, stage, answer)?;
    }
}
