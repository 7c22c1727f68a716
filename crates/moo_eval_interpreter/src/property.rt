//! Evaluates properties, and runs assignments to them.
ghost use Rattle.std.specs.Prelude.{◌≤◌, ◌<◌, ◌-◌, None, Some, Ok, Err, IfErr, OnOk};
ghost use Rattle.moo_value.specs.Tree.{Tree};
ghost use Rattle.moo_syntax_ast.specs.declared.tree.Literal.TheVariants.{Str};
ghost use Rattle.moo_syntax_ast.specs.Tree.{literal, property, assign, performs};
ghost use Rattle.moo_syntax_node.specs.Source.{source};
ghost use Rattle.moo_eval_frame.specs.Seen.{context_of, failure_of, seen_answer, seen_flow, HadMemoryIn, IsKnown, IsKnownFailure};
ghost use Rattle.moo_builtin.specs.Telling.{Faults};
ghost use Rattle.moo_eval_semantics.specs.Meaning.{Computes, Does};
ghost use Rattle.moo_eval_task.specs.Seen.{state_of};

use crate::deferred::evaluate_stored;
use crate::interpreter::evaluate;
use moo_eval_access::{as_text, read_property, read_written};
use moo_eval_deferred::{write_deferred, write_written_deferred};
use moo_eval_frame::{Activation, CallStack, Failure, Flow, Stop};
use moo_eval_task::Task;
use moo_syntax_ast::Text;
use moo_syntax_node::Node;
use moo_value::Value;
use moo_world::World;

/// Reads a property whose name is a literal. Not inlined, so that other expressions need no stack space for it.
#[cycle(evaluation)]
#[inline(never)]
pub(crate) fn written_property(
    task: &mut Task,
    world: &mut World,
    active: &mut Activation,
    stack: &CallStack<'_>,
    indexed: Option<&Value>,
    base: &Node,
    name: &Text,
) -> Result<Value, Failure>
    ensures meaning { IsKnownFailure result → Computes Faults (context_of stack.now indexed.entry) (property (source base.now) (literal (Str name.now))) (state_of task.old world.old active.old) (seen_answer result) (state_of task.new world.new active.new) }
    ensures ticks { task.new.ticks_left ≤ task.old.ticks_left }
{
    let base = evaluate(task, world, active, stack, indexed, base)?;
    task.take_tick(active, stack)?;
    read_written(task.alloc(), world, active.programmer, &base, name)
}

/// Reads a property whose name is computed.
#[cycle(evaluation)]
#[inline(never)]
pub(crate) fn computed_property(
    task: &mut Task,
    world: &mut World,
    active: &mut Activation,
    stack: &CallStack<'_>,
    indexed: Option<&Value>,
    base: &Node,
    name: &Node,
) -> Result<Value, Failure>
    ensures meaning { IsKnownFailure result → Computes Faults (context_of stack.now indexed.entry) (property (source base.now) (source name.now)) (state_of task.old world.old active.old) (seen_answer result) (state_of task.new world.new active.new) }
    ensures ticks { task.new.ticks_left ≤ task.old.ticks_left }
{
    let base = evaluate(task, world, active, stack, indexed, base)?;
    let name = evaluate(task, world, active, stack, indexed, name)?;
    read_property(task.alloc(), world, active.programmer, &base, &name)
}

/// Runs `base.name = value`, if the assignment's own value is not used. Not inlined, so that nested statements need
/// no stack space for it.
#[cycle(evaluation)]
#[inline(never)]
pub(crate) fn set_property(
    task: &mut Task,
    world: &mut World,
    active: &mut Activation,
    stack: &CallStack<'_>,
    base: &Node,
    name: &Node,
    value: &Node,
) -> Result<Flow, Stop>
    ensures meaning { IsKnown result → Does Faults (context_of stack.now None) (performs (assign (property (source base.now) (source name.now)) (source value.now))) (state_of task.old world.old active.old) (seen_flow result) (state_of task.new world.new active.new) }
    ensures ticks { task.new.ticks_left ≤ task.old.ticks_left }
{
    task.take_tick(active, stack)?;
    let done = put_property(task, world, active, stack, base, name, value);
    task.end_statement(active, stack, done)
}

// Evaluates the object, the name and the value, then sets the property.
#[cycle(evaluation)]
#[inline(always)]
fn put_property(
    task: &mut Task,
    world: &mut World,
    active: &mut Activation,
    stack: &CallStack<'_>,
    base: &Node,
    name: &Node,
    value: &Node,
) -> Result<(), Failure>
    ensures ok { OnOk result ((v : Tree) × Computes Faults (context_of stack.now None) (assign (property (source base.now) (source name.now)) (source value.now)) (state_of task.old world.old active.old) (Ok v) (state_of task.new world.new active.new)) }
    ensures err { IfErr result (λ failure. HadMemoryIn failure → Computes Faults (context_of stack.now None) (assign (property (source base.now) (source name.now)) (source value.now)) (state_of task.old world.old active.old) (Err (failure_of failure)) (state_of task.new world.new active.new)) }
    ensures ticks { task.new.ticks_left ≤ task.old.ticks_left }
{
    let base = evaluate(task, world, active, stack, None, base)?;
    if let Some(name) = as_text(name) {
        task.take_tick(active, stack)?;
        let value = evaluate_stored(task, world, active, stack, None, value)?;
        return write_written_deferred(task.alloc(), world, active.programmer, &base, name, value);
    }
    let name = evaluate(task, world, active, stack, None, name)?;
    let value = evaluate_stored(task, world, active, stack, None, value)?;
    write_deferred(task.alloc(), world, active.programmer, &base, &name, value)
}
