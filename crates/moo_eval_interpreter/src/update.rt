//! Runs `x = f(x, a);` for a function that makes a list of its first argument.
ghost use Rattle.std.specs.Prelude.{◌≤◌, None, Err, IfErr, OnOk};
ghost use Rattle.moo_syntax_ast.specs.Tree.{variable, assign, performs, call};
ghost use Rattle.moo_syntax_node.specs.Source.{source_items};
ghost use Rattle.moo_eval_semantics.specs.Meaning.{Computes, Does};
ghost use Rattle.moo_eval_frame.specs.Seen.{context_of, failure_of, seen_flow, HadMemoryIn, IsKnown};
ghost use Rattle.moo_eval_task.specs.SetTo.{IsSetTo};
ghost use Rattle.moo_builtin.specs.Telling.{Faults};
ghost use Rattle.moo_eval_task.specs.Seen.{state_of};

use crate::deferred::defer_call;
use moo_eval_deferred::{Deferred, set_called, set_deferred};
use moo_eval_frame::{Activation, CallStack, Failure, Flow, Stop};
use moo_eval_task::Task;
use moo_syntax_ast::Name;
use moo_syntax_node::{FunctionName, NodeItem};
use moo_world::World;

/// Runs `name = called(items)`, if the assignment's own value is not used. A list that nothing but the variable
/// holds is changed in place. Not inlined, so that nested statements need no stack space for it.
#[cycle(evaluation)]
#[inline(never)]
pub(crate) fn update(
    task: &mut Task,
    world: &mut World,
    active: &mut Activation,
    stack: &CallStack<'_>,
    name: &Name,
    called: &FunctionName,
    items: &[NodeItem],
) -> Result<Flow, Stop>
    ensures meaning { IsKnown result → Does Faults (context_of stack.now None) (performs (assign (variable name.now) (call called.now (source_items items.now)))) (state_of task.old world.old active.old) (seen_flow result) (state_of task.new world.new active.new) }
    ensures ticks { task.new.ticks_left ≤ task.old.ticks_left }
{
    task.take_tick(active, stack)?;
    task.take_tick(active, stack)?;
    let set = put_updated(task, world, active, stack, name, called, items);
    task.end_assignment(active, stack, name, set)
}

// Sets the variable to the value of the call, if it has one.
#[cycle(evaluation)]
#[inline(always)]
fn put_updated(
    task: &mut Task,
    world: &mut World,
    active: &mut Activation,
    stack: &CallStack<'_>,
    name: &Name,
    called: &FunctionName,
    items: &[NodeItem],
) -> Result<(), Failure>
    ensures ok { OnOk result (IsSetTo Faults (context_of stack.now None) name.now (call called.now (source_items items.now)) (state_of task.old world.old active.old) (state_of task.new world.new active.new)) }
    ensures err { IfErr result (λ failure. HadMemoryIn failure → Computes Faults (context_of stack.now None) (call called.now (source_items items.now)) (state_of task.old world.old active.old) (Err (failure_of failure)) (state_of task.new world.new active.new)) }
    ensures ticks { task.new.ticks_left ≤ task.old.ticks_left }
{
    let value = defer_call(task, world, active, stack, None, called, items)?;
    match value {
        Deferred::Called(call) => {
            let room = set_called(task.alloc(), &mut active.variables, name, call)?;
            task.spare.keep_values(room);
            Ok(())
        }
        value => {
            set_deferred(task.alloc(), &mut active.variables, name, value)?;
            Ok(())
        }
    }
}
