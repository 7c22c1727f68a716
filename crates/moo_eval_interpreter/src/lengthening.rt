//! Runs `x = {@x, a};`.
ghost use Rattle.std.specs.Prelude.{◌≤◌, None, Ok, Err, IfErr, OnOk};
ghost use Rattle.moo_syntax_ast.specs.Tree.{variable, assign, performs, list, splice, element, no_items};
ghost use Rattle.moo_syntax_node.specs.Source.{source};
ghost use Rattle.moo_eval_semantics.specs.Meaning.{Computes, Does};
ghost use Rattle.moo_eval_frame.specs.Seen.{context_of, failure_of, seen_flow, HadMemoryIn, IsKnown};
ghost use Rattle.moo_eval_task.specs.SetTo.{IsSetTo};
ghost use Rattle.moo_builtin.specs.Telling.{Faults};
ghost use Rattle.moo_eval_task.specs.Seen.{state_of};

use crate::interpreter::evaluate;
use moo_eval_deferred::{Deferred, LongerList, set_deferred};
use moo_eval_frame::{Activation, CallStack, Failure, Flow, Stop};
use moo_eval_task::Task;
use moo_syntax_ast::Name;
use moo_syntax_node::Node;
use moo_value::{ErrorCode, Value};
use moo_world::World;

/// Runs `name = {@name, last}`, if the assignment's own value is not used. Not inlined, so that nested statements
/// need no stack space for it.
#[cycle(evaluation)]
#[inline(never)]
pub(crate) fn lengthen(
    task: &mut Task,
    world: &mut World,
    active: &mut Activation,
    stack: &CallStack<'_>,
    name: &Name,
    last: &Node,
) -> Result<Flow, Stop>
    ensures meaning { IsKnown result → Does Faults (context_of stack.now None) (performs (assign (variable name.now) (list (splice (variable name.now) (element (source last.now) no_items))))) (state_of task.old world.old active.old) (seen_flow result) (state_of task.new world.new active.new) }
    ensures ticks { task.new.ticks_left ≤ task.old.ticks_left }
{
    let lengthened = task.try_lengthen(active, name, last)?;
    if lengthened {
        return Ok(Flow::Next);
    }
    task.take_tick(active, stack)?;
    task.take_tick(active, stack)?;
    let set = put_longer(task, world, active, stack, name, last);
    task.end_assignment(active, stack, name, set)
}

// Sets the variable to the list `{@name, last}`, if that is one.
#[cycle(evaluation)]
fn put_longer(
    task: &mut Task,
    world: &mut World,
    active: &mut Activation,
    stack: &CallStack<'_>,
    name: &Name,
    last: &Node,
) -> Result<(), Failure>
    ensures ok { OnOk result (IsSetTo Faults (context_of stack.now None) name.now (list (splice (variable name.now) (element (source last.now) no_items))) (state_of task.old world.old active.old) (state_of task.new world.new active.new)) }
    ensures err { IfErr result (λ failure. HadMemoryIn failure → Computes Faults (context_of stack.now None) (list (splice (variable name.now) (element (source last.now) no_items))) (state_of task.old world.old active.old) (Err (failure_of failure)) (state_of task.new world.new active.new)) }
    ensures ticks { task.new.ticks_left ≤ task.old.ticks_left }
{
    let found = task.variable(active, stack, name)?;
    let Value::List(list) = found else {
        return Err(Failure::Fails(ErrorCode::TypeMismatch));
    };
    let last = evaluate(task, world, active, stack, None, last)?;
    let Some(longer) = LongerList::appended(list, last) else {
        return Err(Failure::Fails(ErrorCode::Quota));
    };
    let longer = Deferred::Longer(longer);
    set_deferred(task.alloc(), &mut active.variables, name, longer)?;
    Ok(())
}
