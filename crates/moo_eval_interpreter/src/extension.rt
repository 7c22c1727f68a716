//! Runs `x = x + a;`.
ghost use Rattle.std.specs.Prelude.{◌≤◌, None, Ok, Err, IfErr, OnOk};
ghost use Rattle.moo_syntax_ast.specs.declared.operator.BinaryOperator.TheVariants.{Add};
ghost use Rattle.moo_syntax_ast.specs.Tree.{variable, binary, assign, performs};
ghost use Rattle.moo_syntax_node.specs.Source.{source};
ghost use Rattle.moo_eval_frame.specs.Seen.{context_of, failure_of, seen_flow, HadMemoryIn, IsKnown};
ghost use Rattle.moo_builtin.specs.Telling.{Faults};
ghost use Rattle.moo_eval_semantics.specs.Meaning.{Computes, Does};
ghost use Rattle.moo_eval_task.specs.SetTo.{IsSetTo};
ghost use Rattle.moo_eval_task.specs.Seen.{state_of};

use crate::arithmetic::evaluate_tried;
use moo_eval_access::set_sum;
use moo_eval_frame::{Activation, CallStack, Failure, Flow, Stop};
use moo_eval_task::Task;
use moo_syntax_ast::Name;
use moo_syntax_node::Node;
use moo_world::World;

// Runs `name = name + last`, if the assignment's own value is not used: at once if that can be. Not inlined, so
// that nested statements need no stack space for it.
#[cycle(evaluation)]
#[inline(never)]
pub(crate) fn extend_value(
    task: &mut Task,
    world: &mut World,
    active: &mut Activation,
    stack: &CallStack<'_>,
    name: &Name,
    last: &Node,
) -> Result<Flow, Stop>
    ensures meaning { IsKnown result → Does Faults (context_of stack.now None) (performs (assign (variable name.now) (binary Add (variable name.now) (source last.now)))) (state_of task.old world.old active.old) (seen_flow result) (state_of task.new world.new active.new) }
    ensures ticks { task.new.ticks_left ≤ task.old.ticks_left }
{
    let extended = task.try_extend(active, name, last)?;
    if extended {
        return Ok(Flow::Next);
    }
    task.take_tick(active, stack)?;
    task.take_tick(active, stack)?;
    let set = put_extended(task, world, active, stack, name, last);
    task.end_assignment(active, stack, name, set)
}

// Sets the variable to `name + last`, if that is a value.
#[cycle(evaluation)]
fn put_extended(
    task: &mut Task,
    world: &mut World,
    active: &mut Activation,
    stack: &CallStack<'_>,
    name: &Name,
    last: &Node,
) -> Result<(), Failure>
    ensures ok { OnOk result (IsSetTo Faults (context_of stack.now None) name.now (binary Add (variable name.now) (source last.now)) (state_of task.old world.old active.old) (state_of task.new world.new active.new)) }
    ensures err { IfErr result (λ failure. HadMemoryIn failure → Computes Faults (context_of stack.now None) (binary Add (variable name.now) (source last.now)) (state_of task.old world.old active.old) (Err (failure_of failure)) (state_of task.new world.new active.new)) }
    ensures ticks { task.new.ticks_left ≤ task.old.ticks_left }
{
    let first = task.variable(active, stack, name)?;
    let last = evaluate_tried(task, world, active, stack, None, last)?;
    set_sum(task.alloc(), &mut active.variables, name, first, &last)?;
    Ok(())
}
