//! Runs `try`, with handlers or with a cleanup.
ghost use Rattle.std.specs.Prelude.{◌≤◌, None, Result, Err, map};
ghost use Rattle.moo_syntax_ast.specs.Tree.{try_except, try_finally, no_handler};
ghost use Rattle.moo_syntax_node.specs.Source.{source_codes};
ghost use Rattle.moo_syntax_node.specs.Blocks.{source_block, source_handler_list, with_source_handler};
ghost use Rattle.moo_eval_semantics.specs.Meaning.{Does, Prepares, Handles};
ghost use Rattle.moo_eval_frame.specs.Seen.{context_of, seen_flow, IsKnown};
ghost use Rattle.moo_eval_control.specs.SeenHandling.{guarded_of, seen_guarded};
ghost use Rattle.moo_builtin.specs.Telling.{Faults};
ghost use Rattle.moo_eval_interpreter.specs.Codes.{GivesCodes, seen_values};
ghost use Rattle.moo_eval_task.specs.Seen.{state_of};

use crate::catching::evaluate_codes;
use crate::statement::run_all;
use moo_eval_control::{
    Guarded, after_finally, handler_parts, push_guarded, runs_finally, settle_codes, with_values,
};
use moo_eval_frame::{Activation, CallStack, Flow, Stop};
use moo_eval_task::Task;
use moo_syntax_node::{NodeCodes, NodeHandler, NodeStmt};
use moo_value::Value;
use moo_world::World;
use std::slice;

// Evaluates the codes of all handlers, then runs the statements.
#[cycle(evaluation)]
#[inline(never)]
pub(crate) fn run_except(
    task: &mut Task,
    world: &mut World,
    active: &mut Activation,
    stack: &CallStack<'_>,
    body: &[NodeStmt],
    handlers: &[NodeHandler],
) -> Result<Flow, Stop>
    ensures meaning { IsKnown result → Does Faults (context_of stack.now None) (try_except (source_block body.now) (source_handler_list handlers.now)) (state_of task.old world.old active.old) (seen_flow result) (state_of task.new world.new active.new) }
    ensures ticks { task.new.ticks_left ≤ task.old.ticks_left }
{
    match handlers {
        [handler] => run_with_handler(task, world, active, stack, body, handler),
        _ => run_with_handlers(task, world, active, stack, body, handlers),
    }
}

// Runs a `try` with one handler, which needs no list of them.
#[cycle(evaluation)]
#[inline(always)]
fn run_with_handler(
    task: &mut Task,
    world: &mut World,
    active: &mut Activation,
    stack: &CallStack<'_>,
    body: &[NodeStmt],
    handler: &NodeHandler,
) -> Result<Flow, Stop>
    ensures meaning { IsKnown result → Does Faults (context_of stack.now None) (try_except (source_block body.now) (with_source_handler handler.now no_handler)) (state_of task.old world.old active.old) (seen_flow result) (state_of task.new world.new active.new) }
    ensures ticks { task.new.ticks_left ≤ task.old.ticks_left }
{
    let parts = handler_parts(handler);
    let values = code_values(task, world, active, stack, parts.codes)?;
    let guarded = with_values(parts, values);
    let outcome = run_all(task, world, active, stack, body);
    end_try(
        task,
        world,
        active,
        stack,
        slice::from_ref(&guarded),
        outcome,
    )
}

// Runs a `try` with any number of handlers. Not inlined, so that one with one handler needs no stack space for it.
#[cycle(evaluation)]
#[inline(never)]
fn run_with_handlers(
    task: &mut Task,
    world: &mut World,
    active: &mut Activation,
    stack: &CallStack<'_>,
    body: &[NodeStmt],
    handlers: &[NodeHandler],
) -> Result<Flow, Stop>
    ensures meaning { IsKnown result → Does Faults (context_of stack.now None) (try_except (source_block body.now) (source_handler_list handlers.now)) (state_of task.old world.old active.old) (seen_flow result) (state_of task.new world.new active.new) }
    ensures ticks { task.new.ticks_left ≤ task.old.ticks_left }
{
    let guarded = prepare(task, world, active, stack, handlers)?;
    let outcome = run_all(task, world, active, stack, body);
    end_try(task, world, active, stack, &guarded, outcome)
}

// Ends a `try` whose statements have this outcome: an error goes to the first handler that names it.
#[cycle(evaluation)]
#[inline(always)]
fn end_try(
    task: &mut Task,
    world: &mut World,
    active: &mut Activation,
    stack: &CallStack<'_>,
    guarded: &[Guarded<'_>],
    outcome: Result<Flow, Stop>,
) -> Result<Flow, Stop>
    ensures known { IsKnown result → IsKnown outcome }
    ensures meaning { IsKnown result → Handles Faults (context_of stack.now None) (map guarded_of guarded.now) (seen_flow outcome) (state_of task.old world.old active.old) (seen_flow result) (state_of task.new world.new active.new) }
    ensures ticks { task.new.ticks_left ≤ task.old.ticks_left }
{
    match outcome {
        Ok(flow) => Ok(flow),
        Err(Stop::Raised(raise)) => {
            let body = task.begin_handler(active, stack, guarded, raise)?;
            run_all(task, world, active, stack, body)
        }
        Err(Stop::OutOfTicks(trace)) => Err(Stop::OutOfTicks(trace)),
        Err(Stop::Memory) => Err(Stop::Memory),
    }
}

// Returns handlers with the values of their codes, in order.
#[cycle(evaluation)]
#[inline(never)]
fn prepare<'a>(
    task: &mut Task,
    world: &mut World,
    active: &mut Activation,
    stack: &CallStack<'_>,
    handlers: &'a [NodeHandler],
) -> Result<Vec<Guarded<'a>>, Stop>
    ensures meaning { IsKnown result → Prepares Faults (context_of stack.now None) (source_handler_list handlers.now) (state_of task.old world.old active.old) (seen_guarded result) (state_of task.new world.new active.new) }
    ensures ticks { task.new.ticks_left ≤ task.old.ticks_left }
{
    let mut guarded = Vec::new(task.alloc());
    for handler in handlers {
        let parts = handler_parts(handler);
        let values = code_values(task, world, active, stack, parts.codes)?;
        push_guarded(&mut guarded, parts, values)?;
    }
    Ok(guarded)
}

// Returns the values of the codes of a handler. It makes none for literal errors, of which it takes only the ticks, or
// for `ANY`.
#[cycle(evaluation)]
#[inline(always)]
fn code_values(
    task: &mut Task,
    world: &mut World,
    active: &mut Activation,
    stack: &CallStack<'_>,
    codes: &NodeCodes,
) -> Result<Vec<Value>, Stop>
    ensures meaning { IsKnown result → GivesCodes Faults (context_of stack.now None) (source_codes codes.now) (state_of task.old world.old active.old) (seen_values codes.now result) (state_of task.new world.new active.new) }
    ensures ticks { task.new.ticks_left ≤ task.old.ticks_left }
{
    match codes {
        NodeCodes::Any => Ok(Vec::new(task.alloc())),
        NodeCodes::Known(errors) => {
            task.take_ticks(active, stack, errors.len())?;
            Ok(Vec::new(task.alloc()))
        }
        NodeCodes::Listed(items) => {
            let outcome = evaluate_codes(task, world, active, stack, None, items);
            settle_codes(task.alloc(), stack, active, outcome)
        }
    }
}

// Runs the cleanup after the statements, however they end, unless ticks or memory ran out.
#[cycle(evaluation)]
#[inline(never)]
pub(crate) fn run_finally(
    task: &mut Task,
    world: &mut World,
    active: &mut Activation,
    stack: &CallStack<'_>,
    body: &[NodeStmt],
    cleanup: &[NodeStmt],
) -> Result<Flow, Stop>
    ensures meaning { IsKnown result → Does Faults (context_of stack.now None) (try_finally (source_block body.now) (source_block cleanup.now)) (state_of task.old world.old active.old) (seen_flow result) (state_of task.new world.new active.new) }
    ensures ticks { task.new.ticks_left ≤ task.old.ticks_left }
{
    let outcome = run_all(task, world, active, stack, body);
    if !runs_finally(&outcome) {
        return outcome;
    }
    let last = run_all(task, world, active, stack, cleanup);
    after_finally(outcome, last)
}
