//! Runs whole tasks: 'MOO Tasks' of the LambdaMOO Programmer's Manual, 'Tracebacks' and 'Limits' of
//! docs/reference/language.md.
ghost use Rattle.std.specs.Prelude.{◌≡◌, [], IfOk};
ghost use Rattle.moo_eval_frame.specs.Seen.{seen_flow, IsKnown};
ghost use Rattle.moo_eval_slot.specs.Held.{slot_value};
ghost use Rattle.moo_eval_frame.specs.Variables.{first_bindings};
ghost use Rattle.moo_eval_slot.specs.Bindings.{value_of_name};
ghost use Rattle.moo_eval_frame.specs.Seen.{surroundings_of, variables_of};
ghost use Rattle.moo_builtin.specs.Telling.{Faults};
ghost use Rattle.moo_eval_semantics.specs.Task.{TaskEnds, end_of};
ghost use Rattle.moo_eval.specs.Ends.{IfEnded, LeavesNotices, IsBegunBy};
ghost use Rattle.moo_syntax_ast.specs.Given.{given_names};
ghost use Rattle.moo_eval_frame.specs.GivenValues.{given_values};

use moo_eval_control::traceback_lines;
use moo_eval_frame::{
    Activation, CallStack, Callers, Flow, Frame, FrameMemory, GivenValues, Stop, TaskEnv, Variables,
};
use moo_eval_interpreter::{Task, run_all};
use moo_value::Value;
use moo_world::World;
use std::alloc::{AllocError, Global};

/// Holds how a task ended.
#[derive(Drop)]
pub enum Ended {
    /// With a value: the one that it returned, or 0.
    Value(Value),
    /// With an error that no code caught: the lines of its traceback, each without an end of line.
    Uncaught(Vec<Vec<u8>>),
    /// Without a tick left: the lines of its traceback, in the same form.
    OutOfTicks(Vec<Vec<u8>>),
    /// For lack of memory, which no code catches. The world is then promised to be well-formed, and nothing else.
    Memory,
}

/// Runs the program of a frame, with 100,000 ticks, in the surroundings of `env`, which stay. Its changes of the
/// world stay too, also if it ends uncaught or out of ticks, and its notices are appended to those of `env`. After
/// lack of memory the earlier notices of `env` stay and come first, and the world is promised to be well-formed, and
/// nothing else. Errors of the program are no errors of this function: they end the task as `Ended` describes.
#[tactic(auto, using(crate::proofs::Ending::unchanged))]
pub fn run_task(alloc: Global, world: &mut World, start: Frame, env: &mut TaskEnv<'_>) -> Ended
    ensures ends { IfEnded result (λ end. LeavesNotices env.old.notices.items (TaskEnds Faults (surroundings_of env.old.surroundings) start world.old end world.new) env.new.notices.items) }
    ensures kept { env.new.surroundings ≡ env.old.surroundings }
    ensures notices { IsBegunBy env.old.notices.items env.new.notices.items }
{
    match GivenValues::first(alloc, &start) {
        Ok(given) => run_frame(alloc, world, start, given, env),
        Err(AllocError) => Ended::Memory,
    }
}

#[tactic(auto, using(crate::proofs::Ending::followed, crate::proofs::Ending::unchanged))]
fn run_frame(
    alloc: Global,
    world: &mut World,
    start: Frame,
    given: GivenValues,
    env: &mut TaskEnv<'_>,
) -> Ended
    requires { slot_value given_names (given_values given) (value_of_name []) ≡ value_of_name (first_bindings start) }
    ensures ends { IfEnded result (λ end. LeavesNotices env.old.notices.items (TaskEnds Faults (surroundings_of env.old.surroundings) start world.old end world.new) env.new.notices.items) }
    ensures kept { env.new.surroundings ≡ env.old.surroundings }
    ensures notices { IsBegunBy env.old.notices.items env.new.notices.items }
{
    let stack = CallStack {
        running: start.running(),
        callers: Callers::none(),
        surroundings: &env.surroundings,
    };
    let Ok(variables) = first_variables(alloc, &stack, given) else {
        return Ended::Memory;
    };
    let mut active = Activation {
        variables,
        programmer: stack.running.programmer,
    };
    let mut task = Task::new(alloc);
    let statements = stack.running.program.code();
    let outcome = run_all(&mut task, world, &mut active, &stack, statements);
    let Ok(()) = task.leave_notices(&mut env.notices) else {
        return Ended::Memory;
    };
    end_of_task(alloc, outcome)
}

// Returns the variables of the running frame, which begin with these values.
fn first_variables(
    alloc: Global,
    stack: &CallStack<'_>,
    given: GivenValues,
) -> Result<Variables, AllocError>
    ensures { IfOk result (λ v. variables_of v ≡ slot_value given_names (given_values given) (value_of_name [])) }
{
    let program = stack.running.program.try_clone()?;
    Variables::begun(program, given, FrameMemory::new(alloc))
}

fn end_of_task(alloc: Global, outcome: Result<Flow, Stop>) -> Ended
    ensures end { IfEnded result (λ end. end_of (seen_flow outcome) ≡ end) }
    ensures known { IfEnded result (λ _. IsKnown outcome) }
{
    match outcome {
        Ok(Flow::Return(value)) => Ended::Value(value),
        Ok(Flow::Next | Flow::Break(_) | Flow::Continue(_)) => Ended::Value(Value::Int(0)),
        Err(Stop::Raised(raise)) => match traceback_lines(
            alloc,
            raise.account.message.as_bytes(),
            &raise.account.trace,
        ) {
            Ok(lines) => Ended::Uncaught(lines),
            Err(AllocError) => Ended::Memory,
        },
        Err(Stop::OutOfTicks(trace)) => match traceback_lines(
            alloc,
            b"Task ran out of ticks",
            &trace,
        ) {
            Ok(lines) => Ended::OutOfTicks(lines),
            Err(AllocError) => Ended::Memory,
        },
        Err(Stop::Memory) => Ended::Memory,
    }
}
