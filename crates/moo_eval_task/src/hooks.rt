//! Continues functions that call verbs, skipping verbs without statements.
ghost use Rattle.std.specs.Prelude.{◌≡◌, None, IfOk, IfErr};
ghost use Rattle.moo_value.specs.View.{tree};
ghost use Rattle.moo_eval_frame.specs.Seen.{context_of, IsKnownFailure};
ghost use Rattle.moo_builtin.specs.Telling.{Faults};
ghost use Rattle.moo_eval_hook.specs.SeenByHooks.{progress_of};
ghost use Rattle.moo_eval_semantics.specs.Stages.{resumed};
ghost use Rattle.moo_eval_task.specs.Hooks.{LeadsTo, IsIdle, HasStatements, pending_progress, seen_pending};
ghost use Rattle.moo_eval_task.specs.Seen.{state_of};

use crate::task::Task;
use moo_eval_access::Called;
use moo_eval_frame::{Activation, CallStack, Failure};
use moo_eval_hook::{Progress, resume_call};
use moo_eval_semantics::Stage;
use moo_value::Value;
use moo_world::World;

/// Holds what a function that calls verbs waits for: nothing, since it has its value, or a verb with statements.
#[derive(Drop)]
pub enum Pending<'a> {
    Answer(Value),
    Verb(Box<Called<'a>>, Stage),
}

impl Task {
    /// Continues at a stage with the value of its verb, up to the function's end or to the next verb that has a
    /// statement.
    pub fn resume<'a>(
        &mut self,
        world: &mut World,
        active: &Activation,
        stack: &'a CallStack<'_>,
        stage: Stage,
        answer: Value,
    ) -> Result<Pending<'a>, Failure>
        ensures meaning { IsKnownFailure result → let next = resumed (context_of stack.now None) stage (tree answer) (state_of self.old world.old active.now) in
            LeadsTo Faults (context_of stack.now None) next.0 next.1 (seen_pending result) (state_of self.new world.new active.now) }
        ensures statements { IfOk result HasStatements }
        ensures ticks { self.new.ticks_left ≡ self.old.ticks_left }
    {
        let next = self.resume_call(world, active, stack, stage, answer)?;
        self.pass_over(world, active, stack, next)
    }

    /// Continues past verbs that are missing or have no statement, up to the function's end or to a verb that has one.
    /// A verb without a statement changes nothing and returns 0.
    pub fn pass_over<'a>(
        &mut self,
        world: &mut World,
        active: &Activation,
        stack: &'a CallStack<'_>,
        first: Progress<'a>,
    ) -> Result<Pending<'a>, Failure>
        ensures meaning { IsKnownFailure result → LeadsTo Faults (context_of stack.now None) (progress_of first.entry) (state_of self.old world.old active.now) (seen_pending result) (state_of self.new world.new active.now) }
        ensures statements { IfOk result HasStatements }
        ensures ticks { self.new.ticks_left ≡ self.old.ticks_left }
    {
        let mut next = first;
        'idle: loop {
            match idle_stage(next) {
                Ok(stage) => {
                    next = self.resume_call(world, active, stack, stage, Value::Int(0))?;
                }
                Err(pending) => return Ok(pending),
            }
        }
    }
}

// Returns the stage that comes next if no statement runs before it. Err is the function's value, or a verb with
// statements.
fn idle_stage<'a>(progress: Progress<'a>) -> Result<Stage, Pending<'a>>
    ensures ok { IfOk result (IsIdle progress.entry) }
    ensures same { IfErr result (λ pending. pending_progress pending ≡ progress_of progress.entry) }
    ensures statements { IfErr result HasStatements }
{
    match progress {
        Progress::Done(value) => Err(Pending::Answer(value)),
        Progress::StageNext(stage) => Ok(stage),
        Progress::VerbNext(called, stage) => {
            if called.stack.running.program.statements().is_empty() {
                Ok(stage)
            } else {
                Err(Pending::Verb(called, stage))
            }
        }
    }
}
