//! The resources of a task, and the calls of built-in functions, which use them.
ghost use Rattle.std.specs.Prelude.{◌≡◌, ◌-◌, ◌<◌, ◌≤◌, ℕ, List, [], ◌++◌, None, Ok, Err, IfOk, IfErr, OnOk, OnErr};
ghost use Rattle.moo_value.specs.View.{tree as tree_of, trees};
ghost use Rattle.moo_eval_frame.specs.Outcome.{out_of_ticks, settled};
ghost use Rattle.moo_eval_frame.specs.Seen.{context_of, trace_of, stop_of, failure_of, seen_value, seen_answer, HadMemory, HadMemoryIn, IsKnown, IsKnownFailure};
ghost use Rattle.moo_syntax_function.specs.Names.{function_of};
ghost use Rattle.moo_eval_semantics.specs.Tasks.{most_ticks};
ghost use Rattle.moo_eval_semantics.specs.Calls.{CallsFunction};
ghost use Rattle.moo_builtin.specs.Telling.{Faults};
ghost use Rattle.moo_eval_semantics.specs.Stages.{resumed};
ghost use Rattle.moo_eval_hook.specs.SeenByHooks.{progress_of, seen_progress};
ghost use Rattle.moo_eval_hook.specs.Turns.{stage_turns, progress_turns};
ghost use Rattle.moo_eval_task.specs.Seen.{state_of};

use crate::spare::SpareMemory;
use moo_eval_call::{Ticks, call_function, call_values};
use moo_eval_frame::{Activation, CallStack, Failure, Gathered, Notice, Stop, settle};
use moo_eval_hook::{Progress, resume_call};
use moo_eval_semantics::Stage;
use moo_syntax_function::Function;
use moo_value::Value;
use moo_world::World;
use std::alloc::{AllocError, Global};

/// Holds the resources that a task may still use, and its requests so far.
#[derive(Drop)]
pub struct Task {
    pub ticks_left: Ticks,
    notices: Vec<Notice>,
    pub spare: SpareMemory,
    alloc: Global,
}

impl Task {
    /// Returns the resources of a task that begins: 100,000 ticks, and no notices.
    pub fn new(alloc: Global) -> Task
        ensures ticks { result.ticks_left ≡ most_ticks }
        ensures notices { result.notices.items ≡ [] }
    {
        Task {
            ticks_left: Ticks::full(),
            notices: Vec::new(alloc),
            spare: SpareMemory::new(alloc),
            alloc,
        }
    }

    /// Appends the task's notices to these. Err is out of memory; then `notices` holds what it held before.
    pub fn leave_notices(&mut self, notices: &mut Vec<Notice>) -> Result<(), AllocError>
        ensures left { OnOk result (notices.new.items ≡ notices.old.items ++ self.old.notices.items) }
        ensures kept { OnErr result (notices.new.items ≡ notices.old.items) }
    {
        notices.append(&mut self.notices)
    }

    /// Takes a tick. If none is left, changes nothing and returns the end of the task.
    #[inline(always)]
    pub fn take_tick(&mut self, active: &Activation, stack: &CallStack<'_>) -> Result<(), Stop>
        ensures taken { OnOk result (0 < self.old.ticks_left) }
        ensures left { OnOk result (self.new ≡ record self.old { ticks_left = self.old.ticks_left - 1 }) }
        ensures spent { IfErr result (λ stop. HadMemory stop → (self.old.ticks_left ≡ 0) × (stop_of stop ≡ out_of_ticks (trace_of stack.now active.now))) }
        ensures kept { IfErr result (λ _. self.new ≡ self.old) }
        ensures lacking { IfErr result (λ _. self.old.ticks_left ≡ 0) }
    {
        if !self.ticks_left.take() {
            return Err(self.spent(active, stack));
        }
        Ok(())
    }

    /// Takes `count` ticks. If fewer are left, it takes those and returns the end of the task.
    #[inline(always)]
    pub fn take_ticks(
        &mut self,
        active: &Activation,
        stack: &CallStack<'_>,
        count: usize,
    ) -> Result<(), Stop>
        ensures taken { OnOk result (count ≤ self.old.ticks_left) }
        ensures left { OnOk result (self.new ≡ record self.old { ticks_left = self.old.ticks_left - count }) }
        ensures spent { IfErr result (λ stop. HadMemory stop → (self.old.ticks_left < count) × (stop_of stop ≡ out_of_ticks (trace_of stack.now active.now))) }
        ensures emptied { IfErr result (λ _. self.new ≡ record self.old { ticks_left = 0 }) }
        ensures lacking { IfErr result (λ _. self.old.ticks_left < count) }
    {
        let left = self.ticks_left.left() as u32;
        if (left as usize) < count {
            self.ticks_left.leave(0);
            return Err(self.spent(active, stack));
        }
        self.ticks_left.leave(left - count as u32);
        Ok(())
    }

    // Returns the end of a task that has no tick left. Not inlined, so that taking a tick needs no stack space for
    // it.
    #[cold]
    #[inline(never)]
    fn spent(&self, active: &Activation, stack: &CallStack<'_>) -> Stop
        ensures { HadMemory result → stop_of result ≡ out_of_ticks (trace_of stack.now active.now) }
    {
        match stack.trace(self.alloc, active) {
            Ok(trace) => Stop::out_of_ticks(self.alloc, trace),
            Err(_) => Stop::Memory,
        }
    }

    /// Returns the outcome of an expression that fails. An error of its own is its value, or is raised if the frame has
    /// the d bit. Not inlined, so that nested expressions need no stack space for it.
    #[inline(never)]
    pub fn settled(
        &self,
        active: &Activation,
        stack: &CallStack<'_>,
        failure: Failure,
    ) -> Result<Value, Stop>
        ensures outcome { IsKnown result → settled stack.now.running.d (trace_of stack.now active.now) (Err (failure_of failure)) ≡ seen_value result }
        ensures known { IsKnown result → HadMemoryIn failure }
    {
        settle(self.alloc, stack, active, Err(failure))
    }

    /// Returns the allocator of values.
    pub fn alloc(&self) -> Global {
        self.alloc
    }

    /// Calls a built-in function, which may read the ticks that are left and leave notices. `None` is a name that no
    /// function has.
    #[inline(never)]
    pub fn call_function(
        &mut self,
        world: &mut World,
        active: &mut Activation,
        stack: &CallStack<'_>,
        function: Option<Function>,
        values: Gathered,
    ) -> Result<Value, Failure>
        ensures call { (name : List ℕ) → function_of name ≡ function → IsKnownFailure result → CallsFunction Faults (context_of stack.now None) name values (state_of self.old world.old active.old) (seen_answer result) (state_of self.new world.new active.new) }
        ensures ticks { self.new.ticks_left ≡ self.old.ticks_left }
    {
        let mut room = Vec::new(self.alloc);
        let answer = call_function(
            self.alloc,
            world,
            active,
            stack,
            &self.ticks_left,
            &mut self.notices,
            function,
            values,
            &mut room,
        );
        self.spare.keep_values(room);
        answer
    }

    /// Calls a built-in function as `call_function` does, if no list was spliced into its arguments. It may move the
    /// values out.
    #[inline(always)]
    pub fn call_values(
        &mut self,
        world: &mut World,
        active: &mut Activation,
        stack: &CallStack<'_>,
        function: Option<Function>,
        values: &mut [Value],
    ) -> Result<Value, Failure>
        ensures call { (name : List ℕ) → function_of name ≡ function → IsKnownFailure result → CallsFunction Faults (context_of stack.now None) name (trees values.old) (state_of self.old world.old active.old) (seen_answer result) (state_of self.new world.new active.new) }
        ensures ticks { self.new.ticks_left ≡ self.old.ticks_left }
    {
        call_values(
            self.alloc,
            world,
            active,
            stack,
            &self.ticks_left,
            &mut self.notices,
            function,
            values,
        )
    }

    /// Continues a function that calls verbs at a stage; it may leave notices. Each call brings the function nearer
    /// to its end.
    pub(crate) fn resume_call<'a>(
        &mut self,
        world: &mut World,
        active: &Activation,
        stack: &'a CallStack<'_>,
        stage: Stage,
        answer: Value,
    ) -> Result<Progress<'a>, Failure>
        ensures call { IsKnownFailure result → resumed (context_of stack.now None) stage (tree_of answer) (state_of self.old world.old active.now) ≡ (seen_progress result, state_of self.new world.new active.now) }
        ensures fewer { IfOk result (λ next. progress_turns world.new (progress_of next) ≤ stage_turns world.old stage) }
        ensures ticks { self.new.ticks_left ≡ self.old.ticks_left }
    {
        resume_call(
            self.alloc,
            world,
            stack,
            active,
            &mut self.notices,
            stage,
            answer,
        )
    }
}
