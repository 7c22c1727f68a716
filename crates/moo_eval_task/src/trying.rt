//! Begins the handler of an error.
ghost use Rattle.std.specs.Prelude.{None, Result, Err, IfOk, IfErr, map};
ghost use Rattle.moo_syntax_node.specs.Blocks.{source_block};
ghost use Rattle.moo_eval_semantics.specs.Meaning.{RunsAll, Takes};
ghost use Rattle.moo_eval_control.specs.Handling.{chosen};
ghost use Rattle.moo_eval_frame.specs.Outcome.{Flow as Flowing, Stop as Stopped};
ghost use Rattle.moo_eval_frame.specs.Seen.{context_of, raise_of, stop_of, HadMemory};
ghost use Rattle.moo_eval_control.specs.SeenHandling.{guarded_of};
ghost use Rattle.moo_world_table.specs.World.{World as WorldModel};
ghost use Rattle.moo_eval_access.specs.State.{State};
ghost use Rattle.moo_builtin.specs.Telling.{Faults};
ghost use Rattle.moo_eval_task.specs.Seen.{state_of};

use crate::task::Task;
use moo_eval_control::{Guarded, chosen, set_caught};
use moo_eval_frame::{Activation, CallStack, Raise, Stop};
use moo_syntax_node::NodeStmt;

impl Task {
    /// Returns the statements of the first handler that names the error, and sets its variable. Err is the error itself
    /// if no handler names it. Err is E_QUOTA if the variable's value is past the limits. Not inlined, so that nested
    /// handlers need no stack space for it.
    #[inline(never)]
    pub fn begin_handler<'a>(
        &self,
        active: &mut Activation,
        stack: &CallStack<'_>,
        guarded: &[Guarded<'a>],
        raise: Raise,
    ) -> Result<&'a [NodeStmt], Stop>
        ensures ok { IfOk result (λ body. (w : WorldModel) (o : Result Flowing Stopped) (s : State) → RunsAll Faults (context_of stack.now None) (source_block body.now) (state_of self.now w active.new) o s → Takes Faults (context_of stack.now None) (chosen (map guarded_of guarded.now) (raise_of raise).code) (raise_of raise) (state_of self.now w active.old) o s) }
        ensures err { IfErr result (λ stop. HadMemory stop → (w : WorldModel) → Takes Faults (context_of stack.now None) (chosen (map guarded_of guarded.now) (raise_of raise).code) (raise_of raise) (state_of self.now w active.old) (Err (stop_of stop)) (state_of self.now w active.new)) }
    {
        let Some(taken) = chosen(guarded, raise.account.code) else {
            return Err(Stop::Raised(raise));
        };
        set_caught(self.alloc(), stack, active, taken.name, raise)?;
        Ok(taken.body)
    }
}
