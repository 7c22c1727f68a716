//! Runs statements at once, and ends statements.
ghost use Rattle.std.specs.Prelude.{◌≡◌, ◌<◌, ◌≤◌, None, Ok, Err, IfErr, IsTrue, IsFalse, OnOk};
ghost use Rattle.moo_value.specs.Tree.{Tree};
ghost use Rattle.moo_syntax_ast.specs.Tree.{Expr, variable, assign, performs};
ghost use Rattle.moo_syntax_node.specs.Blocks.{source_statement};
ghost use Rattle.moo_world_table.specs.World.{World as WorldModel};
ghost use Rattle.moo_eval_access.specs.State.{State, ticked};
ghost use Rattle.moo_eval_semantics.specs.Meaning.{Computes, Does};
ghost use Rattle.moo_eval_frame.specs.Seen.{context_of, failure_of, seen_flow, HadMemoryIn, IsKnown};
ghost use Rattle.moo_eval_frame.specs.Outcome.{next};
ghost use Rattle.moo_eval_frame.specs.State.{Context};
ghost use Rattle.moo_builtin.specs.Telling.{Faults};
ghost use Rattle.moo_eval_task.specs.Seen.{state_of};
ghost use Rattle.moo_eval_task.specs.SetTo.{IsSetTo};

use crate::task::Task;
use moo_eval_frame::{Activation, CallStack, Failure, Flow, Stop};
use moo_syntax_ast::Name;
use moo_syntax_node::NodeStmt;

impl Task {
    /// Runs an assignment to a variable or to an element at once, and takes its ticks, except the statement's own. It computes
    /// from integers alone, or sets a variable to an element of a variable. Returns whether it did. If not, nothing has
    /// changed.
    #[inline(always)]
    pub fn try_statement(&mut self, active: &mut Activation, statement: &NodeStmt) -> bool
        ensures done { IsTrue result → (w : WorldModel) (c : Context) → Does Faults c (source_statement statement.now) (state_of self.old w active.old) (Ok next) (state_of self.new w active.new) }
        ensures kept { IsFalse result → (w : WorldModel) → state_of self.new w active.new ≡ state_of self.old w active.old }
        ensures ticks { self.new.ticks_left ≤ self.old.ticks_left }
    {
        match statement {
            NodeStmt::Set(name, value) => self.try_assign(active, name, value),
            NodeStmt::Extend(name, last) => self.try_add(active, name, last),
            NodeStmt::Put(name, place, value) => self.try_put(active, name, place, value),
            _ => false,
        }
    }

    /// Ends the statement `e;`, whose value nothing uses, after its tick is taken and `e` is computed. `done` has the
    /// failure of `e`, if it failed. The error is dropped, or is raised if the frame has the d bit.
    #[inline(always)]
    pub fn end_statement(
        &self,
        active: &Activation,
        stack: &CallStack<'_>,
        done: Result<(), Failure>,
    ) -> Result<Flow, Stop>
        ensures { (w : WorldModel) (e : Expr) (s : State) → 0 < s.ticks → OnOk done ((v : Tree) × Computes Faults (context_of stack.now None) e (ticked s) (Ok v) (state_of self.now w active.now)) → IfErr done (λ failure. HadMemoryIn failure → Computes Faults (context_of stack.now None) e (ticked s) (Err (failure_of failure)) (state_of self.now w active.now)) → IsKnown result → Does Faults (context_of stack.now None) (performs e) s (seen_flow result) (state_of self.now w active.now) }
    {
        match done {
            Ok(()) => Ok(Flow::Next),
            Err(failure) => {
                let _error = self.settled(active, stack, failure)?;
                Ok(Flow::Next)
            }
        }
    }

    /// Ends the statement `name = e;` after its two ticks are taken and `e` is computed. `set` is `Ok` if the variable
    /// is set to the value of `e`, and has the failure of `e` otherwise. Then the variable takes the error as its value,
    /// or the error is raised if the frame has the d bit.
    #[inline(always)]
    pub fn end_assignment(
        &self,
        active: &mut Activation,
        stack: &CallStack<'_>,
        name: &Name,
        set: Result<(), Failure>,
    ) -> Result<Flow, Stop>
        ensures { (w : WorldModel) (e : Expr) (s : State) → 0 < s.ticks → 0 < (ticked s).ticks → OnOk set (IsSetTo Faults (context_of stack.now None) name.now e (ticked (ticked s)) (state_of self.now w active.old)) → IfErr set (λ failure. HadMemoryIn failure → Computes Faults (context_of stack.now None) e (ticked (ticked s)) (Err (failure_of failure)) (state_of self.now w active.old)) → IsKnown result → Does Faults (context_of stack.now None) (performs (assign (variable name.now) e)) s (seen_flow result) (state_of self.now w active.new) }
    {
        match set {
            Ok(()) => Ok(Flow::Next),
            Err(failure) => {
                let value = self.settled(active, stack, failure)?;
                active.variables.set(name, value)?;
                Ok(Flow::Next)
            }
        }
    }
}
