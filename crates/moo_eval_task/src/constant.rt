//! Evaluates lists of literals.
ghost use Rattle.std.specs.Prelude.{◌≡◌, ◌≤◌, ◌-◌, Option, Ok, IfSome, IfNone};
ghost use Rattle.std.specs.Borrow.{Bor};
ghost use Rattle.moo_value.specs.Tree.{elements_of, list_of};
ghost use Rattle.moo_value.specs.View.{tree};
ghost use Rattle.moo_value.specs.declared.value.Value.{Value as ValueModel};
ghost use Rattle.moo_syntax_ast.specs.Tree.{list};
ghost use Rattle.moo_syntax_node.specs.Spelling.{spelled, spelled_items};
ghost use Rattle.moo_world_table.specs.World.{World};
ghost use Rattle.moo_builtin.specs.Telling.{Faults};
ghost use Rattle.moo_eval_frame.specs.State.{Context};
ghost use Rattle.moo_eval_frame.specs.declared.frame.Activation.{Activation};
ghost use Rattle.moo_eval_frame.specs.Seen.{context_of, seen_answer, seen_done, IsKnownFailure};
ghost use Rattle.moo_eval_semantics.specs.Meaning.{Computes, Evaluates, Puts, Stores};
ghost use Rattle.moo_eval_access.specs.State.{State};
ghost use Rattle.moo_eval_access.specs.Target.{scattered};
ghost use Rattle.moo_eval_access.specs.SeenTarget.{steps_of};
ghost use Rattle.moo_eval_task.specs.Seen.{state_of};

use crate::task::Task;
use moo_eval_access::{Step, rebuilt};
use moo_eval_frame::{Activation, CallStack, Failure};
use moo_syntax_node::Constant;
use moo_value::{ErrorCode, MooList, Value, WEIGHT_LIMIT};

impl Task {
    /// Returns a list of literals, and takes its ticks: one for the list and one for each literal in it. `None` if ticks or
    /// memory are missing; then nothing has changed.
    #[inline(always)]
    pub(crate) fn try_constant(&mut self, literals: &Constant) -> Option<Value>
        ensures some { IfSome result (λ v. (w : World) (active : Activation) (c : Context) → Evaluates Faults c (spelled (list_of literals.now)) (state_of self.old w active) (Ok (tree v)) (state_of self.new w active)) }
        ensures none { IfNone result (self.new ≡ self.old) }
        ensures ticks { self.new.ticks_left ≤ self.old.ticks_left }
    {
        let left = self.ticks_left.left() as u32;
        if (left as usize) < literals.nodes() {
            return None;
        }
        let list = literals.list();
        prove!(list.weight() <= WEIGHT_LIMIT);
        let value = copied(list)?;
        self.ticks_left.leave(left - literals.nodes() as u32);
        Some(value)
    }

    /// Assigns a value to a list of literals at the root of these steps, which no program does. Fails as `rebuilt`; then E_TYPE
    /// for a value that is no list, E_ARGS for a wrong number of elements. Nothing is set.
    #[inline(never)]
    pub fn store_literals(
        &self,
        literals: &Constant,
        steps: Vec<Step>,
        value: Value,
    ) -> Result<(), Failure>
        ensures { (c : Context) (s : State) → IsKnownFailure result → Stores Faults c (scattered (spelled_items (elements_of literals.now))) (steps_of steps.items) (tree value) s (seen_done result) s }
    {
        let whole = rebuilt(self.alloc(), steps, value)?;
        deal(literals.list(), &whole)
    }

    /// Returns a list of literals, whose own tick was taken. Takes those of the literals; if fewer are left, it takes those and
    /// returns the end of the task.
    #[inline(never)]
    pub fn constant(
        &mut self,
        active: &Activation,
        stack: &CallStack<'_>,
        literals: &Constant,
    ) -> Result<Value, Failure>
        ensures meaning { (indexed : Option (Bor ValueModel)) (w : World) → IsKnownFailure result → Computes Faults (context_of stack.now indexed) (list (spelled_items (elements_of literals.now))) (state_of self.old w active.now) (seen_answer result) (state_of self.new w active.now) }
        ensures ticks { self.new.ticks_left ≤ self.old.ticks_left }
    {
        let list = literals.list();
        prove!(list.weight() <= WEIGHT_LIMIT);
        self.take_ticks(active, stack, literals.nodes() - 1)?;
        Ok(Value::List(list.try_clone()?))
    }
}

// Deals the elements of a list to literals, so nothing is set: E_TYPE for a value that is no list, E_ARGS for a wrong
// number of elements.
fn deal(literals: &MooList, value: &Value) -> Result<(), Failure>
    ensures { (c : Context) (s : State) → IsKnownFailure result → Puts Faults c (scattered (spelled_items (elements_of literals.now))) (tree value.now) s (seen_done result) s }
{
    let Value::List(list) = value else {
        return Err(Failure::Fails(ErrorCode::TypeMismatch));
    };
    if list.len() != literals.len() {
        return Err(Failure::Fails(ErrorCode::Arguments));
    }
    Ok(())
}

#[inline(always)]
fn copied(list: &MooList) -> Option<Value>
    ensures { IfSome result (λ copy. tree copy ≡ list_of list.now) }
{
    match list.try_clone() {
        Ok(copy) => Some(Value::List(copy)),
        Err(_) => None,
    }
}
