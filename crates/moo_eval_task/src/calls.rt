//! Reads the object of a call of a verb at once, and returns the value that a verb gives.
ghost use Rattle.std.specs.Prelude.{◌≡◌, ◌≤◌, ◌<◌, ◌-◌, Option, None, OnOk, IfSome, IfNone, is_ok, IsTrue};
ghost use Rattle.moo_value.specs.Tree.{object};
ghost use Rattle.moo_syntax_node.specs.Source.{source};
ghost use Rattle.moo_eval_frame.specs.declared.frame.Activation.{Activation};
ghost use Rattle.moo_eval_frame.specs.Seen.{variables_of, seen_answer, seen_flow, IsKnown, IsKnownFailure};
ghost use Rattle.moo_eval_semantics.specs.Operands.{answered};
ghost use Rattle.moo_eval_task.specs.Leaves.{GivesLeaf};

use crate::property::object_of;
use crate::task::Task;
use moo_eval_frame::{Activation, Failure, Flow, Stop};
use moo_syntax_node::Node;
use moo_value::Value;

impl Task {
    /// Returns the object in a variable, or a literal one. Takes two ticks: that of the object, and that of a literal
    /// name. `None` if that can't be; then nothing has changed.
    #[inline(always)]
    pub fn try_object(&mut self, active: &Activation, base: &Node) -> Option<i32>
        ensures some { IfSome result (λ o. GivesLeaf (variables_of active.now.variables) (source base.now) (object o) × (1 < self.old.ticks_left) × (self.new ≡ record self.old { ticks_left = self.old.ticks_left - 2 })) }
        ensures none { IfNone result (self.new ≡ self.old) }
        ensures ticks { self.new.ticks_left ≤ self.old.ticks_left }
    {
        let object = object_of(active, base)?;
        let ticks = self.ticks_left.left() as u32;
        if ticks < 2 {
            return None;
        }
        self.ticks_left.leave(ticks - 2);
        Some(object)
    }
}

/// Returns the value of a called verb: the one that it returns, or 0 if it comes to its end. Err if it was stopped.
pub fn answered(outcome: Result<Flow, Stop>) -> Result<Value, Failure>
    ensures answer { answered (seen_flow outcome) ≡ seen_answer result }
    ensures known { IsKnownFailure result → IsKnown outcome }
    ensures comes { OnOk result (IsTrue (is_ok outcome)) }
{
    match outcome? {
        Flow::Return(value) => Ok(value),
        Flow::Next | Flow::Break(_) | Flow::Continue(_) => Ok(Value::Int(0)),
    }
}
