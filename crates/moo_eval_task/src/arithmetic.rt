//! Computes operators between integers, variables, their elements, lengths and types at once, from integers alone.
ghost use Rattle.std.specs.Prelude.{◌≡◌, ◌≤◌, Ok, IfSome, IfNone};
ghost use Rattle.moo_value.specs.Tree.{integer};
ghost use Rattle.moo_syntax_ast.specs.Tree.{binary};
ghost use Rattle.moo_syntax_node.specs.Source.{source};
ghost use Rattle.moo_world_table.specs.World.{World as WorldModel};
ghost use Rattle.moo_eval_frame.specs.State.{Context};
ghost use Rattle.moo_builtin.specs.Telling.{Faults};
ghost use Rattle.moo_eval_semantics.specs.Meaning.{Evaluates};
ghost use Rattle.moo_eval_task.specs.Seen.{state_of};

use crate::task::Task;
use moo_eval_frame::Activation;
use moo_eval_integer::arithmetic_integer;
use moo_syntax_ast::operator::BinaryOperator;
use moo_syntax_node::Node;

impl Task {
    /// Computes the integer of an operator between two nodes from integers alone, and takes its ticks. `None` if that
    /// can't be; then nothing has changed.
    #[inline(always)]
    pub(crate) fn try_integers(
        &mut self,
        active: &Activation,
        operator: BinaryOperator,
        a: &Node,
        b: &Node,
    ) -> Option<i32>
        ensures some { IfSome result (λ n. (w : WorldModel) (c : Context) → Evaluates Faults c (binary operator (source a.now) (source b.now)) (state_of self.old w active.now) (Ok (integer n)) (state_of self.new w active.now)) }
        ensures none { IfNone result (self.new ≡ self.old) }
        ensures ticks { self.new.ticks_left ≤ self.old.ticks_left }
    {
        let mut left = self.ticks_left.left() as u32;
        let number = arithmetic_integer(active, &mut left, operator, a, b)?;
        self.ticks_left.leave(left);
        Some(number)
    }
}
