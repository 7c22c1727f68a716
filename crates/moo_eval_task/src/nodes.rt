//! Evaluates operators between integers, elements, lengths and types at once, and copies literal strings.
ghost use Rattle.std.specs.Prelude.{◌≡◌, ◌≤◌, Ok, IfSome, IfNone};
ghost use Rattle.moo_value.specs.Tree.{integer, string};
ghost use Rattle.moo_value.specs.View.{tree};
ghost use Rattle.moo_syntax_ast.specs.Tree.{call};
ghost use Rattle.moo_syntax_node.specs.Source.{source, source_items};
ghost use Rattle.moo_world_table.specs.World.{World as WorldModel};
ghost use Rattle.moo_eval_frame.specs.State.{Context};
ghost use Rattle.moo_eval_frame.specs.Seen.{seen_answer, IsKnownFailure};
ghost use Rattle.moo_builtin.specs.Telling.{Faults};
ghost use Rattle.moo_eval_semantics.specs.Meaning.{Evaluates};
ghost use Rattle.moo_eval_task.specs.Seen.{state_of};

use crate::task::Task;
use moo_eval_frame::{Activation, Failure};
use moo_eval_integer::call_integer;
use moo_syntax_ast::Text;
use moo_syntax_node::{FunctionName, Node, NodeItem};
use moo_value::Value;

impl Task {
    /// Evaluates at once an operator of arithmetic, an element as `try_element` does, a list of literals, or the length or
    /// the type of a variable. Takes its ticks. `None` if that can't be, or for another node; then nothing has changed.
    #[inline(always)]
    pub fn try_node(&mut self, active: &Activation, node: &Node) -> Option<Value>
        ensures some { IfSome result (λ v. (w : WorldModel) (c : Context) → Evaluates Faults c (source node.now) (state_of self.old w active.now) (Ok (tree v)) (state_of self.new w active.now)) }
        ensures none { IfNone result (self.new ≡ self.old) }
        ensures ticks { self.new.ticks_left ≤ self.old.ticks_left }
    {
        match node {
            Node::Arithmetic(operator, left, right) => {
                let number = self.try_integers(active, *operator, left, right)?;
                Some(Value::Int(number))
            }
            Node::Index(base, place) => self.try_element(active, base, place),
            Node::Constant(list) => self.try_constant(list),
            Node::Call(name, items) => {
                let number = self.try_call(active, name, items)?;
                Some(Value::Int(number))
            }
            _ => None,
        }
    }

    // Computes a call of `length` or `typeof` for a variable, and takes its ticks. `None` if that can't be, or for
    // another call; then nothing has changed.
    #[inline(always)]
    fn try_call(
        &mut self,
        active: &Activation,
        name: &FunctionName,
        items: &[NodeItem],
    ) -> Option<i32>
        ensures some { IfSome result (λ n. (w : WorldModel) (c : Context) → Evaluates Faults c (call name.now (source_items items.now)) (state_of self.old w active.now) (Ok (integer n)) (state_of self.new w active.now)) }
        ensures none { IfNone result (self.new ≡ self.old) }
        ensures ticks { self.new.ticks_left ≤ self.old.ticks_left }
    {
        let mut left = self.ticks_left.left() as u32;
        let number = call_integer(active, &mut left, name, items)?;
        self.ticks_left.leave(left);
        Some(number)
    }
}

/// Returns the value of a literal string. Not inlined, so that nested expressions need no stack space for it.
#[inline(never)]
pub fn copied_text(text: &Text) -> Result<Value, Failure>
    ensures { IsKnownFailure result → Ok (string text.now) ≡ seen_answer result }
{
    Ok(Value::Str(text.string().try_clone()?))
}

/// Is true for a node that may be computed from integers alone.
#[inline(always)]
pub(crate) fn may_be_integer(node: &Node) -> bool {
    matches!(
        node,
        Node::Integer(_)
            | Node::Variable(_)
            | Node::Arithmetic(..)
            | Node::Binary(..)
            | Node::Index(..)
            | Node::Call(..)
    )
}
