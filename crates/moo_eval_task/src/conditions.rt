//! Tests conditions at once, to learn only whether their values are true.
ghost use Rattle.std.specs.Prelude.{◌≡◌, ◌≤◌, Ok, IfSome, IfNone};
ghost use Rattle.moo_value.specs.Tree.{Tree};
ghost use Rattle.moo_syntax_ast.specs.Tree.{variable, binary};
ghost use Rattle.moo_syntax_node.specs.Source.{source};
ghost use Rattle.moo_builtin_operator.specs.Truth.{is_true, is_decided};
ghost use Rattle.moo_world_table.specs.World.{World as WorldModel};
ghost use Rattle.moo_eval_frame.specs.State.{Context};
ghost use Rattle.moo_builtin.specs.Telling.{Faults};
ghost use Rattle.moo_eval_semantics.specs.Meaning.{Evaluates};
ghost use Rattle.moo_eval_task.specs.Seen.{state_of};

use crate::leaves::leaf_value;
use crate::task::Task;
use moo_builtin_operator::is_true;
use moo_eval_access::binary;
use moo_eval_frame::Activation;
use moo_eval_integer::{compare_nodes, counts_as_true, is_equality, is_leaf};
use moo_syntax_ast::Name;
use moo_syntax_ast::operator::{BinaryOperator, LogicOperator};
use moo_syntax_node::Node;

impl Task {
    /// Returns whether the value of a variable or of an operator is true, and takes its ticks. The operands of an operator
    /// are integers, variables or literals or, for `==` and `!=`, elements. `None` for another node or other operands, for an
    /// error, or if ticks or memory are missing; then nothing has changed. An operator of arithmetic is tested first, since
    /// most loops have one.
    #[inline(always)]
    pub fn try_test(&mut self, active: &Activation, test: &Node) -> Option<bool>
        ensures some { IfSome result (λ b. (w : WorldModel) (c : Context) → (v : Tree) × Evaluates Faults c (source test.now) (state_of self.old w active.now) (Ok v) (state_of self.new w active.now) × (is_true v ≡ b)) }
        ensures none { IfNone result (self.new ≡ self.old) }
        ensures ticks { self.new.ticks_left ≤ self.old.ticks_left }
    {
        if let Node::Arithmetic(operator, left, right) = test {
            return self.try_arithmetic(active, *operator, left, right);
        }
        if let Node::Variable(name) = test {
            return self.try_variable_test(active, name);
        }
        if let Node::Binary(operator, left, right) = test {
            return self.try_operator(active, *operator, left, right);
        }
        None
    }

    /// Returns whether the value of an operator of arithmetic that `try_test` has declined is true, and takes its ticks. Its
    /// operands are variables or literals or, for `==` and `!=`, elements, and no integers. `None` as `try_test`.
    #[inline(always)]
    pub fn try_comparison(&mut self, active: &Activation, test: &Node) -> Option<bool>
        ensures some { IfSome result (λ b. (w : WorldModel) (c : Context) → (v : Tree) × Evaluates Faults c (source test.now) (state_of self.old w active.now) (Ok v) (state_of self.new w active.now) × (is_true v ≡ b)) }
        ensures none { IfNone result (self.new ≡ self.old) }
        ensures ticks { self.new.ticks_left ≤ self.old.ticks_left }
    {
        match test {
            Node::Arithmetic(operator, left, right) => {
                self.try_operator(active, *operator, left, right)
            }
            _ => None,
        }
    }

    // Returns whether the value of an operator of arithmetic is true, as `try_test` does.
    #[inline(always)]
    fn try_arithmetic(
        &mut self,
        active: &Activation,
        operator: BinaryOperator,
        left: &Node,
        right: &Node,
    ) -> Option<bool>
        ensures some { IfSome result (λ b. (w : WorldModel) (c : Context) → (v : Tree) × Evaluates Faults c (binary operator (source left.now) (source right.now)) (state_of self.old w active.now) (Ok v) (state_of self.new w active.now) × (is_true v ≡ b)) }
        ensures none { IfNone result (self.new ≡ self.old) }
        ensures ticks { self.new.ticks_left ≤ self.old.ticks_left }
    {
        let number = self.try_integers(active, operator, left, right)?;
        Some(counts_as_true(number))
    }

    // Returns whether the value of an operator is true, as `try_test` does.
    #[inline(always)]
    fn try_operator(
        &mut self,
        active: &Activation,
        operator: BinaryOperator,
        left: &Node,
        right: &Node,
    ) -> Option<bool>
        ensures some { IfSome result (λ b. (w : WorldModel) (c : Context) → (v : Tree) × Evaluates Faults c (binary operator (source left.now) (source right.now)) (state_of self.old w active.now) (Ok v) (state_of self.new w active.now) × (is_true v ≡ b)) }
        ensures none { IfNone result (self.new ≡ self.old) }
        ensures ticks { self.new.ticks_left ≤ self.old.ticks_left }
    {
        if has_operands(operator, left, right) {
            self.try_leaves(active, operator, left, right)
        } else {
            None
        }
    }

    // Returns whether the value of an operator is true, as `try_test` does, if it has the operands for that. Not
    // inlined, so that nested conditions need no stack space for it.
    #[inline(never)]
    fn try_leaves(
        &mut self,
        active: &Activation,
        operator: BinaryOperator,
        left: &Node,
        right: &Node,
    ) -> Option<bool>
        ensures some { IfSome result (λ b. (w : WorldModel) (c : Context) → (v : Tree) × Evaluates Faults c (binary operator (source left.now) (source right.now)) (state_of self.old w active.now) (Ok v) (state_of self.new w active.now) × (is_true v ≡ b)) }
        ensures none { IfNone result (self.new ≡ self.old) }
        ensures ticks { self.new.ticks_left ≤ self.old.ticks_left }
    {
        if is_equality(operator) {
            self.try_equality(active, operator, left, right)
        } else {
            self.try_operands(active, operator, left, right)
        }
    }

    // Returns whether the value of `==` or `!=` between literals, variables and elements of variables is true, as
    // `try_test` does.
    #[inline(always)]
    fn try_equality(
        &mut self,
        active: &Activation,
        operator: BinaryOperator,
        left: &Node,
        right: &Node,
    ) -> Option<bool>
        ensures some { IfSome result (λ b. (w : WorldModel) (c : Context) → (v : Tree) × Evaluates Faults c (binary operator (source left.now) (source right.now)) (state_of self.old w active.now) (Ok v) (state_of self.new w active.now) × (is_true v ≡ b)) }
        ensures none { IfNone result (self.new ≡ self.old) }
        ensures ticks { self.new.ticks_left ≤ self.old.ticks_left }
    {
        let mut ticks = self.ticks_left.left() as u32;
        let passes = compare_nodes(active, &mut ticks, operator, left, right)?;
        self.ticks_left.leave(ticks);
        Some(passes)
    }

    // Returns whether the value of an operator between two variables or literals is true, as `try_test` does.
    #[inline(never)]
    fn try_operands(
        &mut self,
        active: &Activation,
        operator: BinaryOperator,
        left: &Node,
        right: &Node,
    ) -> Option<bool>
        ensures some { IfSome result (λ b. (w : WorldModel) (c : Context) → (v : Tree) × Evaluates Faults c (binary operator (source left.now) (source right.now)) (state_of self.old w active.now) (Ok v) (state_of self.new w active.now) × (is_true v ≡ b)) }
        ensures none { IfNone result (self.new ≡ self.old) }
        ensures ticks { self.new.ticks_left ≤ self.old.ticks_left }
    {
        let left_value = leaf_value(active, left)?;
        let right_value = leaf_value(active, right)?;
        let Ok(value) = binary(self.alloc(), operator, &left_value, &right_value) else {
            return None;
        };
        let ticks = self.ticks_left.left() as u32;
        if ticks < 3 {
            return None;
        }
        self.ticks_left.leave(ticks - 3);
        Some(is_true(&value))
    }

    // Returns whether the value of a variable is true, and takes its tick. `None` if it isn't set or no tick is left;
    // then nothing has changed.
    #[inline(always)]
    fn try_variable_test(&mut self, active: &Activation, name: &Name) -> Option<bool>
        ensures some { IfSome result (λ b. (w : WorldModel) (c : Context) → (v : Tree) × Evaluates Faults c (variable name.now) (state_of self.old w active.now) (Ok v) (state_of self.new w active.now) × (is_true v ≡ b)) }
        ensures none { IfNone result (self.new ≡ self.old) }
        ensures ticks { self.new.ticks_left ≤ self.old.ticks_left }
    {
        let passes = is_true(active.variables.get(name)?);
        if !self.ticks_left.take() {
            return None;
        }
        Some(passes)
    }
}

// Is true if `try_leaves` may compute the operator between these operands. Each way has the same meaning.
#[inline(always)]
fn has_operands(operator: BinaryOperator, left: &Node, right: &Node) -> bool {
    if is_equality(operator) {
        is_compared(left) && is_compared(right)
    } else {
        is_leaf(left) && is_leaf(right)
    }
}

// Is true for a variable, a literal and an element.
#[inline(always)]
fn is_compared(node: &Node) -> bool {
    is_leaf(node) || matches!(node, Node::Index(..))
}

/// Returns whether the first operand alone decides the value of the operator. `first` is whether this operand is true.
#[inline]
pub fn decides(operator: LogicOperator, first: bool) -> bool
    ensures { (v : Tree) → is_true v ≡ first → is_decided operator v ≡ result }
{
    match operator {
        LogicOperator::And => !first,
        LogicOperator::Or => first,
    }
}
