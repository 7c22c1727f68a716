//! Truth, equality, order, and the place of an element.
ghost use Rattle.std.specs.Prelude.{◌≡◌, ◌<◌, length, position, Some, None, IfOk, IfErr, IfSome};
ghost use Rattle.moo_value.specs.View.{tree};
ghost use Rattle.moo_value.specs.Compare.{order};
ghost use Rattle.moo_builtin_operator.specs.Answer.{Gives};
ghost use Rattle.moo_builtin_operator.specs.Truth.{is_true, is_decided, equal, truth_value};
ghost use Rattle.moo_builtin_operator.specs.Comparison.{place_in};

use crate::fault::{OperationFault, TYPE_MISMATCH};
use crate::made::number_of;
use moo_syntax_ast::operator::LogicOperator;
use moo_value::Value;
use std::cmp::Ordering;

/// Returns whether a value counts as true.
pub fn is_true(value: &Value) -> bool
    ensures { result ≡ is_true (tree value.now) }
{
    value.is_true()
}

/// Returns whether the first operand alone decides the operator's value, so that the second operand is not evaluated.
pub fn is_decided(operator: LogicOperator, first: &Value) -> bool
    ensures { result ≡ is_decided operator (tree first.now) }
{
    match operator {
        LogicOperator::And => !is_true(first),
        LogicOperator::Or => is_true(first),
    }
}

/// Returns whether two values are equal in the sense of `==`, letters folded.
pub fn is_equal(a: &Value, b: &Value) -> bool
    ensures { result ≡ equal (tree a.now) (tree b.now) }
{
    moo_value::equal(a, b)
}

/// Returns the integer 1 for true, 0 for false.
pub(crate) fn truth_value(test: bool) -> Value
    ensures { tree result ≡ truth_value test }
{
    Value::Int(i32::from(test))
}

/// Returns how two values are ordered; values without an order raise E_TYPE.
pub(crate) fn ordering(a: &Value, b: &Value) -> Result<Ordering, OperationFault>
    ensures ok { IfOk result (λ o. order (tree a.now) (tree b.now) ≡ Some o) }
    ensures no_memory { IfErr result (λ fault. fault ≡ TYPE_MISMATCH) }
    ensures err { IfErr result (λ _. order (tree a.now) (tree b.now) ≡ None) }
{
    moo_value::order(a, b).ok_or(TYPE_MISMATCH)
}

/// Returns the first place of an equal element, 0 for none.
pub(crate) fn place_in(value: &Value, list: &Value) -> Result<Value, OperationFault>
    ensures { Gives result (place_in (tree value.now) (tree list.now)) }
{
    let Value::List(list) = list else {
        return Err(TYPE_MISMATCH);
    };
    match position(value, list.elements()) {
        Some(index) => Ok(number_of(index + 1)),
        None => Ok(Value::Int(0)),
    }
}

fn position(value: &Value, elements: &[Value]) -> Option<usize>
    ensures value { result ≡ position (λ v. equal (tree value.now) (tree v)) elements.now }
    ensures bound { IfSome result (λ k. k < length elements.now) }
{
    elements.iter().position(|element| is_equal(value, element))
}
