//! Operators between values, with a shorter way for integers.
ghost use Rattle.std.specs.Prelude.{◌≡◌, ◌+ℤ◌, ◌-ℤ◌, ◌*ℤ◌, int_div, Ok, IfSome};
ghost use Rattle.std.specs.Int.{int_wrap, w32, IsNonZero};
ghost use Rattle.moo_value.specs.Tree.{integer, string};
ghost use Rattle.moo_value.specs.View.{tree};
ghost use Rattle.moo_builtin_operator.specs.Answer.{Gives};
ghost use Rattle.moo_builtin_operator.specs.Arithmetic.{quotient, remainder};
ghost use Rattle.moo_builtin_operator.specs.Operators.{added, binary_of};
ghost use Rattle.moo_builtin_operator.specs.Truth.{truth_value};

use moo_builtin_operator as operation;
use moo_builtin_operator::OperationFault;
use moo_syntax_ast::operator::BinaryOperator;
use moo_value::{ErrorCode, MooStr, Value, ValueFault};
use std::alloc::Global;

/// Returns what an operator between two operands gives, or its error. Integers are tried first.
#[inline(always)]
pub fn binary(
    alloc: Global,
    operator: BinaryOperator,
    a: &Value,
    b: &Value,
) -> Result<Value, OperationFault>
    ensures { Gives result (binary_of operator (tree a.now) (tree b.now)) }
{
    match integers(operator, a, b) {
        Some(number) => Ok(Value::Int(number)),
        None => operation::binary(alloc, operator, a, b),
    }
}

/// Returns what an operator gives, or its error, as `binary` does. A string that nothing else shares takes the bytes of
/// a second one in place.
#[inline(always)]
pub fn binary_in_place(
    alloc: Global,
    operator: BinaryOperator,
    a: Value,
    b: &Value,
) -> Result<Value, OperationFault>
    ensures { Gives result (binary_of operator (tree a) (tree b.now)) }
{
    match integers(operator, &a, b) {
        Some(number) => Ok(Value::Int(number)),
        None => other_in_place(alloc, operator, a, b),
    }
}

// Returns what an operator gives for values that may be no integers. Not inlined, so that integers need no stack space
// for it.
#[inline(never)]
fn other_in_place(
    alloc: Global,
    operator: BinaryOperator,
    a: Value,
    b: &Value,
) -> Result<Value, OperationFault>
    ensures { Gives result (binary_of operator (tree a) (tree b.now)) }
{
    match (operator, a, b) {
        (BinaryOperator::Add, Value::Str(text), Value::Str(last)) => joined(alloc, text, last),
        (operator, a, b) => operation::binary(alloc, operator, &a, b),
    }
}

// Returns a string with another after its bytes: E_QUOTA past the limit.
fn joined(alloc: Global, text: MooStr, last: &MooStr) -> Result<Value, OperationFault>
    ensures { Gives result (added (string text) (string last.now)) }
{
    match text.extended(alloc, last) {
        Ok(text) => Ok(Value::Str(text)),
        Err(ValueFault::Memory) => Err(OperationFault::Memory),
        Err(ValueFault::BadByte | ValueFault::TooHeavy) => {
            Err(OperationFault::Raise(ErrorCode::Quota))
        }
    }
}

// Returns what an operator gives for two values, if they are integers and it can't fail.
#[inline(always)]
fn integers(operator: BinaryOperator, a: &Value, b: &Value) -> Option<i32>
    ensures { IfSome result (λ n. binary_of operator (tree a.now) (tree b.now) ≡ Ok (integer n)) }
{
    match (a, b) {
        (Value::Int(a), Value::Int(b)) => number_of(operator, *a, *b),
        _ => None,
    }
}

/// Returns the number that an operator gives for two integers. `None` for a division by 0, and for `^` and `in`.
#[inline(always)]
pub fn number_of(operator: BinaryOperator, a: i32, b: i32) -> Option<i32>
    ensures { IfSome result (λ n. binary_of operator (integer a) (integer b) ≡ Ok (integer n)) }
{
    match operator {
        BinaryOperator::Add => Some(sum(a, b)),
        BinaryOperator::Subtract => Some(difference(a, b)),
        BinaryOperator::Multiply => Some(product(a, b)),
        BinaryOperator::Divide => quotient(a, b),
        BinaryOperator::Remainder => remainder(a, b),
        BinaryOperator::Equal => Some(truth(a == b)),
        BinaryOperator::NotEqual => Some(truth(a != b)),
        BinaryOperator::Less => Some(truth(a.cmp(&b).is_lt())),
        BinaryOperator::LessOrEqual => Some(truth(a.cmp(&b).is_le())),
        BinaryOperator::Greater => Some(truth(a.cmp(&b).is_gt())),
        BinaryOperator::GreaterOrEqual => Some(truth(a.cmp(&b).is_ge())),
        _ => None,
    }
}

#[inline]
fn sum(a: i32, b: i32) -> i32
    ensures { result ≡ int_wrap w32 (a +ℤ b) }
{
    a.wrapping_add(b)
}

#[inline]
fn difference(a: i32, b: i32) -> i32
    ensures { result ≡ int_wrap w32 (a -ℤ b) }
{
    a.wrapping_sub(b)
}

#[inline]
fn product(a: i32, b: i32) -> i32
    ensures { result ≡ int_wrap w32 (a *ℤ b) }
{
    a.wrapping_mul(b)
}

// Returns `None` for a division by 0.
#[inline]
fn quotient(a: i32, b: i32) -> Option<i32>
    ensures { IfSome result (λ n. quotient a b ≡ Ok (integer n)) }
{
    if b == 0 {
        return None;
    }
    Some(wrapped_quotient(a, b))
}

#[inline]
fn wrapped_quotient(a: i32, b: i32) -> i32
    requires { IsNonZero w32 b }
    ensures { result ≡ int_wrap w32 (int_div a b) }
{
    a.wrapping_div(b)
}

#[inline]
fn remainder(a: i32, b: i32) -> Option<i32>
    ensures { IfSome result (λ n. remainder a b ≡ Ok (integer n)) }
{
    if b == 0 {
        return None;
    }
    Some(a.wrapping_rem(b))
}

// Returns 1 or 0.
#[inline]
fn truth(test: bool) -> i32
    ensures { integer result ≡ truth_value test }
{
    i32::from(test)
}
