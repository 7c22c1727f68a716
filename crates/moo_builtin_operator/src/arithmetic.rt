//! Arithmetic on integers, modulo 2^32.
ghost use Rattle.std.specs.Prelude.{◌≡◌, ◌+ℤ◌, ◌-ℤ◌, ◌*ℤ◌, neg_ℤ};
ghost use Rattle.std.specs.Int.{int_wrap, w32};
ghost use Rattle.moo_builtin_operator.specs.Answer.{Gives};
ghost use Rattle.moo_builtin_operator.specs.Arithmetic.{quotient, remainder, power, inverse_power};

use crate::fault::{DIVISION, OperationFault};
use moo_value::Value;

/// Returns `-a`, modulo 2^32.
pub fn negated(a: i32) -> i32
    ensures { result ≡ int_wrap w32 (neg_ℤ a) }
{
    a.wrapping_neg()
}

/// Returns `a + b`, modulo 2^32.
pub fn sum(a: i32, b: i32) -> i32
    ensures { result ≡ int_wrap w32 (a +ℤ b) }
{
    a.wrapping_add(b)
}

/// Returns `a - b`, modulo 2^32.
pub fn difference(a: i32, b: i32) -> i32
    ensures { result ≡ int_wrap w32 (a -ℤ b) }
{
    a.wrapping_sub(b)
}

/// Returns `a * b`, modulo 2^32.
pub fn product(a: i32, b: i32) -> i32
    ensures { result ≡ int_wrap w32 (a *ℤ b) }
{
    a.wrapping_mul(b)
}

/// Returns `a / b`, truncated towards zero; E_DIV if `b` is 0. The least integer divided by -1 gives itself.
pub fn quotient(a: i32, b: i32) -> Result<Value, OperationFault>
    ensures { Gives result (quotient a b) }
{
    if b == 0 {
        return Err(DIVISION);
    }
    Ok(Value::Int(wrapped_quotient(a, b)))
}

/// Returns `a % b`, which has the sign of `a`; E_DIV if `b` is 0.
pub fn remainder(a: i32, b: i32) -> Result<Value, OperationFault>
    ensures { Gives result (remainder a b) }
{
    if b == 0 {
        return Err(DIVISION);
    }
    Ok(Value::Int(a.wrapping_rem(b)))
}

/// Returns `a ^ b`, modulo 2^32. A negative `b` gives 0 unless `a` is 1 or -1, and E_DIV if `a` is 0.
pub fn power(a: i32, b: i32) -> Result<Value, OperationFault>
    ensures { Gives result (power a b) }
{
    if b < 0 {
        return inverse_power(a, b.unsigned_abs());
    }
    Ok(Value::Int(wrapped_power(a, b as u32)))
}

// Returns `a` to the power -n, truncated to an integer; E_DIV if `a` is 0.
fn inverse_power(a: i32, n: u32) -> Result<Value, OperationFault>
    ensures { Gives result (inverse_power a n) }
{
    match a {
        0 => Err(DIVISION),
        1 => Ok(Value::Int(1)),
        -1 if n % 2 == 0 => Ok(Value::Int(1)),
        -1 => Ok(Value::Int(-1)),
        _ => Ok(Value::Int(0)),
    }
}

ghost use Rattle.std.specs.Prelude.{int_div};
ghost use Rattle.std.specs.Int.{int_pow, IsNonZero};

fn wrapped_quotient(a: i32, b: i32) -> i32
    requires { IsNonZero w32 b }
    ensures { result ≡ int_wrap w32 (int_div a b) }
{
    a.wrapping_div(b)
}

fn wrapped_power(a: i32, n: u32) -> i32
    ensures { result ≡ int_wrap w32 (int_pow a n) }
{
    a.wrapping_pow(n)
}
