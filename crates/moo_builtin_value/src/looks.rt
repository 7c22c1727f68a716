//! Functions that inspect any value, the time and the server's version.
ghost use Rattle.std.specs.Prelude.{◌≡◌};
ghost use Rattle.moo_value.specs.View.{tree, trees};
ghost use Rattle.moo_builtin_operator.specs.Truth.{same_tree, truth_value};
ghost use Rattle.moo_builtin_value.specs.TextAnswers.{Gives};
ghost use Rattle.moo_builtin_value.specs.Looks.{type_number, type_of, length_of, equal, time, server_version};

use crate::made::TYPE_MISMATCH;
use moo_builtin_operator::OperationFault;
use moo_value::{MooStr, Value, same};
use std::alloc::Global;

/// Computes `typeof`: the number of the type.
pub fn type_of(args: &[Value]) -> Result<Value, OperationFault>
    ensures { Gives result (type_of (trees args.now)) }
{
    match args {
        [value] => Ok(Value::Int(type_number(value))),
        _ => Err(TYPE_MISMATCH),
    }
}

/// Returns the number of a value's type, as `typeof` gives it.
#[inline(always)]
pub fn type_number(value: &Value) -> i32
    ensures { result ≡ type_number (tree value.now) }
{
    match value {
        Value::Int(_) => 0,
        Value::Obj(_) => 1,
        Value::Str(_) => 2,
        Value::Err(_) => 3,
        Value::List(_) => 4,
    }
}

/// Computes `length` of a string or a list.
#[tactic(auto, using(crate::proofs::Making::weaker))]
pub fn length_of(args: &[Value]) -> Result<Value, OperationFault>
    ensures { Gives result (length_of (trees args.now)) }
{
    match args {
        [value] => moo_builtin_operator::length_of(value),
        _ => Err(TYPE_MISMATCH),
    }
}

/// Computes `equal`: whether two values are the same, letters not folded.
pub fn equal(args: &[Value]) -> Result<Value, OperationFault>
    ensures { Gives result (equal (trees args.now)) }
{
    match args {
        [a, b] => Ok(truth_value(is_same(a, b))),
        _ => Err(TYPE_MISMATCH),
    }
}

/// Returns whether two values are the same, letters not folded.
pub fn is_same(a: &Value, b: &Value) -> bool
    ensures { result ≡ same_tree (tree a.now) (tree b.now) }
{
    same(a, b)
}

fn truth_value(test: bool) -> Value
    ensures { tree result ≡ truth_value test }
{
    Value::Int(i32::from(test))
}

/// Computes `time`: the moment, in seconds since the beginning of 1970, as a signed 32-bit integer.
pub fn time(args: &[Value], moment: u32) -> Result<Value, OperationFault>
    ensures { Gives result (time moment (trees args.now)) }
{
    match args {
        [] => Ok(Value::Int(moment.cast_signed())),
        _ => Err(TYPE_MISMATCH),
    }
}

/// Computes `server_version`: the LambdaMOO version that this server follows, and its profile.
pub fn server_version(alloc: Global, args: &[Value]) -> Result<Value, OperationFault>
    ensures { Gives result (server_version (trees args.now)) }
{
    let [] = args else {
        return Err(TYPE_MISMATCH);
    };
    match MooStr::try_from_bytes(alloc, "1.8-integer".as_bytes()) {
        Ok(version) => Ok(Value::Str(version)),
        Err(_) => Err(OperationFault::Memory),
    }
}
