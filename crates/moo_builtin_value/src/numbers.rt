//! Functions on integers.
ghost use Rattle.moo_value.specs.View.{trees};
ghost use Rattle.moo_builtin_value.specs.TextAnswers.{Gives};
ghost use Rattle.moo_builtin_value.specs.Numbers.{absolute, least, greatest};

use crate::made::TYPE_MISMATCH;
use moo_builtin_operator::OperationFault;
use moo_value::Value;

/// Computes `abs`, modulo 2^32: the least integer stays as it is.
pub fn absolute(args: &[Value]) -> Result<Value, OperationFault>
    ensures { Gives result (absolute (trees args.now)) }
{
    match args {
        [Value::Int(number)] if *number < 0 => Ok(Value::Int(number.wrapping_neg())),
        [Value::Int(number)] => Ok(Value::Int(*number)),
        _ => Err(TYPE_MISMATCH),
    }
}

/// Computes `min` of one integer or more.
pub fn least(args: &[Value]) -> Result<Value, OperationFault>
    ensures { Gives result (least (trees args.now)) }
{
    let Some((Value::Int(first), others)) = args.split_first() else {
        return Err(TYPE_MISMATCH);
    };
    let mut best = *first;
    for value in others {
        let Value::Int(number) = value else {
            return Err(TYPE_MISMATCH);
        };
        if *number < best {
            best = *number;
        }
    }
    Ok(Value::Int(best))
}

/// Computes `max` of one integer or more.
pub fn greatest(args: &[Value]) -> Result<Value, OperationFault>
    ensures { Gives result (greatest (trees args.now)) }
{
    let Some((Value::Int(first), others)) = args.split_first() else {
        return Err(TYPE_MISMATCH);
    };
    let mut best = *first;
    for value in others {
        let Value::Int(number) = value else {
            return Err(TYPE_MISMATCH);
        };
        if *number > best {
            best = *number;
        }
    }
    Ok(Value::Int(best))
}
