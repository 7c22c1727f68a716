//! Makes strings, within the limit of weight.
ghost use Rattle.moo_value.specs.Tree.{string, IsText};
ghost use Rattle.moo_builtin_operator.specs.Answer.{limited};
ghost use Rattle.moo_builtin_value.specs.TextAnswers.{Gives};

use moo_builtin_operator::OperationFault;
use moo_value::{ErrorCode, MooStr, Value, WEIGHT_LIMIT};
use std::alloc::{AllocError, Global};

/// The fault that raises E_TYPE.
pub const TYPE_MISMATCH: OperationFault = OperationFault::Raise(ErrorCode::TypeMismatch);

/// Returns the string of these bytes; E_QUOTA past the limit.
#[tactic(auto, using(crate::proofs::Making::limited_made))]
pub fn string_answer(alloc: Global, bytes: Vec<u8>) -> Result<Value, OperationFault>
    requires { IsText bytes.items }
    ensures { Gives result (limited (string bytes.items)) }
{
    if bytes.len() >= WEIGHT_LIMIT as usize {
        return Err(OperationFault::Raise(ErrorCode::Quota));
    }
    match MooStr::from_text(alloc, bytes) {
        Ok(string) => Ok(Value::Str(string)),
        Err(AllocError) => Err(OperationFault::Memory),
    }
}
