//! Results of functions that make lists.
ghost use Rattle.moo_builtin_value.specs.Answers.{Follows};

use moo_builtin_operator::OperationFault;
use moo_value::{ErrorCode, ListLimit, MooList, Value};

/// The fault that raises E_TYPE.
pub const TYPE_MISMATCH: OperationFault = OperationFault::Raise(ErrorCode::TypeMismatch);

/// The fault that raises E_RANGE.
pub const RANGE: OperationFault = OperationFault::Raise(ErrorCode::Range);

/// Returns the list that was made, or the error of a fault in making it.
pub fn list_answer(made: Result<MooList, ListLimit>) -> Result<Value, OperationFault>
    ensures { Follows made result }
{
    match made {
        Ok(list) => Ok(Value::List(list)),
        Err(ListLimit::TooLarge) => Err(OperationFault::Raise(ErrorCode::Quota)),
        Err(ListLimit::Memory) => Err(OperationFault::Memory),
    }
}
