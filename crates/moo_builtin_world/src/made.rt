//! Results of functions over the world.
ghost use Rattle.std.specs.Prelude.{◌≡◌};
ghost use Rattle.moo_value.specs.Tree.{list_of};
ghost use Rattle.moo_value.specs.View.{tree, trees};
ghost use Rattle.moo_builtin_operator.specs.Answer.{limited};
ghost use Rattle.moo_builtin_value.specs.TextAnswers.{Gives};
ghost use Rattle.moo_world.specs.NamedProperties.{truth};
ghost use Rattle.moo_builtin_world.specs.Answers.{told, permitted, refused, changed};

use moo_builtin_operator::{OperationFault, list};
use moo_value::{ErrorCode, Value};
use moo_world::WorldFault;
use std::alloc::Global;

/// The fault that raises E_TYPE.
pub const TYPE_MISMATCH: OperationFault = OperationFault::Raise(ErrorCode::TypeMismatch);

/// The fault that raises E_INVARG.
pub const INVALID_ARGUMENT: OperationFault = OperationFault::Raise(ErrorCode::InvalidArgument);

/// The fault that raises E_PERM.
pub const PERMISSION: OperationFault = OperationFault::Raise(ErrorCode::Permission);

/// The fault that raises E_VERBNF.
pub const VERB_NOT_FOUND: OperationFault = OperationFault::Raise(ErrorCode::VerbNotFound);

/// Returns the list of these values, or E_QUOTA past its limits.
pub fn listed(alloc: Global, values: Vec<Value>) -> Result<Value, OperationFault>
    ensures { Gives result (limited (list_of (trees values.items))) }
{
    list(alloc, values)
}

/// Returns the integer 1 for true, 0 for false.
pub fn truth(test: bool) -> Value
    ensures { tree result ≡ truth test }
{
    Value::Int(i32::from(test))
}

/// Converts a result of the world to one of a function.
pub fn told<T: Drop>(answer: Result<T, WorldFault>) -> Result<T, OperationFault>
    ensures { result ≡ told answer }
{
    match answer {
        Ok(value) => Ok(value),
        Err(WorldFault::Raise(error)) => Err(OperationFault::Raise(error)),
        Err(WorldFault::Memory) => Err(OperationFault::Memory),
    }
}

/// Returns the fault of a test of a change, if any, else E_PERM if the change is not allowed.
pub fn permitted(tested: Result<(), WorldFault>, is_allowed: bool) -> Result<(), OperationFault>
    ensures { result ≡ permitted tested is_allowed }
{
    told(tested)?;
    if is_allowed { Ok(()) } else { Err(PERMISSION) }
}

/// Returns the fault of a test of a change, if any, else E_PERM, for a programmer who may not make it.
pub fn refused(tested: Result<(), WorldFault>) -> Result<Value, OperationFault>
    ensures { result ≡ refused tested }
{
    match tested {
        Ok(()) => Err(PERMISSION),
        Err(WorldFault::Raise(error)) => Err(OperationFault::Raise(error)),
        Err(WorldFault::Memory) => Err(OperationFault::Memory),
    }
}

/// Returns 0 once the world was changed, or the fault.
pub fn changed<T: Drop>(made: Result<T, WorldFault>) -> Result<Value, OperationFault>
    ensures { result ≡ changed made }
{
    match made {
        Ok(_) => Ok(Value::Int(0)),
        Err(WorldFault::Raise(error)) => Err(OperationFault::Raise(error)),
        Err(WorldFault::Memory) => Err(OperationFault::Memory),
    }
}
