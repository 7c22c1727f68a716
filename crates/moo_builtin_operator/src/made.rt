//! Makes values, within the limits of weight and depth.
ghost use Rattle.std.specs.Prelude.{◌≡◌, ◌≤◌, pos, Ok};
ghost use Rattle.moo_value.specs.Tree.{integer};
ghost use Rattle.moo_value.specs.Size.{weight_limit};
ghost use Rattle.moo_value.specs.View.{tree, trees};
ghost use Rattle.moo_builtin_operator.specs.Answer.{Gives};
ghost use Rattle.moo_builtin_operator.specs.Places.{made_list};

use crate::fault::{OperationFault, QUOTA};
use moo_value::{ListLimit, MooList, Value};
use std::alloc::{AllocError, Global};

/// Returns the list of these values; E_QUOTA past the limits.
pub fn list(alloc: Global, values: Vec<Value>) -> Result<Value, OperationFault>
    ensures { Gives result (made_list (trees values.items)) }
{
    match MooList::try_from_vec(alloc, values) {
        Ok(list) => Ok(Value::List(list)),
        Err(ListLimit::TooLarge) => Err(QUOTA),
        Err(ListLimit::Memory) => Err(OperationFault::Memory),
    }
}

/// Returns a count of bytes or elements of a value, as an integer of the language.
pub(crate) fn number_of(count: usize) -> Value
    requires { count ≤ weight_limit }
    ensures { tree result ≡ integer (pos count) }
{
    Value::Int(count as i32)
}

/// Returns a copy of a value that shares its contents. Only a string or a list can run out of memory.
pub(crate) fn shared(value: &Value) -> Result<Value, OperationFault>
    ensures { Gives result (Ok (tree value.now)) }
{
    match value.try_clone() {
        Ok(same) => Ok(same),
        Err(AllocError) => Err(OperationFault::Memory),
    }
}
