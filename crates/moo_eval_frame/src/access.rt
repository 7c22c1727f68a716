//! Values that a node reads or gathers.
ghost use Rattle.std.specs.Prelude.{◌≡◌, ◌++◌, ◌∷◌, [], IfErr, OnOk, IsSomeAnd};
ghost use Rattle.moo_value.specs.Faults.{TakesMemory};
ghost use Rattle.moo_value.specs.declared.error_code.ErrorCode.TheVariants.{VariableNotFound};
ghost use Rattle.moo_value.specs.Compare.{folded};
ghost use Rattle.moo_eval_frame.specs.Outcome.{answers, or_error};
ghost use Rattle.moo_eval_frame.specs.State.{measured};
ghost use Rattle.moo_eval_frame.specs.Seen.{variables_of, indexed_of, seen_answer, IsKnownFailure, LacksOnlyIn};

use crate::frame::Activation;
use crate::outcome::Failure;
use moo_builtin_operator::length_of;
use moo_syntax_ast::Name;
use moo_value::{ErrorCode, Value};
use std::alloc::AllocError;

/// Returns a copy of the value of a variable: E_VARNF if it isn't set.
pub fn read_variable(active: &Activation, name: &Name) -> Result<Value, Failure>
    ensures value { IsKnownFailure result → answers (or_error (variables_of active.now.variables (folded name.now)) VariableNotFound) ≡ seen_answer result }
    ensures memory { IfErr result (LacksOnlyIn (IsSomeAnd (variables_of active.now.variables (folded name.now)) TakesMemory)) }
{
    match active.variables.get(name) {
        Some(value) => Ok(value.try_clone()?),
        None => Err(Failure::Fails(ErrorCode::VariableNotFound)),
    }
}

/// Returns the length of the indexed value: E_TYPE if it is neither a string nor a list, or if nothing is indexed.
pub fn measure(indexed: Option<&Value>) -> Result<Value, Failure>
    ensures { answers (measured (indexed_of indexed.entry)) ≡ seen_answer result }
{
    match indexed {
        Some(value) => Ok(length_of(value)?),
        None => Err(Failure::Fails(ErrorCode::TypeMismatch)),
    }
}

/// Appends a value. Err is out of memory.
pub fn push(values: &mut Vec<Value>, value: Value) -> Result<(), AllocError>
    ensures { OnOk result (values.new.items ≡ values.old.items ++ value ∷ []) }
{
    values.push(value)?;
    Ok(())
}

/// Appends copies of these values.
pub(crate) fn append(values: &mut Vec<Value>, more: &[Value]) -> Result<(), AllocError>
    ensures { OnOk result (values.new.items ≡ values.old.items ++ more.now) }
{
    values.reserve(more.len())?;
    for value in more {
        values.push_reserved(value.try_clone()?);
    }
    Ok(())
}
