//! Raises errors of a call.
ghost use Rattle.std.specs.Prelude.{◌≡◌};
ghost use Rattle.moo_value.specs.View.{tree};
ghost use Rattle.moo_builtin_value.specs.Calls.{plainly};
ghost use Rattle.moo_eval_frame.specs.Seen.{trace_of, seen_answer, IsKnownFailure};
ghost use Rattle.moo_eval_semantics.specs.Tasks.{raised_here};

use moo_eval_frame::{Activation, CallStack, Failure, Raise, Stop};
use moo_value::{ErrorCode, MooStr, Value};
use std::alloc::Global;

/// Raises an error of a call with its own message, and 0 as its value. Without the d bit the error is the value of the
/// call.
#[inline(never)]
pub(crate) fn raised_plainly(
    alloc: Global,
    stack: &CallStack<'_>,
    active: &Activation,
    code: ErrorCode,
) -> Result<Value, Failure>
    ensures { IsKnownFailure result → raised_here stack.now.running.d (trace_of stack.now active.now) (plainly code) ≡ seen_answer result }
{
    if !stack.running.d {
        return Ok(Value::Err(code));
    }
    let Ok(message) = MooStr::try_from_bytes(alloc, code.message().as_bytes()) else {
        return Err(Failure::Stops(Stop::Memory));
    };
    raised_here(alloc, stack, active, code, message, Value::Int(0))
}

/// Raises an error of a call. Without the d bit the error is the value of the call.
#[inline(never)]
pub(crate) fn raised_here(
    alloc: Global,
    stack: &CallStack<'_>,
    active: &Activation,
    code: ErrorCode,
    message: MooStr,
    value: Value,
) -> Result<Value, Failure>
    ensures { IsKnownFailure result → raised_here stack.now.running.d (trace_of stack.now active.now) (record { code = code; message = message; value = tree value }) ≡ seen_answer result }
{
    if !stack.running.d {
        return Ok(Value::Err(code));
    }
    let trace = stack.trace(alloc, active)?;
    let raise = Raise::new(alloc, code, message, value, trace)?;
    Err(Failure::Stops(Stop::Raised(raise)))
}
