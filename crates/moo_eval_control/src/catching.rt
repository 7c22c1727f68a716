//! Which errors a catch or a handler of a `try` handles.
ghost use Rattle.std.specs.Prelude.{◌≡◌, IfErr, IsErrAnd};
ghost use Rattle.std.specs.List.{list_any};
ghost use Rattle.moo_value.specs.Tree.{error};
ghost use Rattle.moo_value.specs.View.{tree};
ghost use Rattle.moo_builtin_operator.specs.Truth.{same_tree};
ghost use Rattle.moo_syntax_node.specs.Source.{source_codes};
ghost use Rattle.moo_eval_control.specs.Catching.{is_caught, caught, coded};
ghost use Rattle.moo_eval_frame.specs.Seen.{seen_value, seen_answers, trace_of, IsKnown, IsKnownFailure, LacksOnlyWhere, MayLack};
ghost use Rattle.moo_eval_control.specs.SeenCatching.{seen_codes, code_values};

use moo_eval_frame::{Activation, CallStack, Failure, Stop, raised};
use moo_syntax_node::NodeCodes;
use moo_value::{ErrorCode, Value};
use std::alloc::Global;

/// Returns the values of the codes of a handler. An error of the codes is raised with the d bit; without it they name
/// no error. A stop stays as it is.
pub fn settle_codes(
    alloc: Global,
    stack: &CallStack<'_>,
    active: &Activation,
    outcome: Result<Vec<Value>, Failure>,
) -> Result<Vec<Value>, Stop>
    ensures outcome { IsKnown result → coded stack.now.running.d (trace_of stack.now active.now) (seen_answers outcome) ≡ seen_codes result }
    ensures known { IsKnown result → IsKnownFailure outcome }
    ensures memory { IfErr result (LacksOnlyWhere (IsErrAnd outcome (MayLack stack.now.running.d))) }
{
    match outcome {
        Ok(values) => Ok(values),
        Err(Failure::Fails(_)) if !stack.running.d => Ok(Vec::new(alloc)),
        Err(failure) => Err(raised(alloc, stack, active, failure)),
    }
}

/// Returns the error that was raised, if a catch of these codes handles it. `values` are the values of the codes; they
/// are not read if all codes are literal errors.
pub fn caught(
    codes: &NodeCodes,
    values: &[Value],
    outcome: &Result<Value, Stop>,
) -> Option<ErrorCode>
    ensures { result ≡ caught (source_codes codes.now) (code_values codes.now values.now) (seen_value outcome.now) }
{
    match outcome {
        Err(Stop::Raised(raise)) if is_caught(codes, values, raise.account.code) => {
            Some(raise.account.code)
        }
        _ => None,
    }
}

/// Returns whether a catch of these codes handles an error. `values` are the values of the codes; they are not read if
/// all codes are literal errors.
pub fn is_caught(codes: &NodeCodes, values: &[Value], code: ErrorCode) -> bool
    ensures { result ≡ is_caught (source_codes codes.now) (code_values codes.now values.now) code }
{
    match codes {
        NodeCodes::Any => true,
        NodeCodes::Known(errors) => is_named(code, errors),
        NodeCodes::Listed(_) => is_among(code, values),
    }
}

fn is_named(code: ErrorCode, errors: &[ErrorCode]) -> bool
    ensures { result ≡ list_any (λ e. same_tree (error code) (error e)) errors.now }
{
    errors.iter().any(|error| *error == code)
}

fn is_among(code: ErrorCode, values: &[Value]) -> bool
    ensures { result ≡ list_any (λ v. same_tree (error code) (tree v)) values.now }
{
    values.iter().any(|value| is_error(value, code))
}

fn is_error(value: &Value, code: ErrorCode) -> bool
    ensures { result ≡ same_tree (error code) (tree value.now) }
{
    match value {
        Value::Err(error) => *error == code,
        _ => false,
    }
}
