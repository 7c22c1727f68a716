//! Results of functions on code: their errors, and lists of strings.
ghost use Rattle.std.specs.Prelude.{◌≡◌, IfOk, map};
ghost use Rattle.moo_value.specs.Tree.{string, list_of};
ghost use Rattle.moo_value.specs.View.{trees};
ghost use Rattle.moo_builtin_operator.specs.Answer.{limited};
ghost use Rattle.moo_builtin_value.specs.TextAnswers.{Gives};

use moo_builtin_operator::{OperationFault, list};
use moo_value::{ErrorCode, MooStr, Value};
use std::alloc::{AllocError, Global};

/// The fault that raises E_TYPE.
pub const TYPE_MISMATCH: OperationFault = OperationFault::Raise(ErrorCode::TypeMismatch);

/// The fault that raises E_PERM.
pub const PERMISSION: OperationFault = OperationFault::Raise(ErrorCode::Permission);

/// The fault that raises E_VERBNF.
pub const VERB_NOT_FOUND: OperationFault = OperationFault::Raise(ErrorCode::VerbNotFound);

/// The fault that raises E_QUOTA.
pub const QUOTA: OperationFault = OperationFault::Raise(ErrorCode::Quota);

/// Returns the list of these lines, or E_QUOTA past its limits.
#[tactic(auto, using(moo_builtin_value::proofs::Making::limited_made))]
pub fn listed(alloc: Global, lines: Vec<MooStr>) -> Result<Value, OperationFault>
    ensures { Gives result (limited (list_of (map (λ line. string line) lines.items))) }
{
    match strings(alloc, lines) {
        Ok(strings) => list(alloc, strings),
        Err(AllocError) => Err(OperationFault::Memory),
    }
}

fn strings(alloc: Global, lines: Vec<MooStr>) -> Result<Vec<Value>, AllocError>
    ensures { IfOk result (λ v. trees v.items ≡ map (λ line. string line) lines.items) }
{
    let mut values = Vec::new(alloc);
    for line in lines {
        values.push(Value::Str(line))?;
    }
    Ok(values)
}
