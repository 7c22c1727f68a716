//! Replaces occurrences of a string.
ghost use Rattle.std.specs.Prelude.{◌≡◌, ◌<◌, false, length, IfOk};
ghost use Rattle.memchr.specs.Find.{matches};
ghost use Rattle.bstr.specs.Text.{replaced_at};
ghost use Rattle.moo_value.specs.View.{trees};
ghost use Rattle.moo_builtin_value.specs.TextAnswers.{Gives};
ghost use Rattle.moo_builtin_value.specs.Texts.{substituted, substitution, substitute};
ghost use Rattle.moo_builtin_value.specs.Inner.{IsWritten};

use crate::place::folded;
use crate::search::{folded_find, is_short};
use crate::strings::{TYPE_MISMATCH, string_answer};
use memchr::memmem;
use moo_builtin_operator::{OperationFault, is_true};
use moo_value::{ErrorCode, MooStr, Value, WEIGHT_LIMIT};
use std::alloc::{AllocError, Global};

/// Computes `strsub`: a string with each occurrence of a second replaced by a third, from the left. Replacements are
/// not searched again. Letters are folded unless the fourth argument is true; an empty second string raises E_INVARG.
pub fn substitute(alloc: Global, args: &[Value]) -> Result<Value, OperationFault>
    ensures { Gives result (substitute (trees args.now)) }
{
    match args {
        [Value::Str(text), Value::Str(wanted), Value::Str(other)] => {
            substitution(alloc, text, wanted, other, false)
        }
        [
            Value::Str(text),
            Value::Str(wanted),
            Value::Str(other),
            exact,
        ] => { substitution(alloc, text, wanted, other, is_true(exact)) }
        _ => Err(TYPE_MISMATCH),
    }
}

#[tactic(auto, using(crate::proofs::Making::limited_made))]
fn substitution(
    alloc: Global,
    text: &MooStr,
    wanted: &MooStr,
    other: &MooStr,
    exact: bool,
) -> Result<Value, OperationFault>
    ensures { Gives result (substitution exact text.now wanted.now other.now) }
{
    if wanted.is_empty() {
        return Err(OperationFault::Raise(ErrorCode::InvalidArgument));
    }
    match substituted(
        alloc,
        text.as_bytes(),
        wanted.as_bytes(),
        other.as_bytes(),
        exact,
    ) {
        Ok(Some(made)) => string_answer(alloc, made),
        Ok(None) => Err(OperationFault::Raise(ErrorCode::Quota)),
        Err(AllocError) => Err(OperationFault::Memory),
    }
}

// Returns the text with the occurrences replaced, or `None` past the limit of weight.
fn substituted(
    alloc: Global,
    text: &[u8],
    wanted: &[u8],
    other: &[u8],
    exact: bool,
) -> Result<Option<Vec<u8>>, AllocError>
    requires { 0 < length wanted.now }
    ensures { IfOk result (λ made. IsWritten made (substituted exact text.now wanted.now other.now)) }
{
    if exact {
        return replaced(alloc, text, text, wanted, other);
    }
    if is_short(text) {
        return replaced_folded(alloc, text, wanted, other);
    }
    let searched = folded(alloc, text)?;
    let wanted = folded(alloc, wanted)?;
    replaced(alloc, text, &searched, &wanted, other)
}

// Returns the text with `other` at each place at which `wanted` occurs in `searched`, a text of the same length.
// `None` past the limit of weight.
fn replaced(
    alloc: Global,
    text: &[u8],
    searched: &[u8],
    wanted: &[u8],
    other: &[u8],
) -> Result<Option<Vec<u8>>, AllocError>
    requires { length searched.now ≡ length text.now }
    ensures { IfOk result (λ made. IsWritten made (replaced_at text.now (length wanted.now) other.now 0 (matches searched.now wanted.now 0))) }
{
    let mut made = Vec::new(alloc);
    let mut found = memmem::find_iter(searched, wanted);
    let mut last = 0;
    while let Some(start) = found.next() {
        if made.len() >= WEIGHT_LIMIT as usize {
            return Ok(None);
        }
        made.extend_from_slice(&text[last..start])?;
        made.extend_from_slice(other)?;
        last = start + wanted.len();
    }
    made.extend_from_slice(&text[last..])?;
    Ok(Some(made))
}

// Returns a text with `other` at each place at which `wanted` occurs, with letters folded, without a copy of the text
// in lower case. `None` past the limit of weight.
fn replaced_folded(
    alloc: Global,
    text: &[u8],
    wanted: &[u8],
    other: &[u8],
) -> Result<Option<Vec<u8>>, AllocError>
    requires { 0 < length wanted.now }
    ensures { IfOk result (λ made. IsWritten made (substituted false text.now wanted.now other.now)) }
{
    let mut made = Vec::new(alloc);
    let mut last = 0;
    while let Some(start) = folded_find(text, wanted, last) {
        if made.len() >= WEIGHT_LIMIT as usize {
            return Ok(None);
        }
        made.extend_from_slice(&text[last..start])?;
        made.extend_from_slice(other)?;
        last = start + wanted.len();
    }
    made.extend_from_slice(&text[last..])?;
    Ok(Some(made))
}
