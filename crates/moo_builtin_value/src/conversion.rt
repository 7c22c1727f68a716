//! Functions that convert a value of one type to another.
ghost use Rattle.std.specs.Prelude.{◌≡◌, ◌∷◌, [], ◌++◌, IfErr, OnOk};
ghost use Rattle.std.specs.List.{flat_map};
ghost use Rattle.moo_value.specs.Size.{IsString};
ghost use Rattle.moo_value.specs.Text.{plain};
ghost use Rattle.moo_value.specs.View.{tree, trees};
ghost use Rattle.moo_builtin_value.specs.TextAnswers.{Gives, IsRefusedText};
ghost use Rattle.moo_builtin_value.specs.Conversions.{to_text, to_literal, to_integer, to_object};

use crate::numeral::{integer_number, object_number};
use crate::strings::{TYPE_MISMATCH, string_answer};
use moo_builtin_operator::OperationFault;
use moo_value::{ErrorCode, Value, WEIGHT_LIMIT};
use std::alloc::{AllocError, Global};

/// The greatest length of the text of an object.
const LENGTH_OF_NUMBER: usize = 12;

/// Computes `tostr`: the texts of its arguments as a player sees them, joined.
pub fn to_text(alloc: Global, args: &[Value]) -> Result<Value, OperationFault>
    ensures { Gives result (to_text (trees args.now)) }
{
    let mut text = Vec::new(alloc);
    append_texts(&mut text, args)?;
    string_answer(alloc, text)
}

/// Appends the texts of values, as a player sees them, to the bytes of a string: E_QUOTA as soon as the whole is longer
/// than a string may be. After an error the bytes may have some of the texts at their end.
pub fn append_texts(text: &mut Vec<u8>, values: &[Value]) -> Result<(), OperationFault>
    requires { IsString text.old.items }
    ensures ok { OnOk result (text.new.items ≡ text.old.items ++ flat_map plain (trees values.now)) }
    ensures string { OnOk result (IsString text.new.items) }
    ensures err { IfErr result (λ fault. IsRefusedText fault (text.old.items ++ flat_map plain (trees values.now))) }
{
    text.reserve(estimated_length(values))
        .map_err(|_| OperationFault::Memory)?;
    for value in values {
        append_text(text, value)?;
    }
    Ok(())
}

// Returns about how many bytes the texts of values have together, at most the limit of weight.
fn estimated_length(values: &[Value]) -> usize {
    let mut length: usize = 0;
    for value in values {
        length = length.saturating_add(match value {
            Value::Str(string) => string.len(),
            _ => LENGTH_OF_NUMBER,
        });
    }
    length.min(WEIGHT_LIMIT as usize)
}

fn append_text(text: &mut Vec<u8>, value: &Value) -> Result<(), OperationFault>
    requires { IsString text.old.items }
    ensures ok { OnOk result (text.new.items ≡ text.old.items ++ plain (tree value.now)) }
    ensures string { OnOk result (IsString text.new.items) }
    ensures err { IfErr result (λ fault. IsRefusedText fault (text.old.items ++ plain (tree value.now))) }
{
    value.write_plain(text).map_err(|_| OperationFault::Memory)?;
    // Read so that the proof knows that it is a value.
    let _weight = value.weight();
    if text.len() >= WEIGHT_LIMIT as usize {
        return Err(OperationFault::Raise(ErrorCode::Quota));
    }
    Ok(())
}

/// Computes `toliteral`: the text that the parser reads as its argument.
pub fn to_literal(alloc: Global, args: &[Value]) -> Result<Value, OperationFault>
    ensures { Gives result (to_literal (trees args.now)) }
{
    match args {
        [value] => literal_of(alloc, value),
        _ => Err(TYPE_MISMATCH),
    }
}

#[tactic(auto, using(crate::proofs::Making::limited_made))]
fn literal_of(alloc: Global, value: &Value) -> Result<Value, OperationFault>
    ensures { Gives result (to_literal (tree value.now ∷ [])) }
{
    // Read, so that the proof knows that it is a value.
    let _weight = value.weight();
    match value.to_literal(alloc) {
        Ok(text) => string_answer(alloc, text),
        Err(AllocError) => Err(OperationFault::Memory),
    }
}

/// Computes `toint` and `tonum`: the number of an integer, an object or an error, or the one that a string spells.
pub fn to_integer(args: &[Value]) -> Result<Value, OperationFault>
    ensures { Gives result (to_integer (trees args.now)) }
{
    match args {
        [value] => integer_of(value),
        _ => Err(TYPE_MISMATCH),
    }
}

fn integer_of(value: &Value) -> Result<Value, OperationFault>
    ensures { Gives result (to_integer (tree value.now ∷ [])) }
{
    match value {
        Value::Int(number) | Value::Obj(number) => Ok(Value::Int(*number)),
        Value::Err(error) => Ok(Value::Int(i32::from(error.number()))),
        Value::Str(string) => Ok(Value::Int(integer_number(string.as_bytes()))),
        Value::List(_) => Err(TYPE_MISMATCH),
    }
}

/// Computes `toobj`: the object whose number is that of an integer, an object or an error, or the one that a string
/// spells.
pub fn to_object(args: &[Value]) -> Result<Value, OperationFault>
    ensures { Gives result (to_object (trees args.now)) }
{
    match args {
        [value] => object_of(value),
        _ => Err(TYPE_MISMATCH),
    }
}

fn object_of(value: &Value) -> Result<Value, OperationFault>
    ensures { Gives result (to_object (tree value.now ∷ [])) }
{
    match value {
        Value::Int(number) | Value::Obj(number) => Ok(Value::Obj(*number)),
        Value::Err(error) => Ok(Value::Obj(i32::from(error.number()))),
        Value::Str(string) => Ok(Value::Obj(object_number(string.as_bytes()))),
        Value::List(_) => Err(TYPE_MISMATCH),
    }
}
