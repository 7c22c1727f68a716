//! Strings that grow in the variable that holds them, as by `s = s + x;`.
ghost use Rattle.std.specs.Prelude.{◌≡◌, ◌++◌, Ok, Err, IfErr, OnOk};
ghost use Rattle.moo_value.specs.Tree.{Tree, string};
ghost use Rattle.moo_value.specs.View.{tree};
ghost use Rattle.moo_builtin_operator.specs.Operators.{added};
ghost use Rattle.moo_eval_frame.specs.Outcome.{answers};
ghost use Rattle.moo_eval_slot.specs.Bindings.{bind, with_variable};
ghost use Rattle.moo_eval_frame.specs.Seen.{variables_of, failure_of, HadMemoryIn};

use crate::integers::binary;
use moo_eval_frame::{Failure, Variables};
use moo_eval_slot::{extended, has_room_after};
use moo_syntax_ast::Name;
use moo_syntax_ast::operator::BinaryOperator;
use moo_value::{ErrorCode, MooStr, Value};
use std::alloc::Global;

/// Sets a variable to the sum of two values, or returns the error of the sum; the variable then keeps its value. A
/// string that nothing but the variable and `first` shares grows in place. If memory runs out, the variable may be 0.
pub fn set_sum(
    alloc: Global,
    variables: &mut Variables,
    name: &Name,
    first: Value,
    last: &Value,
) -> Result<(), Failure>
    ensures ok { OnOk result ((w : Tree) × (added (tree first) (tree last.now) ≡ Ok w) × (variables_of variables.new ≡ with_variable (variables_of variables.old) (bind name.now w))) }
    ensures err { IfErr result (λ failure. HadMemoryIn failure → answers (added (tree first) (tree last.now)) ≡ Err (failure_of failure)) }
    ensures kept { IfErr result (λ failure. HadMemoryIn failure → variables_of variables.new ≡ variables_of variables.old) }
{
    match (first, last) {
        (Value::Str(text), Value::Str(last)) => set_extended(alloc, variables, name, text, last),
        (first, _) => {
            let sum = binary(alloc, BinaryOperator::Add, &first, last)?;
            variables.set(name, sum)?;
            Ok(())
        }
    }
}

// Sets a variable to the string with another after its bytes. Past the limit that is E_QUOTA; the variable then keeps
// its value. The variable is set to 0 first, so a string that nothing else shares grows in place.
fn set_extended(
    alloc: Global,
    variables: &mut Variables,
    name: &Name,
    text: MooStr,
    last: &MooStr,
) -> Result<(), Failure>
    ensures ok { OnOk result ((w : Tree) × (added (string text) (string last.now) ≡ Ok w) × (variables_of variables.new ≡ with_variable (variables_of variables.old) (bind name.now w))) }
    ensures err { IfErr result (λ failure. HadMemoryIn failure → answers (added (string text) (string last.now)) ≡ Err (failure_of failure)) }
    ensures kept { IfErr result (λ failure. HadMemoryIn failure → variables_of variables.new ≡ variables_of variables.old) }
{
    if !has_room_after(&text, last) {
        return Err(Failure::Fails(ErrorCode::Quota));
    }
    variables.set(name, Value::Int(0))?;
    let extended = extended(alloc, text, last)?;
    variables.set(name, Value::Str(extended))?;
    Ok(())
}
