//! Places of lists and strings that are set in the variable or the property that holds them, as by `l[i] = x;`.
ghost use Rattle.std.specs.Prelude.{◌≡◌, Ok, Err, IfErr, OnOk};
ghost use Rattle.moo_value.specs.Tree.{Tree, string};
ghost use Rattle.moo_value.specs.View.{tree};
ghost use Rattle.moo_builtin_operator.specs.Assignment.{with_index_of};
ghost use Rattle.moo_eval_frame.specs.Outcome.{answers};
ghost use Rattle.moo_eval_slot.specs.Bindings.{bind, with_variable};
ghost use Rattle.moo_eval_frame.specs.Seen.{variables_of, failure_of, seen_by, HadMemoryIn, IsKnownFailure};
ghost use Rattle.moo_eval_access.specs.Calls.{write_result};

use moo_builtin_operator::{index_refusal, with_index};
use moo_eval_access::{drop_written, write_written};
use moo_eval_frame::{Failure, Variables};
use moo_syntax_ast::{Name, Text};
use moo_value::Value;
use moo_world::World;
use std::alloc::Global;

/// Sets a variable to the container with the value at the place. Raises the errors of `with_index`; the variable then
/// keeps its value. The variable is set to 0 first, so a list that nothing else shares is changed in place. If memory
/// runs out, it may stay 0.
pub(crate) fn set_at(
    alloc: Global,
    variables: &mut Variables,
    name: &Name,
    container: Value,
    place: &Value,
    value: Value,
) -> Result<(), Failure>
    ensures ok { OnOk result ((w : Tree) × (with_index_of (tree container) (tree place.now) (tree value) ≡ Ok w) × (variables_of variables.new ≡ with_variable (variables_of variables.old) (bind name.now w))) }
    ensures err { IfErr result (λ failure. HadMemoryIn failure → answers (with_index_of (tree container) (tree place.now) (tree value)) ≡ Err (failure_of failure)) }
    ensures kept { IfErr result (λ failure. HadMemoryIn failure → variables_of variables.new ≡ variables_of variables.old) }
{
    if let Some(code) = index_refusal(&container, place, &value) {
        return Err(Failure::Fails(code));
    }
    replace_at(alloc, variables, name, container, place, value)
}

// Sets a variable to the container with a value that the place doesn't refuse.
fn replace_at(
    alloc: Global,
    variables: &mut Variables,
    name: &Name,
    container: Value,
    place: &Value,
    value: Value,
) -> Result<(), Failure>
    ensures ok { OnOk result ((w : Tree) × (with_index_of (tree container) (tree place.now) (tree value) ≡ Ok w) × (variables_of variables.new ≡ with_variable (variables_of variables.old) (bind name.now w))) }
    ensures err { IfErr result (λ failure. HadMemoryIn failure → answers (with_index_of (tree container) (tree place.now) (tree value)) ≡ Err (failure_of failure)) }
{
    variables.set(name, Value::Int(0))?;
    let whole = with_index(alloc, container, place, value)?;
    variables.set(name, whole)?;
    Ok(())
}

/// Sets a property whose name is a literal to the container with the value at the place, with the rights of a
/// programmer. Raises the errors of `with_index`, then those of `write_property`; the property then keeps its value.
/// The property is set to 0 first, so a list that nothing else shares is changed in place. If memory runs out, it may
/// stay 0.
#[inline(always)]
pub(crate) fn set_property_at(
    alloc: Global,
    world: &mut World,
    programmer: i32,
    base: &Value,
    name: &Text,
    container: Value,
    place: &Value,
    value: Value,
) -> Result<(), Failure>
    ensures world { IsKnownFailure result → answers (write_result world.old programmer (tree base.now) (string name.now) (with_index_of (tree container) (tree place.now) (tree value))) ≡ seen_by (λ _. world.new) result }
    ensures kept { IfErr result (λ failure. HadMemoryIn failure → world.new ≡ world.old) }
{
    if let Some(code) = index_refusal(&container, place, &value) {
        return Err(Failure::Fails(code));
    }
    drop_written(world, programmer, base, name);
    let whole = with_index(alloc, container, place, value)?;
    write_written(world, programmer, base, name, whole)
}
