//! Values that are stored in a place whose old value is let go of first, as `l[i] = {@l[i], x};` and `o.p = setadd(o.p, x);`
//! do. So a list that nothing else holds is changed in place.
ghost use Rattle.std.specs.Prelude.{◌≡◌, Ok, Err, IsTrue, IfOk, IfErr, IfSome, OnOk};
ghost use Rattle.moo_value.specs.Tree.{Tree, string};
ghost use Rattle.moo_value.specs.View.{tree};
ghost use Rattle.moo_builtin_operator.specs.Assignment.{with_index_of};
ghost use Rattle.moo_eval_frame.specs.Outcome.{answers};
ghost use Rattle.moo_eval_slot.specs.Bindings.{bind, with_variable};
ghost use Rattle.moo_eval_frame.specs.Seen.{variables_of, failure_of, seen_answer, seen_by, HadMemoryIn, IsKnownFailure};
ghost use Rattle.moo_eval_access.specs.Calls.{write_property, write_result};
ghost use Rattle.moo_eval_access.specs.Bounds.{IsWithin};
ghost use Rattle.moo_eval_deferred.specs.Deferred.{deferred_tree};

use crate::list_call::ListCall;
use crate::list_part::ListPart;
use crate::longer_list::LongerList;
use crate::place::{set_at, set_property_at};
use moo_eval_access::{
    Places, Step, drop_property, drop_written, element_bounds, write_property, write_written,
};
use moo_eval_frame::{Failure, Variables};
use moo_syntax_ast::{Name, Text};
use moo_value::Value;
use moo_world::World;
use std::alloc::{AllocError, Global};

/// Holds a value, or a list that is still to be changed.
#[derive(Drop)]
pub enum Deferred {
    Value(Value),
    Longer(LongerList),
    Called(ListCall),
    Part(ListPart),
}

impl Deferred {
    fn is_made(&self) -> bool {
        matches!(self, Deferred::Value(_))
    }

    // Makes the value. A list that nothing else holds is changed in place. Err is out of memory.
    #[inline(always)]
    fn into_value(self, alloc: Global) -> Result<Value, AllocError>
        ensures { IfOk result (λ made. tree made ≡ deferred_tree self) }
    {
        match self {
            Deferred::Value(value) => Ok(value),
            Deferred::Longer(longer) => Ok(Value::List(longer.into_list(alloc)?)),
            Deferred::Called(call) => call.into_value(alloc),
            Deferred::Part(part) => Ok(Value::List(part.into_list(alloc)?)),
        }
    }

    // Returns whether a list surely takes the changed list at a place. False if the changed list may get it past the limits,
    // and for other values.
    fn is_taken_at(&self, container: &Value, place: &Value) -> bool
        ensures { IsTrue result → (w : Tree) × (with_index_of (tree container.now) (tree place.now) (deferred_tree self.now) ≡ Ok w) }
    {
        let Value::List(outer) = container else {
            return false;
        };
        match self.bounds() {
            Some((heaviest, deepest)) => {
                element_bounds(outer, place, heaviest, deepest).is_some()
            }
            None => false,
        }
    }

    // Returns bounds of the weight and the depth of a list that is still to be changed, or `None` for other values.
    fn bounds(&self) -> Option<(u32, u32)>
        ensures { IfSome result (λ b. IsWithin b.0 b.1 (deferred_tree self.now)) }
    {
        match self {
            Deferred::Value(_) => None,
            Deferred::Longer(longer) => longer.bounds(),
            Deferred::Called(call) => call.bounds(),
            Deferred::Part(part) => Some(part.bounds()),
        }
    }

    // Returns the depth of the list that is still to be changed, or 0 for other values.
    fn depth(&self) -> u32 {
        match self {
            Deferred::Value(_) => 0,
            Deferred::Longer(longer) => longer.depth(),
            Deferred::Called(call) => call.depth(),
            Deferred::Part(part) => part.depth(),
        }
    }

    // Returns the container with the value at the place. If nothing but the place and this holds the list, it is
    // changed in place.
    fn into_place(self, alloc: Global, container: Value, place: Value) -> Result<Value, Failure>
        ensures { IsKnownFailure result → answers (with_index_of (tree container) (tree place) (deferred_tree self)) ≡ seen_answer result }
    {
        let mut step = Step {
            container,
            places: Places::Element(place),
        };
        step.let_go(alloc, self.depth())?;
        let value = self.into_value(alloc)?;
        Ok(step.with(alloc, value)?)
    }
}

/// Sets a variable to the value. The variable is set to 0 first if a list is still to be changed, so a list that nothing
/// else holds is changed in place. Err is out of memory; the variable may then be 0.
pub fn set_deferred(
    alloc: Global,
    variables: &mut Variables,
    name: &Name,
    value: Deferred,
) -> Result<(), AllocError>
    ensures { OnOk result (variables_of variables.new ≡ with_variable (variables_of variables.old) (bind name.now (deferred_tree value))) }
{
    if !value.is_made() {
        variables.set(name, Value::Int(0))?;
    }
    let value = value.into_value(alloc)?;
    variables.set(name, value)?;
    Ok(())
}

/// Sets a variable to the value, as `set_deferred` does, and returns the value.
pub fn assign_deferred(
    alloc: Global,
    variables: &mut Variables,
    name: &Name,
    value: Deferred,
) -> Result<Value, AllocError>
    ensures value { IfOk result (λ set. tree set ≡ deferred_tree value) }
    ensures set { IfOk result (λ _. variables_of variables.new ≡ with_variable (variables_of variables.old) (bind name.now (deferred_tree value))) }
{
    if !value.is_made() {
        variables.set(name, Value::Int(0))?;
    }
    let value = value.into_value(alloc)?;
    let copy = value.try_clone()?;
    variables.set(name, copy)?;
    Ok(value)
}

/// Sets a variable to the container with the value at the place, as `set_at` does.
pub fn set_deferred_at(
    alloc: Global,
    variables: &mut Variables,
    name: &Name,
    container: Value,
    place: Value,
    value: Deferred,
) -> Result<(), Failure>
    ensures ok { OnOk result ((w : Tree) × (with_index_of (tree container) (tree place) (deferred_tree value) ≡ Ok w) × (variables_of variables.new ≡ with_variable (variables_of variables.old) (bind name.now w))) }
    ensures err { IfErr result (λ failure. HadMemoryIn failure → answers (with_index_of (tree container) (tree place) (deferred_tree value)) ≡ Err (failure_of failure)) }
    ensures kept { IfErr result (λ failure. HadMemoryIn failure → variables_of variables.new ≡ variables_of variables.old) }
{
    match value {
        Deferred::Value(value) => set_at(alloc, variables, name, container, &place, value),
        changed => set_changed_at(alloc, variables, name, container, place, changed),
    }
}

// Sets a variable to the container with a changed list at the place. Not inlined, so that other values need no stack
// space for it.
#[inline(never)]
fn set_changed_at(
    alloc: Global,
    variables: &mut Variables,
    name: &Name,
    container: Value,
    place: Value,
    value: Deferred,
) -> Result<(), Failure>
    ensures ok { OnOk result ((w : Tree) × (with_index_of (tree container) (tree place) (deferred_tree value) ≡ Ok w) × (variables_of variables.new ≡ with_variable (variables_of variables.old) (bind name.now w))) }
    ensures err { IfErr result (λ failure. HadMemoryIn failure → answers (with_index_of (tree container) (tree place) (deferred_tree value)) ≡ Err (failure_of failure)) }
    ensures kept { IfErr result (λ failure. HadMemoryIn failure → variables_of variables.new ≡ variables_of variables.old) }
{
    if value.is_taken_at(&container, &place) {
        return replace_deferred_at(alloc, variables, name, container, place, value);
    }
    let value = value.into_value(alloc)?;
    set_at(alloc, variables, name, container, &place, value)
}

// Sets a variable to the container with the value at a place that takes it.
fn replace_deferred_at(
    alloc: Global,
    variables: &mut Variables,
    name: &Name,
    container: Value,
    place: Value,
    value: Deferred,
) -> Result<(), Failure>
    ensures ok { OnOk result ((w : Tree) × (with_index_of (tree container) (tree place) (deferred_tree value) ≡ Ok w) × (variables_of variables.new ≡ with_variable (variables_of variables.old) (bind name.now w))) }
    ensures err { IfErr result (λ failure. HadMemoryIn failure → answers (with_index_of (tree container) (tree place) (deferred_tree value)) ≡ Err (failure_of failure)) }
{
    variables.set(name, Value::Int(0))?;
    let whole = value.into_place(alloc, container, place)?;
    variables.set(name, whole)?;
    Ok(())
}

/// Sets a property whose name is a literal to the container with the value at the place, as `set_property_at` does.
/// Inlined, so that a value that is made is not moved.
#[inline(always)]
pub fn set_property_deferred_at(
    alloc: Global,
    world: &mut World,
    programmer: i32,
    base: &Value,
    name: &Text,
    container: Value,
    place: Value,
    value: Deferred,
) -> Result<(), Failure>
    ensures world { IsKnownFailure result → answers (write_result world.old programmer (tree base.now) (string name.now) (with_index_of (tree container) (tree place) (deferred_tree value))) ≡ seen_by (λ _. world.new) result }
    ensures kept { IfErr result (λ failure. HadMemoryIn failure → world.new ≡ world.old) }
{
    match value {
        Deferred::Value(value) => set_property_at(
            alloc, world, programmer, base, name, container, &place, value,
        ),
        changed => set_changed_property_at(
            alloc, world, programmer, base, name, container, place, changed,
        ),
    }
}

// Sets a property to the container with a changed list at the place. Not inlined, as `set_changed_at`.
#[inline(never)]
fn set_changed_property_at(
    alloc: Global,
    world: &mut World,
    programmer: i32,
    base: &Value,
    name: &Text,
    container: Value,
    place: Value,
    value: Deferred,
) -> Result<(), Failure>
    ensures world { IsKnownFailure result → answers (write_result world.old programmer (tree base.now) (string name.now) (with_index_of (tree container) (tree place) (deferred_tree value))) ≡ seen_by (λ _. world.new) result }
    ensures kept { IfErr result (λ failure. HadMemoryIn failure → world.new ≡ world.old) }
{
    if value.is_taken_at(&container, &place) {
        return replace_property_deferred_at(
            alloc, world, programmer, base, name, container, place, value,
        );
    }
    let value = value.into_value(alloc)?;
    set_property_at(
        alloc, world, programmer, base, name, container, &place, value,
    )
}

// Sets a property to the container with the value at a place that takes it.
fn replace_property_deferred_at(
    alloc: Global,
    world: &mut World,
    programmer: i32,
    base: &Value,
    name: &Text,
    container: Value,
    place: Value,
    value: Deferred,
) -> Result<(), Failure>
    requires { (w : Tree) × (with_index_of (tree container) (tree place) (deferred_tree value) ≡ Ok w) }
    ensures world { IsKnownFailure result → answers (write_result world.old programmer (tree base.now) (string name.now) (with_index_of (tree container) (tree place) (deferred_tree value))) ≡ seen_by (λ _. world.new) result }
    ensures kept { IfErr result (λ failure. HadMemoryIn failure → world.new ≡ world.old) }
{
    drop_written(world, programmer, base, name);
    let whole = value.into_place(alloc, container, place)?;
    write_written(world, programmer, base, name, whole)
}

/// Sets a property, as `write_property` does. The property is set to 0 first if a list is still to be changed, so a list
/// that nothing else holds is changed in place. If memory runs out, it may stay 0.
pub fn write_deferred(
    alloc: Global,
    world: &mut World,
    programmer: i32,
    base: &Value,
    name: &Value,
    value: Deferred,
) -> Result<(), Failure>
    ensures world { IsKnownFailure result → answers (write_property world.old programmer (tree base.now) (tree name.now) (deferred_tree value)) ≡ seen_by (λ _. world.new) result }
    ensures kept { IfErr result (λ failure. HadMemoryIn failure → world.new ≡ world.old) }
{
    match value {
        Deferred::Value(value) => write_property(world, programmer, base, name, value),
        changed => write_changed(alloc, world, programmer, base, name, changed),
    }
}

fn write_changed(
    alloc: Global,
    world: &mut World,
    programmer: i32,
    base: &Value,
    name: &Value,
    value: Deferred,
) -> Result<(), Failure>
    ensures world { IsKnownFailure result → answers (write_property world.old programmer (tree base.now) (tree name.now) (deferred_tree value)) ≡ seen_by (λ _. world.new) result }
    ensures kept { IfErr result (λ failure. HadMemoryIn failure → world.new ≡ world.old) }
{
    drop_property(world, programmer, base, name);
    let value = value.into_value(alloc)?;
    write_property(world, programmer, base, name, value)
}

/// Sets a property whose name is a literal, as `write_deferred` does.
pub fn write_written_deferred(
    alloc: Global,
    world: &mut World,
    programmer: i32,
    base: &Value,
    name: &Text,
    value: Deferred,
) -> Result<(), Failure>
    ensures world { IsKnownFailure result → answers (write_property world.old programmer (tree base.now) (string name.now) (deferred_tree value)) ≡ seen_by (λ _. world.new) result }
    ensures kept { IfErr result (λ failure. HadMemoryIn failure → world.new ≡ world.old) }
{
    match value {
        Deferred::Value(value) => write_written(world, programmer, base, name, value),
        changed => write_changed_written(alloc, world, programmer, base, name, changed),
    }
}

fn write_changed_written(
    alloc: Global,
    world: &mut World,
    programmer: i32,
    base: &Value,
    name: &Text,
    value: Deferred,
) -> Result<(), Failure>
    ensures world { IsKnownFailure result → answers (write_property world.old programmer (tree base.now) (string name.now) (deferred_tree value)) ≡ seen_by (λ _. world.new) result }
    ensures kept { IfErr result (λ failure. HadMemoryIn failure → world.new ≡ world.old) }
{
    drop_written(world, programmer, base, name);
    let value = value.into_value(alloc)?;
    write_written(world, programmer, base, name, value)
}
