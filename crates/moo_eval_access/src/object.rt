//! Properties of objects: 'Getting and Setting the Values of Properties' of the LambdaMOO Programmer's Manual,
//! 'Expressions' of docs/reference/language.md.
ghost use Rattle.std.specs.Prelude.{◌≡◌, None, Ok, IfErr, IfSome};
ghost use Rattle.moo_value.specs.View.{tree};
ghost use Rattle.moo_value.specs.Tree.{object, string};
ghost use Rattle.moo_eval_access.specs.Calls.{read_raises, read_property, write_property, IsSetAlike};
ghost use Rattle.moo_eval_frame.specs.Outcome.{answers};
ghost use Rattle.moo_eval_frame.specs.Seen.{seen_answer, seen_by, IsKnownFailure, LacksOnlyIn};

use crate::fault::failed;
use moo_eval_frame::Failure;
use moo_syntax_ast::Text;
use moo_value::{ErrorCode, MooStr, Value};
use moo_world::{Rights, World};
use std::alloc::Global;

/// Returns the value of a property, read with the rights of a programmer. E_TYPE if the base is no object or the name
/// no string, E_INVIND if the object isn't valid. E_PROPNF if it has no such property, E_PERM if the programmer may not
/// read it.
pub fn read_property(
    alloc: Global,
    world: &World,
    programmer: i32,
    base: &Value,
    name: &Value,
) -> Result<Value, Failure>
    ensures value { IsKnownFailure result → answers (read_property world.now programmer (tree base.now) (tree name.now)) ≡ seen_answer result }
    ensures memory { IfErr result (LacksOnlyIn (read_raises world.now (tree base.now) (tree name.now) ≡ None)) }
{
    let (Value::Obj(o), Value::Str(name)) = (base, name) else {
        return Err(Failure::Fails(ErrorCode::TypeMismatch));
    };
    match world.readable_value(programmer, *o, name.as_bytes()) {
        Some(value) => Ok(value.try_clone()?),
        None => read_in_order(alloc, world, programmer, *o, name),
    }
}

/// Returns the value of a property whose name is a literal, as `read_property` does. The hint at a literal is 0 until
/// its name is found among the cells of an object. A built-in property has no cell, so it is tried first if the hint
/// is still 0.
#[inline(always)]
pub fn read_written(
    alloc: Global,
    world: &World,
    programmer: i32,
    base: &Value,
    name: &Text,
) -> Result<Value, Failure>
    ensures value { IsKnownFailure result → answers (read_property world.now programmer (tree base.now) (string name.now)) ≡ seen_answer result }
    ensures memory { IfErr result (LacksOnlyIn (read_raises world.now (tree base.now) (string name.now) ≡ None)) }
{
    let Value::Obj(o) = base else {
        return Err(Failure::Fails(ErrorCode::TypeMismatch));
    };
    if name.hint() == 0 {
        if let Some(value) = world.built_in_value(alloc, *o, name) {
            return Ok(value);
        }
    }
    match world.readable_written(programmer, *o, name) {
        Some(value) => Ok(value.try_clone()?),
        None => read_in_order(alloc, world, programmer, *o, name.string()),
    }
}

// Reads any property, the built-in ones too, testing one condition after the other.
#[inline(never)]
fn read_in_order(
    alloc: Global,
    world: &World,
    programmer: i32,
    o: i32,
    name: &MooStr,
) -> Result<Value, Failure>
    ensures value { IsKnownFailure result → answers (read_property world.now programmer (object o) (string name.now)) ≡ seen_answer result }
    ensures memory { IfErr result (LacksOnlyIn (read_raises world.now (object o) (string name.now) ≡ None)) }
{
    let value = world.get(alloc, o, name.as_bytes()).map_err(failed)?;
    if Rights::may_read_property(world, programmer, o, name.as_bytes()) {
        Ok(value)
    } else {
        Err(Failure::Fails(ErrorCode::Permission))
    }
}

/// Returns the value of a property whose name is a literal, as `read_property` does. `None` if the property is neither
/// built in nor in the cell that the hint at its name gives. `None` too if the programmer may not read it, or if memory
/// is missing.
#[inline(always)]
pub fn read_known(
    alloc: Global,
    world: &World,
    programmer: i32,
    o: i32,
    name: &Text,
) -> Option<Value>
    ensures { IfSome result (λ v. read_property world.now programmer (object o) (string name.now) ≡ Ok (tree v)) }
{
    if name.hint() == 0 {
        return world.built_in_value(alloc, o, name);
    }
    let value = world.readable_known(programmer, o, name)?;
    match value.try_clone() {
        Ok(copy) => Some(copy),
        Err(_) => None,
    }
}

/// Sets a property, with the rights of a programmer. E_TYPE, E_INVIND and E_PROPNF as `read_property`. Then E_TYPE for
/// a built-in `name` that is no string or a built-in `owner` that is no object. E_PERM for the location and the
/// contents. Last E_PERM if the programmer may not set it. If it is refused, nothing changes.
pub fn write_property(
    world: &mut World,
    programmer: i32,
    base: &Value,
    name: &Value,
    value: Value,
) -> Result<(), Failure>
    ensures world { answers (write_property world.old programmer (tree base.now) (tree name.now) (tree value)) ≡ seen_by (λ _. world.new) result }
    ensures kept { IfErr result (λ _. world.new ≡ world.old) }
{
    let (Value::Obj(o), Value::Str(name)) = (base, name) else {
        return Err(Failure::Fails(ErrorCode::TypeMismatch));
    };
    match world.set_by(programmer, *o, name.as_bytes(), value) {
        Ok(()) => Ok(()),
        Err(fault) => Err(failed(fault)),
    }
}

/// Sets a property whose name is a literal, as `write_property` does.
#[inline(always)]
pub fn write_written(
    world: &mut World,
    programmer: i32,
    base: &Value,
    name: &Text,
    value: Value,
) -> Result<(), Failure>
    ensures world { answers (write_property world.old programmer (tree base.now) (string name.now) (tree value)) ≡ seen_by (λ _. world.new) result }
    ensures kept { IfErr result (λ _. world.new ≡ world.old) }
{
    let Value::Obj(o) = base else {
        return Err(Failure::Fails(ErrorCode::TypeMismatch));
    };
    match world.set_written_by(programmer, *o, name, value) {
        Ok(()) => Ok(()),
        Err(fault) => Err(failed(fault)),
    }
}

/// Sets a property to 0 before it is set again, so that a list that nothing else holds is changed in place. Changes
/// nothing if the programmer may not set the property, if it is built in, or if the object has no cell for it.
pub fn drop_property(world: &mut World, programmer: i32, base: &Value, name: &Value)
    ensures { IsSetAlike world.old world.new programmer (tree base.now) (tree name.now) }
{
    if let (Value::Obj(o), Value::Str(name)) = (base, name) {
        let _dropped = world.try_drop(programmer, *o, name.as_bytes());
    }
}

/// Sets a property whose name is a literal to 0, as `drop_property` does.
#[inline(always)]
pub fn drop_written(world: &mut World, programmer: i32, base: &Value, name: &Text)
    ensures { IsSetAlike world.old world.new programmer (tree base.now) (string name.now) }
{
    if let Value::Obj(o) = base {
        let _dropped = world.try_drop_written(programmer, *o, name);
    }
}
