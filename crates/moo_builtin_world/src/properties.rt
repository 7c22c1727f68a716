//! Functions that inspect, clear or delete properties: 'Operations on Properties' of the LambdaMOO Programmer's
//! Manual, 'Functions over the world' of docs/reference/language.md. Arguments that don't fit the function's row raise E_TYPE;
//! no call has such arguments.
ghost use Rattle.std.specs.Prelude.{◌≡◌, ◌∷◌, [], IfOk, IsOk, None, Some, map};
ghost use Rattle.moo_builtin_world.specs.Order.{asked};
ghost use Rattle.moo_value.specs.Tree.{object, string, list_of};
ghost use Rattle.moo_builtin_operator.specs.Answer.{limited};
ghost use Rattle.moo_world_text.specs.Permissions.{prop_perms_text};
ghost use Rattle.moo_value.specs.View.{trees};
ghost use Rattle.moo_builtin_value.specs.TextAnswers.{Gives};
ghost use Rattle.moo_builtin_world.specs.Answers.{Does, IsNeverLacking, LacksOnly};
ghost use Rattle.moo_builtin_world.specs.Properties.{properties, info_told, property_info, clearness, is_clear_property, cleared_named, clear_property, without_named, delete_property};

use crate::made::{
    INVALID_ARGUMENT, PERMISSION, TYPE_MISMATCH, changed, listed, permitted, told, truth,
};
use moo_builtin_operator::OperationFault;
use moo_value::{MooStr, Value};
use moo_world::{PropPerms, Rights, World, WorldFault};
use moo_world_text::prop_perms_text;
use std::alloc::{AllocError, Global};

/// Computes `properties(o)`: the list of the names that an object itself defines, as they are spelled. Raises
/// E_INVARG if o is no object, E_PERM for a programmer who may not read it, and E_QUOTA for a list past its limits.
pub fn properties(
    alloc: Global,
    args: &[Value],
    world: &World,
    programmer: i32,
) -> Result<Value, OperationFault>
    ensures { Gives result (properties world.now programmer (trees args.now)) }
{
    match args {
        [Value::Obj(o)] => properties_of(alloc, *o, world, programmer),
        _ => Err(TYPE_MISMATCH),
    }
}

fn properties_of(
    alloc: Global,
    o: i32,
    world: &World,
    programmer: i32,
) -> Result<Value, OperationFault>
    ensures { Gives result (properties world.now programmer (object o ∷ [])) }
{
    let Some(object) = world.object(o) else {
        return Err(INVALID_ARGUMENT);
    };
    if !Rights::may_read_object(world, programmer, o) {
        return Err(PERMISSION);
    }
    match strings(alloc, object.defined()) {
        Ok(names) => listed(alloc, names),
        Err(AllocError) => Err(OperationFault::Memory),
    }
}

fn strings(alloc: Global, names: &[MooStr]) -> Result<Vec<Value>, AllocError>
    ensures { IfOk result (λ v. trees v.items ≡ map (λ name. string name) names.now) }
{
    let mut values = Vec::new(alloc);
    for name in names {
        values.push(Value::Str(name.try_clone()?))?;
    }
    Ok(values)
}

/// Computes `property_info(o, name)`: `{owner, perms}`, where perms has the letters of `rwc` that are set. Raises
/// E_INVARG if o is no object, E_PROPNF if it has no such property or the name is a built-in one, and E_PERM for a
/// programmer who may not read the property.
pub fn property_info(
    alloc: Global,
    args: &[Value],
    world: &World,
    programmer: i32,
) -> Result<Value, OperationFault>
    ensures { Gives result (property_info world.now programmer (trees args.now)) }
{
    match args {
        [Value::Obj(o), Value::Str(name)] => info_of(alloc, *o, name, world, programmer),
        _ => Err(TYPE_MISMATCH),
    }
}

#[tactic(auto, unfolding(crate::specs::Properties::info_told))]
fn info_of(
    alloc: Global,
    o: i32,
    name: &MooStr,
    world: &World,
    programmer: i32,
) -> Result<Value, OperationFault>
    ensures { Gives result (info_told world.now programmer o name.now) }
{
    let name = name.as_bytes();
    let is_allowed = Rights::may_read_property(world, programmer, o, name);
    match world.property_info(o, name) {
        Ok(info) => asked_info(alloc, info, is_allowed),
        Err(WorldFault::Raise(error)) => Err(OperationFault::Raise(error)),
        Err(WorldFault::Memory) => Err(OperationFault::Memory),
    }
}

fn asked_info(
    alloc: Global,
    info: (i32, PropPerms),
    is_allowed: bool,
) -> Result<Value, OperationFault>
    ensures { Gives result (asked None is_allowed (limited (list_of (object info.0 ∷ string (prop_perms_text info.1) ∷ [])))) }
{
    if !is_allowed {
        return Err(PERMISSION);
    }
    info_value(alloc, info.0, info.1)
}

fn info_value(alloc: Global, owner: i32, perms: PropPerms) -> Result<Value, OperationFault>
    ensures { Gives result (limited (list_of (object owner ∷ string (prop_perms_text perms) ∷ []))) }
{
    let Ok(letters) = prop_perms_text(alloc, perms) else {
        return Err(OperationFault::Memory);
    };
    match Vec::from_array(alloc, [Value::Obj(owner), Value::Str(letters)]) {
        Ok(values) => listed(alloc, values),
        Err(_) => Err(OperationFault::Memory),
    }
}

/// Computes `is_clear_property(o, name)`: 1 if an object has no value of its own for a property, else 0. Raises what
/// `property_info` raises.
pub fn is_clear_property(
    args: &[Value],
    world: &World,
    programmer: i32,
) -> Result<Value, OperationFault>
    ensures { Gives result (is_clear_property world.now programmer (trees args.now)) }
{
    match args {
        [Value::Obj(o), Value::Str(name)] => is_clear(*o, name, world, programmer),
        _ => Err(TYPE_MISMATCH),
    }
}

#[tactic(auto, unfolding(crate::specs::Properties::clearness))]
fn is_clear(o: i32, name: &MooStr, world: &World, programmer: i32) -> Result<Value, OperationFault>
    ensures { Gives result (clearness world.now programmer o name.now) }
{
    let name = name.as_bytes();
    let clear = told(world.is_clear(o, name))?;
    if !Rights::may_read_property(world, programmer, o, name) {
        return Err(PERMISSION);
    }
    Ok(truth(clear))
}

/// Runs `clear_property(o, name)`: removes the value that an object has for a property that it inherits, and returns
/// 0. Raises E_INVARG if o is no object, E_PROPNF as `property_info` does, E_INVARG if o itself defines the property,
/// and E_PERM for a programmer who may not write the property. Allocates nothing.
pub fn clear_property(
    args: &[Value],
    world: &mut World,
    programmer: i32,
) -> Result<Value, OperationFault>
    ensures answer { Does result world.old world.new (clear_property world.old programmer (trees args.now)) }
    ensures memory { IsNeverLacking result }
{
    match args {
        [Value::Obj(o), Value::Str(name)] => clear(*o, name, world, programmer),
        _ => Err(TYPE_MISMATCH),
    }
}

fn clear(o: i32, name: &MooStr, world: &mut World, programmer: i32) -> Result<Value, OperationFault>
    ensures answer { Does result world.old world.new (cleared_named world.old programmer o name.now) }
    ensures memory { IsNeverLacking result }
{
    let name = name.as_bytes();
    let is_allowed = Rights::may_write_property(world, programmer, o, name);
    permitted(world.try_clear_property(o, name), is_allowed)?;
    changed(world.clear_property(o, name))
}

/// Runs `delete_property(o, name)`: deletes a property that an object defines, from what is below it too, and returns
/// 0. Raises E_INVARG if o is no object, E_PROPNF if it doesn't define the property itself, and E_PERM for a
/// programmer who may not write o.
pub fn delete_property(
    alloc: Global,
    args: &[Value],
    world: &mut World,
    programmer: i32,
) -> Result<Value, OperationFault>
    ensures answer { Does result world.old world.new (delete_property world.old programmer (trees args.now)) }
    ensures memory { LacksOnly result (IsOk (delete_property world.old programmer (trees args.now))) }
{
    match args {
        [Value::Obj(o), Value::Str(name)] => delete(alloc, *o, name, world, programmer),
        _ => Err(TYPE_MISMATCH),
    }
}

fn delete(
    alloc: Global,
    o: i32,
    name: &MooStr,
    world: &mut World,
    programmer: i32,
) -> Result<Value, OperationFault>
    ensures answer { Does result world.old world.new (without_named world.old programmer o name.now) }
    ensures memory { LacksOnly result (IsOk (without_named world.old programmer o name.now)) }
{
    let name = name.as_bytes();
    let is_allowed = Rights::may_write_object(world, programmer, o);
    permitted(world.try_delete_property(o, name), is_allowed)?;
    changed(world.delete_property(alloc, o, name))
}
