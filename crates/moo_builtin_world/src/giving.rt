//! Functions that define properties, and that change their info: 'Operations on Properties' of the LambdaMOO
//! Programmer's Manual, 'Functions over the world' of docs/reference/language.md. Arguments that don't fit the function's row
//! raise E_TYPE; no call has such arguments.
ghost use Rattle.moo_value.specs.Compare.{folded};
ghost use Rattle.moo_value.specs.View.{tree, trees};
ghost use Rattle.moo_world.specs.Calls.{number_of, Tests};
ghost use Rattle.moo_world.specs.InfoCalls.{set_info_raises};
ghost use Rattle.moo_builtin_world.specs.Answers.{Does};
ghost use Rattle.moo_builtin_world.specs.Order.{given};
ghost use Rattle.moo_builtin_world.specs.Forms.{given_property};
ghost use Rattle.moo_builtin_world.specs.Properties.{with_property_info, set_property_info, with_property, add_property};

use crate::allowed::{may_add, may_change_info};
use crate::forms::{GivenProperty, given_property};
use crate::made::{TYPE_MISMATCH, changed, refused};
use moo_builtin_operator::OperationFault;
use moo_value::{MooStr, Value};
use moo_world::{World, WorldFault};
use std::alloc::Global;

/// Runs `set_property_info(o, name, {owner, perms[, new]})`: gives a property an owner, permissions and perhaps
/// another name, and returns 0. Raises E_TYPE or E_INVARG for the list. Raises E_INVARG if o is no object, and
/// E_PROPNF if it has no such property or the name is a built-in one. Raises E_INVARG for a new name that is taken or
/// on an object that inherits the property. Last raises E_PERM for a programmer who may not write the property or
/// who, not being a wizard, gives it another owner.
pub fn set_property_info(
    alloc: Global,
    args: &[Value],
    world: &mut World,
    programmer: i32,
) -> Result<Value, OperationFault>
    ensures { Does result world.old world.new (set_property_info world.old programmer (trees args.now)) }
{
    match args {
        [Value::Obj(o), Value::Str(name), info] => {
            let given = given_property(info)?;
            set_info(alloc, *o, name, given, world, programmer)
        }
        _ => Err(TYPE_MISMATCH),
    }
}

fn set_info(
    alloc: Global,
    o: i32,
    name: &MooStr,
    given: GivenProperty,
    world: &mut World,
    programmer: i32,
) -> Result<Value, OperationFault>
    ensures { Does result world.old world.new (with_property_info world.old programmer o name.now given) }
{
    let name = name.as_bytes();
    if !may_change_info(o, name, given.owner, world, programmer) {
        return refused(test_info(alloc, o, name, &given, world));
    }
    changed(world.set_property_info(alloc, o, name, given.owner, given.perms, given.name))
}

fn test_info(
    alloc: Global,
    o: i32,
    name: &[u8],
    given: &GivenProperty,
    world: &World,
) -> Result<(), WorldFault>
    ensures { Tests result (set_info_raises world.now (number_of world.now.objects o) (folded name.now) given.now.name) }
{
    world.try_set_property_info(alloc, o, name, given.name.as_ref())
}

/// Runs `add_property(o, name, value, {owner, perms})`: defines a property on an object, and returns 0. Raises E_TYPE
/// or E_INVARG for the list. Raises E_INVARG if o is no object or the name is taken above it, on it or below it, and
/// E_QUOTA if an object would have too many properties. Last raises E_PERM for a programmer who may not write o or
/// who, not being a wizard, names another owner.
pub fn add_property(
    alloc: Global,
    args: &[Value],
    world: &mut World,
    programmer: i32,
) -> Result<Value, OperationFault>
    ensures { Does result world.old world.new (add_property world.old programmer (trees args.now)) }
{
    match args {
        [Value::Obj(o), Value::Str(name), value, info] => {
            let given = given_property(info)?;
            match (name.try_clone(), value.try_clone()) {
                (Ok(name), Ok(value)) => {
                    define(alloc, *o, name, value, given, world, programmer)
                }
                _ => Err(OperationFault::Memory),
            }
        }
        _ => Err(TYPE_MISMATCH),
    }
}

fn define(
    alloc: Global,
    o: i32,
    name: MooStr,
    value: Value,
    given: GivenProperty,
    world: &mut World,
    programmer: i32,
) -> Result<Value, OperationFault>
    ensures { Does result world.old world.new (with_property world.old programmer o name (tree value) given) }
{
    if !may_add(o, given.owner, world, programmer) {
        return refused(world.try_add_property(alloc, o, name.as_bytes()));
    }
    changed(world.add_property(alloc, o, name, value, given.owner, given.perms))
}
