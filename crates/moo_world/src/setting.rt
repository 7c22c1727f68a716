//! Sets properties by their names, the built-in ones too.

ghost use Rattle.std.specs.Prelude.{IsSome};
ghost use Rattle.moo_value.specs.Compare.{folded};
ghost use Rattle.moo_value.specs.View.{tree};
ghost use Rattle.moo_world_object.specs.BuiltIn.{built_in_of};
ghost use Rattle.moo_world_table.specs.World.{object_of};
ghost use Rattle.moo_world_table.specs.Changes.{with_object};
ghost use Rattle.moo_world_table.specs.Edits.{with_built_in, with_named};
ghost use Rattle.moo_world.specs.EditCalls.{set_built_in_raises, set_named_raises, set_raises, world_set};
ghost use Rattle.moo_world.specs.Calls.{Changes, Tests, number_of, TakesNoMemory};

use crate::World;
use crate::fault::WorldFault;
use moo_value::{ErrorCode, Value};
use moo_world_object::{BuiltInProperty, built_in};
use moo_world_table::editing::set_built_in_in;

impl World {
    /// Returns Ok if setting a property raises nothing, else the fault that it raises.
    pub fn try_set(&self, o: i32, name: &[u8], value: &Value) -> Result<(), WorldFault>
        ensures raises { Tests result (set_raises self.now (number_of self.now.objects o) (folded name.now) (tree value.now)) }
        ensures memory { TakesNoMemory result }
    {
        match self.number(o) {
            Some(x) => self.test_named(x, name, value),
            None => Err(WorldFault::Raise(ErrorCode::InvalidIndirection)),
        }
    }

    /// Sets a property by its name: a built-in one, or else the object's own cell.
    pub fn set(&mut self, o: i32, name: &[u8], value: Value) -> Result<(), WorldFault>
        ensures world { let x = number_of self.old.objects o in
            Changes result self.old self.new (set_raises self.old x (folded name.now) (tree value)) (world_set self.old x (folded name.now) (tree value)) }
        ensures memory { TakesNoMemory result }
    {
        match self.number(o) {
            Some(x) => self.set_named(x, name, value),
            None => Err(WorldFault::Raise(ErrorCode::InvalidIndirection)),
        }
    }

    fn test_named(&self, x: usize, name: &[u8], value: &Value) -> Result<(), WorldFault>
        requires { IsSome (object_of self.now.objects x) }
        ensures raises { Tests result (set_named_raises self.now x (folded name.now) (tree value.now) (built_in_of (folded name.now))) }
        ensures memory { TakesNoMemory result }
    {
        match built_in(name) {
            Some(property) => test_built_in(property, value),
            None => self.test_defined(x, name),
        }
    }

    // Sets a property of a valid object by its name.
    fn set_named(&mut self, x: usize, name: &[u8], value: Value) -> Result<(), WorldFault>
        requires { IsSome (object_of self.old.objects x) }
        ensures world { Changes result self.old self.new (set_named_raises self.old x (folded name.now) (tree value) (built_in_of (folded name.now)))
            (with_object self.old x (with_named (folded name.now) (tree value) (built_in_of (folded name.now)))) }
        ensures memory { TakesNoMemory result }
    {
        match built_in(name) {
            Some(property) => self.set_built_in(x, property, value),
            None => self.set_value(x, name, value),
        }
    }

    fn set_built_in(
        &mut self,
        x: usize,
        property: BuiltInProperty,
        value: Value,
    ) -> Result<(), WorldFault>
        requires { IsSome (object_of self.old.objects x) }
        ensures world { Changes result self.old self.new (set_built_in_raises property (tree value)) (with_object self.old x (with_built_in property (tree value))) }
        ensures memory { TakesNoMemory result }
    {
        let _weight = value.weight();
        test_built_in(property, &value)?;
        set_built_in_in(&mut self.objects[x], property, value);
        Ok(())
    }
}

// Returns Ok if a built-in property takes a value, else the fault.
fn test_built_in(property: BuiltInProperty, value: &Value) -> Result<(), WorldFault>
    ensures raises { Tests result (set_built_in_raises property (tree value.now)) }
    ensures memory { TakesNoMemory result }
{
    match (property, value) {
        (BuiltInProperty::Name, Value::Str(_)) | (BuiltInProperty::Owner, Value::Obj(_)) => Ok(()),
        (BuiltInProperty::Name | BuiltInProperty::Owner, _) => {
            Err(WorldFault::Raise(ErrorCode::TypeMismatch))
        }
        (BuiltInProperty::Location | BuiltInProperty::Contents, _) => {
            Err(WorldFault::Raise(ErrorCode::Permission))
        }
        _ => Ok(()),
    }
}
