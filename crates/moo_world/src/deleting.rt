//! Deletes properties.

ghost use Rattle.std.specs.Prelude.{◌<◌, IsSome};
ghost use Rattle.moo_value.specs.Compare.{folded};
ghost use Rattle.moo_world_table.specs.World.{object_of};
ghost use Rattle.moo_world_table.specs.Changes.{after_undefine};
ghost use Rattle.moo_world.specs.PropertyCalls.{undefine_raises, delete_property_raises, world_undefine};
ghost use Rattle.moo_world.specs.Calls.{Changes, Tests, number_of, TakesNoMemory, RaisesFirst};

use crate::World;
use crate::fault::WorldFault;
use moo_value::ErrorCode;
use moo_world_object::built_in;
use moo_world_table::deleting::{defines_in, forget_in, lose_along};
use std::alloc::Global;

impl World {
    /// Returns Ok if deleting a property raises nothing, else the fault that it raises. Built-in properties are not
    /// found.
    pub fn try_delete_property(&self, o: i32, name: &[u8]) -> Result<(), WorldFault>
        ensures raises { Tests result (delete_property_raises self.now (number_of self.now.objects o) (folded name.now)) }
        ensures memory { TakesNoMemory result }
    {
        match self.number(o) {
            Some(_) if built_in(name).is_some() => {
                Err(WorldFault::Raise(ErrorCode::PropertyNotFound))
            }
            Some(x) => self.test_own_property(x, name),
            None => Err(WorldFault::Raise(ErrorCode::InvalidArgument)),
        }
    }

    /// Deletes a property that an object defines, with the cells for it on its descendants.
    pub fn delete_property(&mut self, alloc: Global, o: i32, name: &[u8]) -> Result<(), WorldFault>
        ensures world { let x = number_of self.old.objects o in
            Changes result self.old self.new (delete_property_raises self.old x (folded name.now)) (world_undefine self.old x (folded name.now)) }
        ensures memory { RaisesFirst result (delete_property_raises self.old (number_of self.old.objects o) (folded name.now)) }
    {
        match self.number(o) {
            Some(_) if built_in(name).is_some() => {
                Err(WorldFault::Raise(ErrorCode::PropertyNotFound))
            }
            Some(x) => self.undefine(alloc, x, name),
            None => Err(WorldFault::Raise(ErrorCode::InvalidArgument)),
        }
    }

    fn test_own_property(&self, x: usize, name: &[u8]) -> Result<(), WorldFault>
        requires { IsSome (object_of self.now.objects x) }
        ensures raises { Tests result (undefine_raises self.now x (folded name.now)) }
        ensures memory { TakesNoMemory result }
    {
        if !defines_in(&self.objects[x], name) {
            return Err(WorldFault::Raise(ErrorCode::PropertyNotFound));
        }
        Ok(())
    }

    // Deletes a property that a valid object defines.
    fn undefine(&mut self, alloc: Global, x: usize, name: &[u8]) -> Result<(), WorldFault>
        requires { IsSome (object_of self.old.objects x) }
        ensures world { Changes result self.old self.new (undefine_raises self.old x (folded name.now)) (after_undefine self.old x (folded name.now)) }
        ensures memory { RaisesFirst result (undefine_raises self.old x (folded name.now)) }
    {
        self.test_own_property(x, name)?;
        let walk = self.inheritance.walk_down(alloc, x)?;
        forget_in(&mut self.objects[x], name);
        lose_along(&mut self.objects, &walk, x, name);
        Ok(())
    }
}
