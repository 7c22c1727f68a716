//! Clears inherited properties.

ghost use Rattle.std.specs.Prelude.{◌≡◌, IsSome, Some};
ghost use Rattle.moo_value.specs.Compare.{folded};
ghost use Rattle.moo_world_table.specs.World.{object_of};
ghost use Rattle.moo_world_table.specs.Properties.{definition_named};
ghost use Rattle.moo_world.specs.EditCalls.{clear_definition_raises, clear_property_raises, after_clear, world_clear};
ghost use Rattle.moo_world.specs.Calls.{Answers, Changes, Tests, number_of, TakesNoMemory};

use crate::World;
use crate::fault::WorldFault;
use moo_value::ErrorCode;
use moo_world_object::built_in;
use moo_world_table::editing::clear_in;
use moo_world_table::properties::definer_in;

impl World {
    /// Returns Ok if clearing a property raises nothing, else the fault that it raises.
    pub fn try_clear_property(&self, o: i32, name: &[u8]) -> Result<(), WorldFault>
        ensures raises { Tests result (clear_property_raises self.now (number_of self.now.objects o) (folded name.now)) }
        ensures memory { TakesNoMemory result }
    {
        match self.number(o) {
            Some(_) if built_in(name).is_some() => {
                Err(WorldFault::Raise(ErrorCode::PropertyNotFound))
            }
            Some(x) => {
                let _definer = self.test_inherited(x, name)?;
                Ok(())
            }
            None => Err(WorldFault::Raise(ErrorCode::InvalidArgument)),
        }
    }

    /// Removes the value that an object has for a property that it inherits. Err is what `try_clear_property` raises.
    pub fn clear_property(&mut self, o: i32, name: &[u8]) -> Result<(), WorldFault>
        ensures world { let x = number_of self.old.objects o in
            Changes result self.old self.new (clear_property_raises self.old x (folded name.now)) (world_clear self.old x (folded name.now)) }
        ensures memory { TakesNoMemory result }
    {
        match self.number(o) {
            Some(_) if built_in(name).is_some() => {
                Err(WorldFault::Raise(ErrorCode::PropertyNotFound))
            }
            Some(x) => self.clear_value(x, name),
            None => Err(WorldFault::Raise(ErrorCode::InvalidArgument)),
        }
    }

    // Returns the object that defines a property which a valid object inherits.
    fn test_inherited(&self, x: usize, name: &[u8]) -> Result<usize, WorldFault>
        requires { IsSome (object_of self.now.objects x) }
        ensures raises { Answers result (clear_definition_raises x (definition_named self.now x (folded name.now)))
            (λ definer. definition_named self.now x (folded name.now) ≡ Some (definer, folded name.now)) }
        ensures memory { TakesNoMemory result }
    {
        let Some(definer) = definer_in(&self.objects[x], name) else {
            return Err(WorldFault::Raise(ErrorCode::PropertyNotFound));
        };
        if definer == x {
            return Err(WorldFault::Raise(ErrorCode::InvalidArgument));
        }
        Ok(definer)
    }

    // Removes the value that a valid object has for a property that it inherits.
    fn clear_value(&mut self, x: usize, name: &[u8]) -> Result<(), WorldFault>
        requires { IsSome (object_of self.old.objects x) }
        ensures world { let k = definition_named self.old x (folded name.now) in
            Changes result self.old self.new (clear_definition_raises x k) (after_clear self.old x k) }
        ensures memory { TakesNoMemory result }
    {
        let definer = self.test_inherited(x, name)?;
        clear_in(&mut self.objects[x], definer, name);
        Ok(())
    }
}
