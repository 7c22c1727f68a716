//! Creates objects.

ghost use Rattle.std.specs.Prelude.{◌≡◌, take, ◌-◌, ◌<◌, Option, Some, length, IfOk, OnOk, IsSome, pos};
ghost use Rattle.std.specs.Option.{ForSome};
ghost use Rattle.moo_world_table.specs.World.{object_of, cells_of, most};
ghost use Rattle.moo_world_table.specs.Changes.{after_create};
ghost use Rattle.moo_world.specs.Calls.{Changes, Tests, place_of, create_raises, world_create, TakesNoMemory, RaisesFirst};

use crate::World;
use crate::fault::WorldFault;
use moo_value::ErrorCode;
use moo_world_object::Object;
use moo_world_table::MOST;
use moo_world_table::properties::cells_of;
use std::alloc::Global;

impl World {
    /// Returns Ok if making an object under a parent raises nothing, else the fault that it raises.
    pub fn try_create(&self, parent: i32) -> Result<(), WorldFault>
        ensures raises { Tests result (create_raises self.now (place_of self.now.objects parent)) }
        ensures memory { TakesNoMemory result }
    {
        if self.place(parent).is_none() {
            return Err(WorldFault::Raise(ErrorCode::Permission));
        }
        if self.objects.len() >= MOST {
            return Err(WorldFault::Raise(ErrorCode::Quota));
        }
        Ok(())
    }

    /// Makes an object under a parent, and returns its number, the highest one. Pass this number as the owner to make
    /// the object its own owner.
    pub fn create(&mut self, alloc: Global, parent: i32, owner: i32) -> Result<i32, WorldFault>
        ensures world { let p = place_of self.old.objects parent in
            Changes result self.old self.new (create_raises self.old p) (world_create self.old p owner) }
        ensures number { IfOk result (λ o. o ≡ pos (length self.old.objects)) }
        ensures memory { RaisesFirst result (create_raises self.old (place_of self.old.objects parent)) }
    {
        let Some(p) = self.place(parent) else {
            return Err(WorldFault::Raise(ErrorCode::Permission));
        };
        let number = self.objects.len();
        self.add_object(alloc, p, owner)?;
        Ok(number as i32)
    }

    // Makes an object under a valid parent or none.
    fn add_object(&mut self, alloc: Global, p: Option<usize>, owner: i32) -> Result<(), WorldFault>
        requires { ForSome p (λ up. IsSome (object_of self.old.objects up)) }
        ensures world { Changes result self.old self.new (create_raises self.old (Some p)) (after_create self.old p owner) }
        ensures few { OnOk result (length self.old.objects < most) }
        ensures memory { RaisesFirst result (create_raises self.old (Some p)) }
    {
        if self.objects.len() >= MOST {
            return Err(WorldFault::Raise(ErrorCode::Quota));
        }
        let object = Object::child(alloc, owner, cells_of(&self.objects, p))?;
        self.objects.push(Some(object))?;
        if self.containment.add(alloc).is_err() {
            pop_object(&mut self.objects);
            return Err(WorldFault::Memory);
        }
        if self.inheritance.add_below(alloc, p).is_err() {
            self.containment.remove_last();
            pop_object(&mut self.objects);
            return Err(WorldFault::Memory);
        }
        Ok(())
    }
}

// Removes the last object.
fn pop_object(objects: &mut Vec<Option<Object>>)
    ensures { objects.new.items ≡ take (length objects.old.items - 1) objects.old.items }
{
    let _object = objects.pop();
}
