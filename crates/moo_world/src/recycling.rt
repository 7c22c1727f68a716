//! Recycles objects.

ghost use Rattle.std.specs.Prelude.{IsSome, None};
ghost use Rattle.moo_world_table.specs.World.{object_of};
ghost use Rattle.moo_world_table.specs.Recycling.{after_recycle};
ghost use Rattle.moo_world.specs.Calls.{Changes, Tests, number_of, TakesNoMemory, RaisesFirst};
ghost use Rattle.moo_world.specs.RecycleCalls.{recycle_raises, world_recycle};

use crate::World;
use crate::fault::WorldFault;
use moo_value::ErrorCode;
use moo_world_table::players::take_player_out;
use moo_world_table::recycling::{empty, lose_all_along};
use moo_world_table::verbs::programs_on;
use std::alloc::Global;

impl World {
    /// Returns Ok if recycling an object raises nothing, else the fault that it raises.
    pub fn try_recycle(&self, o: i32) -> Result<(), WorldFault>
        ensures raises { Tests result (recycle_raises (number_of self.now.objects o)) }
        ensures memory { TakesNoMemory result }
    {
        match self.number(o) {
            Some(_) => Ok(()),
            None => Err(WorldFault::Raise(ErrorCode::InvalidArgument)),
        }
    }

    /// Removes an object, without calling a verb. Its children become its parent's last children, in their order.
    /// They and their descendants lose the properties that it defined. Its contents move to no place. Its number is
    /// no player's, and isn't given out again.
    pub fn recycle_bare(&mut self, alloc: Global, o: i32) -> Result<(), WorldFault>
        ensures world { let x = number_of self.old.objects o in
            Changes result self.old self.new (recycle_raises x) (world_recycle self.old x) }
        ensures memory { RaisesFirst result (recycle_raises (number_of self.old.objects o)) }
    {
        match self.number(o) {
            Some(x) => self.remove_object(alloc, x),
            None => Err(WorldFault::Raise(ErrorCode::InvalidArgument)),
        }
    }

    // Removes a valid object. The steps that allocate come first.
    fn remove_object(&mut self, alloc: Global, x: usize) -> Result<(), WorldFault>
        requires { IsSome (object_of self.old.objects x) }
        ensures { Changes result self.old self.new None (after_recycle self.old x) }
    {
        let walk = self.inheritance.walk_down(alloc, x)?;
        let contents = self.containment.below(x).to_vec(alloc)?;
        let parent = self.inheritance.above(x);
        let programs = programs_on(&self.objects[x]);
        self.inheritance.dissolve(alloc, x, parent)?;
        self.containment.scatter(x, &contents);
        empty(&mut self.objects[x]);
        lose_all_along(&mut self.objects, &walk, x);
        take_player_out(&mut self.players, x as i32);
        self.programs -= programs;
        Ok(())
    }
}
