//! The locations of objects.

ghost use Rattle.std.specs.Prelude.{◌≡◌, ◌<◌, IsSome, Option};
ghost use Rattle.std.specs.Option.{ForSome};
ghost use Rattle.moo_world_tree.specs.Forest.{above_of};
ghost use Rattle.moo_world_table.specs.World.{object_of};
ghost use Rattle.moo_world_table.specs.Changes.{after_move, would_loop};
ghost use Rattle.moo_world.specs.Calls.{Changes, Tests, number_of, place_of, place_raises, move_raises, world_move, TakesNoMemory, RaisesFirst, IsThere};

use crate::World;
use crate::fault::WorldFault;
use moo_value::ErrorCode;
use moo_world_table::places::would_loop;

impl World {
    /// Returns Ok if moving an object raises nothing, else the fault that it raises.
    pub fn try_move(&self, o: i32, to: i32) -> Result<(), WorldFault>
        ensures raises { Tests result (move_raises self.now (number_of self.now.objects o) (place_of self.now.objects to)) }
        ensures memory { TakesNoMemory result }
    {
        match (self.number(o), self.place(to)) {
            (Some(x), Some(to)) => self.test_place(x, to),
            _ => Err(WorldFault::Raise(ErrorCode::InvalidArgument)),
        }
    }

    /// Moves an object into another, or to no place, without calling a verb. It becomes the newest there. If it is
    /// there already, nothing changes and nothing is allocated.
    pub fn move_bare(&mut self, o: i32, to: i32) -> Result<(), WorldFault>
        ensures world { let x = number_of self.old.objects o in let place = place_of self.old.objects to in
            Changes result self.old self.new (move_raises self.old x place) (world_move self.old x place) }
        ensures memory { IsThere self.old.objects self.old.containment o to → TakesNoMemory result }
        ensures first { RaisesFirst result (move_raises self.old (number_of self.old.objects o) (place_of self.old.objects to)) }
    {
        match (self.number(o), self.place(to)) {
            (Some(x), Some(to)) => self.set_place(x, to),
            _ => Err(WorldFault::Raise(ErrorCode::InvalidArgument)),
        }
    }

    fn test_place(&self, x: usize, to: Option<usize>) -> Result<(), WorldFault>
        requires object { IsSome (object_of self.now.objects x) }
        requires place { ForSome to (λ up. IsSome (object_of self.now.objects up)) }
        ensures raises { Tests result (place_raises self.now x to) }
        ensures memory { TakesNoMemory result }
    {
        if would_loop(&self.containment, x, to) {
            return Err(WorldFault::Raise(ErrorCode::RecursiveMove));
        }
        Ok(())
    }

    // Moves a valid object into another, or to no place.
    fn set_place(&mut self, x: usize, to: Option<usize>) -> Result<(), WorldFault>
        requires object { IsSome (object_of self.old.objects x) }
        requires place { ForSome to (λ up. IsSome (object_of self.old.objects up)) }
        ensures world { Changes result self.old self.new (place_raises self.old x to) (after_move self.old x to) }
        ensures memory { above_of self.old.containment x ≡ to → TakesNoMemory result }
        ensures first { RaisesFirst result (place_raises self.old x to) }
    {
        self.test_place(x, to)?;
        self.containment.move_to(x, to)?;
        Ok(())
    }
}
