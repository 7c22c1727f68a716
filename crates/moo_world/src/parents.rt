//! The parents of objects.

ghost use Rattle.std.specs.Prelude.{◌≡◌, IsSome, Some};
ghost use Rattle.std.specs.Option.{ForSome};
ghost use Rattle.moo_world_tree.specs.Forest.{above_of};
ghost use Rattle.moo_world_tree.specs.Walk.{IsWalkDown};
ghost use Rattle.moo_world_table.specs.World.{object_of};
ghost use Rattle.moo_world_table.specs.Changes.{after_chparent};
ghost use Rattle.moo_world.specs.Calls.{Changes, Tests, Answers, number_of, place_of, parent_raises, chparent_raises, world_chparent, TakesNoMemory, RaisesFirst, numbers_raise, IsThere};

use crate::World;
use crate::fault::WorldFault;
use moo_value::ErrorCode;
use moo_world_table::clashing::names_clash;
use moo_world_table::fitting::{put_rows, rows_below, some_crowded};
use moo_world_table::places::would_loop;
use moo_world_table::properties::cells_of;
use moo_world_tree::Step;
use std::alloc::Global;

impl World {
    /// Returns Ok if changing the parent of an object raises nothing, else the fault that it raises.
    pub fn try_chparent(&self, alloc: Global, o: i32, p: i32) -> Result<(), WorldFault>
        ensures raises { Tests result (chparent_raises self.now (number_of self.now.objects o) (place_of self.now.objects p)) }
        ensures memory { IsThere self.now.objects self.now.inheritance o p → TakesNoMemory result }
        ensures first { RaisesFirst result (numbers_raise self.now (number_of self.now.objects o) (place_of self.now.objects p)) }
    {
        match (self.number(o), self.place(p)) {
            (Some(x), Some(p)) => self.test_parent(alloc, x, p),
            _ => Err(WorldFault::Raise(ErrorCode::InvalidArgument)),
        }
    }

    /// Changes the parent of an object. Its cells and those of its descendants stay if their definer is still above;
    /// new ones are clear. If the parent stays the same, nothing is allocated.
    pub fn chparent(&mut self, alloc: Global, o: i32, p: i32) -> Result<(), WorldFault>
        ensures world { let x = number_of self.old.objects o in let to = place_of self.old.objects p in
            Changes result self.old self.new (chparent_raises self.old x to) (world_chparent self.old x to) }
        ensures memory { IsThere self.old.objects self.old.inheritance o p → TakesNoMemory result }
        ensures first { RaisesFirst result (numbers_raise self.old (number_of self.old.objects o) (place_of self.old.objects p)) }
    {
        match (self.number(o), self.place(p)) {
            (Some(x), Some(p)) => self.set_parent(alloc, x, p),
            _ => Err(WorldFault::Raise(ErrorCode::InvalidArgument)),
        }
    }

    // Returns Ok if changing the parent of a valid object raises nothing, else the fault that it raises.
    fn test_parent(&self, alloc: Global, x: usize, p: Option<usize>) -> Result<(), WorldFault>
        requires object { IsSome (object_of self.now.objects x) }
        requires parent { ForSome p (λ up. IsSome (object_of self.now.objects up)) }
        ensures raises { Tests result (parent_raises self.now x p) }
        ensures memory { above_of self.now.inheritance x ≡ p → TakesNoMemory result }
        ensures first { RaisesFirst result (numbers_raise self.now (Some x) (Some p)) }
    {
        if self.inheritance.above(x) == p {
            return Ok(());
        }
        let _walk = self.walk_to_join(alloc, x, p)?;
        Ok(())
    }

    // Returns the walk over an object and what inherits from it, if its parent may become `p`. The tests need names
    // and counts of cells only, so no row of cells is made.
    fn walk_to_join(
        &self,
        alloc: Global,
        x: usize,
        p: Option<usize>,
    ) -> Result<Vec<Step>, WorldFault>
        requires object { IsSome (object_of self.now.objects x) }
        requires parent { ForSome p (λ up. IsSome (object_of self.now.objects up)) }
        ensures walk { Answers result (parent_raises self.now x p) (λ walk. IsWalkDown self.now.inheritance x walk.items) }
        ensures first { RaisesFirst result (numbers_raise self.now (Some x) (Some p)) }
    {
        if would_loop(&self.inheritance, x, p) {
            return Err(WorldFault::Raise(ErrorCode::RecursiveMove));
        }
        let walk = self.inheritance.walk_down(alloc, x)?;
        let gained = cells_of(&self.objects, p);
        let clash = names_clash(&self.objects, alloc, &walk, gained)?;
        if clash {
            return Err(WorldFault::Raise(ErrorCode::InvalidArgument));
        }
        let lost = cells_of(&self.objects, self.inheritance.above(x));
        if some_crowded(&self.objects, &walk, gained, lost) {
            return Err(WorldFault::Raise(ErrorCode::Quota));
        }
        Ok(walk)
    }

    // Changes the parent of a valid object.
    fn set_parent(&mut self, alloc: Global, x: usize, p: Option<usize>) -> Result<(), WorldFault>
        requires object { IsSome (object_of self.old.objects x) }
        requires parent { ForSome p (λ up. IsSome (object_of self.old.objects up)) }
        ensures world { Changes result self.old self.new (parent_raises self.old x p) (after_chparent self.old x p) }
        ensures memory { above_of self.old.inheritance x ≡ p → TakesNoMemory result }
        ensures first { RaisesFirst result (numbers_raise self.old (Some x) (Some p)) }
    {
        if self.inheritance.above(x) == p {
            return Ok(());
        }
        let walk = self.walk_to_join(alloc, x, p)?;
        let rows = rows_below(&self.objects, alloc, &walk, p)?;
        self.inheritance.move_to(x, p)?;
        put_rows(&mut self.objects, &walk, rows);
        Ok(())
    }
}
