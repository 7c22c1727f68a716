//! Defines properties.

ghost use Rattle.std.specs.Prelude.{IsSome, Some, None};
ghost use Rattle.moo_value.specs.Compare.{folded};
ghost use Rattle.moo_value.specs.View.{tree};
ghost use Rattle.moo_world_tree.specs.Walk.{IsWalkDown};
ghost use Rattle.moo_world_object.specs.Cells.{own_cell};
ghost use Rattle.moo_world_table.specs.World.{object_of};
ghost use Rattle.moo_world_table.specs.Changes.{after_define};
ghost use Rattle.moo_world.specs.PropertyCalls.{name_raises, define_raises, add_property_raises, world_define};
ghost use Rattle.moo_world.specs.Calls.{Answers, Changes, Tests, number_of, RaisesFirst};
ghost use Rattle.moo_world_table.specs.Steps.{IsDefinable};

use crate::World;
use crate::fault::WorldFault;
use moo_value::{ErrorCode, MooStr, Value};
use moo_world_object::{PropCell, PropPerms, built_in};
use moo_world_table::defining::{define_along, some_full, some_named};
use moo_world_table::properties::cells_of;
use moo_world_tree::Step;
use std::alloc::Global;

impl World {
    /// Returns Ok if defining a property of this name on an object raises nothing, else the fault that it raises.
    pub fn try_add_property(&self, alloc: Global, o: i32, name: &[u8]) -> Result<(), WorldFault>
        ensures raises { Tests result (add_property_raises self.now (number_of self.now.objects o) (folded name.now)) }
        ensures memory { RaisesFirst result (name_raises (number_of self.now.objects o) (folded name.now)) }
    {
        match self.number(o) {
            Some(x) => {
                let _walk = self.test_property(alloc, x, name)?;
                Ok(())
            }
            None => Err(WorldFault::Raise(ErrorCode::InvalidArgument)),
        }
    }

    /// Defines a property on an object, with its cell; each descendant gets a clear one.
    pub fn add_property(
        &mut self,
        alloc: Global,
        o: i32,
        name: MooStr,
        value: Value,
        owner: i32,
        perms: PropPerms,
    ) -> Result<(), WorldFault>
        ensures world { let x = number_of self.old.objects o in
            Changes result self.old self.new (add_property_raises self.old x (folded name)) (world_define self.old x name (tree value) owner perms) }
        ensures memory { RaisesFirst result (name_raises (number_of self.old.objects o) (folded name)) }
    {
        match self.number(o) {
            Some(x) => self.define(alloc, x, name, value, owner, perms),
            None => Err(WorldFault::Raise(ErrorCode::InvalidArgument)),
        }
    }

    fn define(
        &mut self,
        alloc: Global,
        x: usize,
        name: MooStr,
        value: Value,
        owner: i32,
        perms: PropPerms,
    ) -> Result<(), WorldFault>
        requires { IsSome (object_of self.old.objects x) }
        ensures world { Changes result self.old self.new (add_property_raises self.old (Some x) (folded name)) (after_define self.old x name (own_cell x (folded name) (tree value) owner perms)) }
        ensures memory { RaisesFirst result (name_raises (Some x) (folded name)) }
    {
        let _weight = value.weight();
        let walk = self.test_property(alloc, x, name.as_bytes())?;
        let cell = PropCell::defined(x, name.try_clone()?, value, owner, perms);
        self.put_definition(x, name, cell, &walk)
    }

    // Returns the walk over what inherits from a valid object, if it may define a property of this name.
    fn test_property(&self, alloc: Global, x: usize, name: &[u8]) -> Result<Vec<Step>, WorldFault>
        requires { IsSome (object_of self.now.objects x) }
        ensures walk { Answers result (add_property_raises self.now (Some x) (folded name.now)) (λ walk. IsWalkDown self.now.inheritance x walk.items) }
        ensures memory { RaisesFirst result (name_raises (Some x) (folded name.now)) }
    {
        if built_in(name).is_some() {
            return Err(WorldFault::Raise(ErrorCode::InvalidArgument));
        }
        self.test_definition(alloc, x, name)
    }

    fn test_definition(&self, alloc: Global, x: usize, name: &[u8]) -> Result<Vec<Step>, WorldFault>
        requires { IsSome (object_of self.now.objects x) }
        ensures { Answers result (define_raises self.now x (folded name.now)) (λ walk. IsWalkDown self.now.inheritance x walk.items) }
    {
        let walk = self.inheritance.walk_down(alloc, x)?;
        if some_named(&self.objects, &walk, name) {
            return Err(WorldFault::Raise(ErrorCode::InvalidArgument));
        }
        if some_full(&self.objects, &walk) {
            return Err(WorldFault::Raise(ErrorCode::Quota));
        }
        Ok(walk)
    }

    // Adds a definition that is allowed, and a cell for it to each object that has it.
    fn put_definition(
        &mut self,
        x: usize,
        name: MooStr,
        cell: PropCell,
        walk: &[Step],
    ) -> Result<(), WorldFault>
        requires object { IsSome (object_of self.old.objects x) }
        requires allowed { IsDefinable self.old x name cell }
        requires walk { IsWalkDown self.old.inheritance x walk.now }
        ensures { Changes result self.old self.new None (after_define self.old x name cell) }
    {
        let following = cells_of(&self.objects, self.inheritance.above(x)).len();
        define_along(&mut self.objects, walk, name, cell, following)?;
        Ok(())
    }
}
