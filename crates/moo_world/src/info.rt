//! The owners and permissions of properties, and whether they are clear.

ghost use Rattle.std.specs.Prelude.{◌≡◌, IsSome, Some, is_some, not};
ghost use Rattle.std.specs.Option.{option_map};
ghost use Rattle.moo_value.specs.Compare.{folded};
ghost use Rattle.moo_world_object.specs.Cells.{Cell, cell_named};
ghost use Rattle.moo_world_table.specs.World.{object_of, thing_of};
ghost use Rattle.moo_world.specs.Numbered.{cell_numbered};
ghost use Rattle.moo_world.specs.PropertyCalls.{plain_raises, info_raises};
ghost use Rattle.moo_world.specs.Calls.{Answers, number_of, TakesNoMemory};

use crate::World;
use crate::fault::WorldFault;
use moo_value::ErrorCode;
use moo_world_object::{PropCell, PropPerms, built_in};
use moo_world_table::properties::cell_in;

impl World {
    /// Returns the owner and the permissions of a property that is not built in, as the object has it.
    pub fn property_info(&self, o: i32, name: &[u8]) -> Result<(i32, PropPerms), WorldFault>
        ensures info { Answers result (info_raises self.now (number_of self.now.objects o) (folded name.now))
            (λ info. option_map (λ (c : Cell). (c.owner, c.perms)) (cell_numbered self.now o name.now) ≡ Some info) }
        ensures memory { TakesNoMemory result }
    {
        let cell = self.property_cell(o, name)?;
        Ok((cell.owner(), cell.perms()))
    }

    /// Returns whether a property that is not built in has no value of its own on the object.
    pub fn is_clear(&self, o: i32, name: &[u8]) -> Result<bool, WorldFault>
        ensures clear { Answers result (info_raises self.now (number_of self.now.objects o) (folded name.now))
            (λ clear. option_map (λ (c : Cell). not (is_some c.value)) (cell_numbered self.now o name.now) ≡ Some clear) }
        ensures memory { TakesNoMemory result }
    {
        let cell = self.property_cell(o, name)?;
        Ok(cell.value().is_none())
    }

    fn property_cell(&self, o: i32, name: &[u8]) -> Result<&PropCell, WorldFault>
        ensures cell { Answers result (info_raises self.now (number_of self.now.objects o) (folded name.now)) (λ cell. cell_numbered self.now o name.now ≡ Some cell.now) }
        ensures memory { TakesNoMemory result }
    {
        match self.number(o) {
            Some(_) if built_in(name).is_some() => {
                Err(WorldFault::Raise(ErrorCode::PropertyNotFound))
            }
            Some(x) => self.cell_of(x, name),
            None => Err(WorldFault::Raise(ErrorCode::InvalidArgument)),
        }
    }

    // Returns a valid object's cell of a property that is not built in.
    fn cell_of(&self, x: usize, name: &[u8]) -> Result<&PropCell, WorldFault>
        requires { IsSome (object_of self.now.objects x) }
        ensures cell { Answers result (plain_raises self.now x (folded name.now)) (λ cell. cell_named (thing_of self.now.objects x).cells (folded name.now) ≡ Some cell.now) }
        ensures memory { TakesNoMemory result }
    {
        match cell_in(&self.objects[x], name) {
            Some(cell) => Ok(cell),
            None => Err(WorldFault::Raise(ErrorCode::PropertyNotFound)),
        }
    }
}
