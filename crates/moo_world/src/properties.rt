//! Values of properties that are not built in.

ghost use Rattle.std.specs.Prelude.{◌≡◌, IsSome, Some, List};
ghost use Rattle.std.specs.Option.{option_map, option_copied, option_and_then};
ghost use Rattle.moo_value.specs.Compare.{folded};
ghost use Rattle.moo_value.specs.View.{tree};
ghost use Rattle.moo_world_object.specs.Cells.{Cell};
ghost use Rattle.moo_world_table.specs.World.{object_of, thing_of};
ghost use Rattle.moo_world_table.specs.Changes.{with_object, with_value_of};
ghost use Rattle.moo_world_table.specs.Properties.{read};
ghost use Rattle.moo_world.specs.PropertyCalls.{plain_raises};
ghost use Rattle.moo_world.specs.Calls.{Changes, Tests, number_of, TakesNoMemory};
ghost use Rattle.std.specs.Borrow.{Bor};

use crate::World;
use crate::fault::WorldFault;
use moo_value::{ErrorCode, Value};
use moo_world_object::PropCell;
use moo_world_table::properties::{cell_in, cells_in, definer_in, set_in};

impl World {
    /// Returns the value of a property that is not built in: that of the nearest of the object and its ancestors
    /// whose cell is not clear.
    pub fn property_value(&self, o: i32, name: &[u8]) -> Option<&Value>
        ensures { option_map tree (option_copied result) ≡ option_and_then (λ x. read self.now x (folded name.now)) (number_of self.now.objects o) }
    {
        let x = self.number(o)?;
        self.value_from(x, name)
    }

    pub(crate) fn value_from(&self, x: usize, name: &[u8]) -> Option<&Value>
        requires { IsSome (object_of self.now.objects x) }
        ensures { option_map tree (option_copied result) ≡ read self.now x (folded name.now) }
    {
        match cell_in(&self.objects[x], name) {
            Some(cell) => self.value_of_cell(x, cell, name),
            None => None,
        }
    }

    /// Returns the cells of an object, in the order of definitions: its own, then its parent's, and so on.
    pub fn row(&self, o: i32) -> Option<&[PropCell]>
        ensures { option_map (λ (r : Bor (List Cell)). r.now) result ≡ option_map (λ x. (thing_of self.now.objects x).cells) (number_of self.now.objects o) }
    {
        let x = self.number(o)?;
        Some(cells_in(&self.objects[x]))
    }

    pub(crate) fn test_defined(&self, x: usize, name: &[u8]) -> Result<(), WorldFault>
        requires { IsSome (object_of self.now.objects x) }
        ensures raises { Tests result (plain_raises self.now x (folded name.now)) }
        ensures memory { TakesNoMemory result }
    {
        if definer_in(&self.objects[x], name).is_none() {
            return Err(WorldFault::Raise(ErrorCode::PropertyNotFound));
        }
        Ok(())
    }

    pub(crate) fn set_value(
        &mut self,
        x: usize,
        name: &[u8],
        value: Value,
    ) -> Result<(), WorldFault>
        requires { IsSome (object_of self.old.objects x) }
        ensures world { Changes result self.old self.new (plain_raises self.old x (folded name.now)) (with_object self.old x (with_value_of (folded name.now) (tree value))) }
        ensures memory { TakesNoMemory result }
    {
        let _weight = value.weight();
        self.test_defined(x, name)?;
        set_in(&mut self.objects[x], name, value);
        Ok(())
    }
}
