//! Properties read and set with the rights of a programmer. The cell that decides the right is the cell that is read
//! or set, so it is looked up once.

ghost use Rattle.std.specs.Prelude.{◌≡◌, IsSome, IfSome, IsTrue, IsFalse, Some, true};
ghost use Rattle.std.specs.Option.{option_map, option_copied};
ghost use Rattle.std.specs.List.{position};
ghost use Rattle.moo_value.specs.Compare.{folded};
ghost use Rattle.moo_value.specs.View.{tree};
ghost use Rattle.moo_world_object.specs.Cells.{cell_named, is_named};
ghost use Rattle.moo_world_table.specs.World.{object_of, thing_of};
ghost use Rattle.moo_world_table.specs.Properties.{read};
ghost use Rattle.moo_world.specs.ByRight.{readable_cell, readable_at, readable_value, IsReadable, IsWritable, IsDropped, set_by_raises};
ghost use Rattle.moo_world.specs.EditCalls.{world_set};
ghost use Rattle.moo_world.specs.Calls.{Changes, number_of, TakesNoMemory};

use crate::World;
use crate::fault::WorldFault;
use crate::rights::Rights;
use moo_syntax_ast::Text;
use moo_value::{ErrorCode, Value};
use moo_world_object::{PropCell, place_named};
use moo_world_table::looking::nearest_value;
use moo_world_table::properties::{cell_in, cells_in, set_at_in};
use moo_world_table::written::place_written;

impl World {
    /// Returns the value of a property that is not built in, if the programmer may read it.
    #[inline(always)]
    pub fn readable_value(&self, programmer: i32, o: i32, name: &[u8]) -> Option<&Value>
        ensures value { option_map tree (option_copied result) ≡ readable_value self.now programmer (number_of self.now.objects o) (folded name.now) }
        ensures right { IfSome result (λ v. IsReadable self.now programmer o name.now (tree v.now)) }
    {
        match self.number(o) {
            Some(x) => self.readable_from(programmer, x, name),
            None => None,
        }
    }

    #[inline(always)]
    fn readable_from(&self, programmer: i32, x: usize, name: &[u8]) -> Option<&Value>
        requires { IsSome (object_of self.now.objects x) }
        ensures { option_map tree (option_copied result) ≡ readable_at self.now programmer x (folded name.now) }
    {
        let found = self.cell_found(x, name);
        match self.readable_cell(programmer, x, name, found) {
            Some(cell) => self.value_of_cell(x, cell, name),
            None => None,
        }
    }

    // Returns a valid object's cell of a name.
    #[inline(always)]
    fn cell_found(&self, x: usize, name: &[u8]) -> Option<&PropCell>
        requires { IsSome (object_of self.now.objects x) }
        ensures { option_copied result ≡ cell_named (thing_of self.now.objects x).cells (folded name.now) }
    {
        cell_in(&self.objects[x], name)
    }

    // Returns a valid object's cell of a name, if no built-in property hides it and the programmer may read it.
    #[inline(always)]
    pub(crate) fn readable_cell<'a>(
        &'a self,
        programmer: i32,
        x: usize,
        name: &[u8],
        found: Option<&'a PropCell>,
    ) -> Option<&'a PropCell>
        requires { option_copied found ≡ cell_named (thing_of self.now.objects x).cells (folded name.now) }
        ensures { option_copied result ≡ readable_cell self.now programmer x (folded name.now) }
    {
        let Some(cell) = found else {
            return None;
        };
        if cell.is_hidden() {
            return None;
        }
        if Rights::may_read_cell(self, programmer, found) {
            found
        } else {
            None
        }
    }

    /// Returns the value for a valid object's cell of a name: its own, or if it is clear the nearest one above.
    #[inline(always)]
    pub(crate) fn value_of_cell<'a>(
        &'a self,
        x: usize,
        cell: &'a PropCell,
        name: &[u8],
    ) -> Option<&'a Value>
        requires valid { IsSome (object_of self.now.objects x) }
        requires named { cell_named (thing_of self.now.objects x).cells (folded name.now) ≡ Some cell.now }
        ensures { option_map tree (option_copied result) ≡ read self.now x (folded name.now) }
    {
        self.is_well_formed();
        match cell.value() {
            Some(value) => Some(value),
            None => nearest_value(&self.objects, &self.inheritance, x, cell.definer(), name),
        }
    }

    /// Sets a property by its name with the rights of a programmer. An error of setting it comes before a missing
    /// right.
    #[inline(always)]
    pub fn set_by(
        &mut self,
        programmer: i32,
        o: i32,
        name: &[u8],
        value: Value,
    ) -> Result<(), WorldFault>
        ensures world { Changes result self.old self.new (set_by_raises self.old programmer o name.now (tree value)) (world_set self.old (number_of self.old.objects o) (folded name.now) (tree value)) }
        ensures memory { TakesNoMemory result }
    {
        match self.number(o) {
            Some(x) => self.set_valid_by(programmer, o, x, name, value),
            None => Err(WorldFault::Raise(ErrorCode::InvalidIndirection)),
        }
    }

    /// Sets a property whose name is a literal with the rights of a programmer.
    #[inline(always)]
    pub fn set_written_by(
        &mut self,
        programmer: i32,
        o: i32,
        name: &Text,
        value: Value,
    ) -> Result<(), WorldFault>
        ensures world { Changes result self.old self.new (set_by_raises self.old programmer o name.now (tree value)) (world_set self.old (number_of self.old.objects o) (folded name.now) (tree value)) }
        ensures memory { TakesNoMemory result }
    {
        match self.number(o) {
            Some(x) => self.set_valid_written_by(programmer, o, x, name, value),
            None => Err(WorldFault::Raise(ErrorCode::InvalidIndirection)),
        }
    }

    /// Drops the value of a property, so that nothing in the world shares it. The property is 0 until the programmer sets
    /// it again, which can't be refused. Returns false if the programmer may not set it, if it is built in, or if the
    /// object has no cell for it; then nothing has changed.
    pub fn try_drop(&mut self, programmer: i32, o: i32, name: &[u8]) -> bool
        ensures dropped { IsTrue result → IsDropped self.old self.new programmer o name.now }
        ensures kept { IsFalse result → self.new ≡ self.old }
    {
        let Some(x) = self.number(o) else {
            return false;
        };
        let Some(place) = self.writable_place(programmer, x, name) else {
            return false;
        };
        self.drop_at(programmer, o, x, name, place);
        true
    }

    /// Drops the value of a property whose name is a literal, as `try_drop` does.
    pub fn try_drop_written(&mut self, programmer: i32, o: i32, name: &Text) -> bool
        ensures dropped { IsTrue result → IsDropped self.old self.new programmer o name.now }
        ensures kept { IsFalse result → self.new ≡ self.old }
    {
        let Some(x) = self.number(o) else {
            return false;
        };
        let Some(place) = self.writable_written(programmer, x, name) else {
            return false;
        };
        self.drop_at(programmer, o, x, name.string().as_bytes(), place);
        true
    }

    // Drops the value of the cell at a place where the programmer may set it.
    fn drop_at(&mut self, programmer: i32, o: i32, x: usize, name: &[u8], place: usize)
        requires valid { IsSome (object_of self.old.objects x) }
        requires numbered { number_of self.old.objects o ≡ Some x }
        requires writable { IsWritable self.old programmer x (folded name.now) place }
        ensures { IsDropped self.old self.new programmer o name.now }
    {
        let zero = Value::Int(0);
        let _weight = zero.weight();
        set_at_in(&mut self.objects[x], place, zero);
    }

    // Sets a property of a valid object with the rights of a programmer.
    #[inline(always)]
    fn set_valid_by(
        &mut self,
        programmer: i32,
        o: i32,
        x: usize,
        name: &[u8],
        value: Value,
    ) -> Result<(), WorldFault>
        requires valid { IsSome (object_of self.old.objects x) }
        requires numbered { number_of self.old.objects o ≡ Some x }
        ensures world { Changes result self.old self.new (set_by_raises self.old programmer o name.now (tree value)) (world_set self.old (number_of self.old.objects o) (folded name.now) (tree value)) }
        ensures memory { TakesNoMemory result }
    {
        let place = self.writable_place(programmer, x, name);
        self.set_found_by(programmer, o, x, name, place, value)
    }

    #[inline(always)]
    fn set_valid_written_by(
        &mut self,
        programmer: i32,
        o: i32,
        x: usize,
        name: &Text,
        value: Value,
    ) -> Result<(), WorldFault>
        requires valid { IsSome (object_of self.old.objects x) }
        requires numbered { number_of self.old.objects o ≡ Some x }
        ensures world { Changes result self.old self.new (set_by_raises self.old programmer o name.now (tree value)) (world_set self.old (number_of self.old.objects o) (folded name.now) (tree value)) }
        ensures memory { TakesNoMemory result }
    {
        let place = self.writable_written(programmer, x, name);
        self.set_found_by(programmer, o, x, name.string().as_bytes(), place, value)
    }

    // Sets a property with the rights of a programmer: in the cell at a place where it may be set, if one is given,
    // else after the tests in order.
    #[inline(always)]
    fn set_found_by(
        &mut self,
        programmer: i32,
        o: i32,
        x: usize,
        name: &[u8],
        place: Option<usize>,
        value: Value,
    ) -> Result<(), WorldFault>
        requires valid { IsSome (object_of self.old.objects x) }
        requires numbered { number_of self.old.objects o ≡ Some x }
        requires writable { IfSome place (λ at. IsWritable self.old programmer x (folded name.now) at) }
        ensures world { Changes result self.old self.new (set_by_raises self.old programmer o name.now (tree value)) (world_set self.old (number_of self.old.objects o) (folded name.now) (tree value)) }
        ensures memory { TakesNoMemory result }
    {
        match place {
            Some(place) => {
                let _weight = value.weight();
                set_at_in(&mut self.objects[x], place, value);
                Ok(())
            }
            None => self.set_in_order(programmer, o, name, value),
        }
    }

    // Returns the place of a valid object's cell of a name, if no built-in property hides it and the programmer may
    // set it.
    #[inline(always)]
    fn writable_place(&self, programmer: i32, x: usize, name: &[u8]) -> Option<usize>
        requires { IsSome (object_of self.now.objects x) }
        ensures { IfSome result (λ place. IsWritable self.now programmer x (folded name.now) place) }
    {
        let cells = cells_in(&self.objects[x]);
        let place = place_named(cells, name)?;
        self.writable_at(programmer, x, name, place)
    }

    #[inline(always)]
    fn writable_written(&self, programmer: i32, x: usize, name: &Text) -> Option<usize>
        requires { IsSome (object_of self.now.objects x) }
        ensures { IfSome result (λ place. IsWritable self.now programmer x (folded name.now) place) }
    {
        self.is_well_formed();
        let cells = cells_in(&self.objects[x]);
        let place = place_written(cells, name)?;
        self.writable_at(programmer, x, name.string().as_bytes(), place)
    }

    // Returns the place of the cell of a name, if no built-in property hides it and the programmer may set it.
    #[inline(always)]
    fn writable_at(&self, programmer: i32, x: usize, name: &[u8], place: usize) -> Option<usize>
        requires valid { IsSome (object_of self.now.objects x) }
        requires at { position (is_named (folded name.now)) (thing_of self.now.objects x).cells ≡ Some place }
        ensures { IfSome result (λ place. IsWritable self.now programmer x (folded name.now) place) }
    {
        let cells = cells_in(&self.objects[x]);
        let found = cells.get(place);
        let Some(cell) = found else {
            return None;
        };
        if cell.is_hidden() {
            return None;
        }
        if Rights::may_write_cell(self, programmer, found) {
            Some(place)
        } else {
            None
        }
    }

    // Sets any property with the rights of a programmer, the built-in ones too, testing one condition after the
    // other.
    #[inline(never)]
    fn set_in_order(
        &mut self,
        programmer: i32,
        o: i32,
        name: &[u8],
        value: Value,
    ) -> Result<(), WorldFault>
        ensures world { Changes result self.old self.new (set_by_raises self.old programmer o name.now (tree value)) (world_set self.old (number_of self.old.objects o) (folded name.now) (tree value)) }
        ensures memory { TakesNoMemory result }
    {
        if let Err(fault) = self.try_set(o, name, &value) {
            return Err(fault);
        }
        if !Rights::may_write_property(self, programmer, o, name) {
            return Err(WorldFault::Raise(ErrorCode::Permission));
        }
        self.set(o, name, value)
    }
}
