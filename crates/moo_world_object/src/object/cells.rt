//! The cells of an object.
ghost use Rattle.std.specs.Prelude.{◌≡◌, ◌<◌, ◌==◌, IfOk, OnOk, OnErr, ◌++◌, length, filter, map, not, slice_get};
ghost use Rattle.std.specs.Option.{ForSome, option_and_then};
ghost use Rattle.moo_value.specs.Compare.{folded};
ghost use Rattle.moo_value.specs.View.{tree};
ghost use Rattle.moo_world_object.specs.Cells.{AreDistinct, is_key, cell_at, cleared, key_of, with_value, at_key, emptied, valued, with_info};
ghost use Rattle.moo_world_object.specs.Verbs.{changed_at};
ghost use Rattle.moo_world_object.specs.Rows.{put_before, taken_before, with_new_name};
ghost use Rattle.moo_world_object.specs.Objects.{fitted_cell, fitted_row};

use crate::cell::{PropCell, PropPerms};
use crate::object::Object;
use crate::row::{Row, absent_definer, place_for};
use moo_value::{MooStr, Value};
use std::alloc::{AllocError, Global};

impl Object {
    /// Returns the cells, in the order of definitions.
    pub fn cells(&self) -> &[PropCell]
        ensures { result.now ≡ self.now.cells }
    {
        self.cells.as_slice()
    }

    /// Replaces the object's cells.
    pub fn set_cells(&mut self, cells: Row)
        ensures { self.new ≡ record self.old { cells = cells } }
    {
        self.cells = cells;
    }

    /// Returns the cells that the object with this number has under a parent with these cells: those of its own
    /// definitions, and for each of the parent's cells the object's own or a clear one. Cells that keep their order are
    /// found at the first place searched, and a new definer above is searched for once.
    pub fn fitted_row(
        &self,
        alloc: Global,
        number: usize,
        above: &[PropCell],
    ) -> Result<Row, AllocError>
        requires { AreDistinct self.now.cells }
        ensures { IfOk result (λ row. row ≡ fitted_row number self.now above.now) }
    {
        let room = self.defined.len().saturating_add(above.len());
        let mut row = self.own_cells(alloc, number, room)?;
        self.push_fitted(&mut row, above)?;
        Ok(Row::from_cells(row))
    }

    // Returns the cells of the object's own definitions, if `number` is its number, in a row of capacity `room`.
    fn own_cells(
        &self,
        alloc: Global,
        number: usize,
        room: usize,
    ) -> Result<Vec<PropCell>, AllocError>
        ensures { IfOk result (λ row. row.items ≡ filter (λ c. c.definer == number) self.now.cells) }
    {
        let mut row = Vec::with_capacity(alloc, room)?;
        for cell in self.cells.as_slice() {
            if cell.definer() == number {
                row.push(cell.try_clone()?)?;
            }
        }
        Ok(row)
    }

    // Appends a cell for each of the parent's cells.
    fn push_fitted(&self, row: &mut Vec<PropCell>, above: &[PropCell]) -> Result<(), AllocError>
        requires { AreDistinct self.now.cells }
        ensures { OnOk result (row.new.items ≡ row.old.items ++ map (fitted_cell self.now) above.now) }
    {
        let cells = self.cells.as_slice();
        let mut next = 0;
        let mut absent = None;
        for other in above {
            let place = place_for(cells, other, next, absent);
            row.push(self.fitted_cell(other, place)?)?;
            match place {
                Some(place) => next = place + 1,
                None => absent = absent_definer(cells, other, absent),
            }
        }
        Ok(())
    }

    // Returns the cell that has the same definition as a parent's cell: the object's own at this place, or a clear one.
    fn fitted_cell(&self, above: &PropCell, place: Option<usize>) -> Result<PropCell, AllocError>
        requires within { ForSome place (λ i. i < length self.now.cells) }
        requires found { option_and_then (slice_get self.now.cells) place ≡ cell_at self.now.cells (key_of above.now) }
        ensures { IfOk result (λ c. c ≡ fitted_cell self.now above.now) }
    {
        match place {
            Some(place) => self.cells.as_slice()[place].try_clone(),
            None => above.cleared(self.owner),
        }
    }

    /// Sets the value of the first cell with this name.
    pub fn set_value(&mut self, name: &[u8], value: Value)
        ensures { self.new ≡ record self.old { cells = with_value (folded name.now) (tree value) self.old.cells } }
    {
        self.cells.set_value(name, value);
    }

    /// Sets the value of the cell at a place.
    #[inline(always)]
    pub fn set_value_at(&mut self, place: usize, value: Value)
        requires { place < length self.old.cells }
        ensures { self.new ≡ record self.old { cells = changed_at place (valued (tree value)) self.old.cells } }
    {
        self.cells.set_at(place, value);
    }

    /// Makes the cell of a definition clear.
    pub fn clear_value(&mut self, definer: usize, name: &[u8])
        ensures { self.new ≡ record self.old { cells = map (at_key (definer, folded name.now) emptied) self.old.cells } }
    {
        self.cells.clear(definer, name);
    }

    /// Sets the owner and the permissions of a definition's cell.
    pub fn set_cell_info(&mut self, definer: usize, name: &[u8], owner: i32, perms: PropPerms)
        ensures { self.new ≡ record self.old { cells = map (at_key (definer, folded name.now) (with_info owner perms)) self.old.cells } }
    {
        self.cells.set_info(definer, name, owner, perms);
    }

    /// Inserts a clear cell with the definition of another cell before the last `following` cells. Out of memory nothing
    /// changes.
    pub fn add_clear(&mut self, other: &PropCell, following: usize) -> Result<(), AllocError>
        ensures ok { OnOk result (self.new ≡ record self.old { cells = put_before following (cleared self.old.owner other.now) self.old.cells }) }
        ensures err { OnErr result (self.new ≡ self.old) }
    {
        let cell = other.cleared(self.owner)?;
        self.cells.insert(cell, following)
    }

    /// Removes the cell before the last `following` cells.
    pub fn remove_cell(&mut self, following: usize)
        ensures { self.new ≡ record self.old { cells = taken_before following self.old.cells } }
    {
        self.cells.remove(following);
    }

    /// Renames the cell of a definition: the first one, if there are more.
    pub fn rename_cell(&mut self, definer: usize, name: &[u8], new_name: MooStr)
        ensures { self.new ≡ record self.old { cells = with_new_name (definer, folded name.now) (folded new_name) self.old.cells } }
    {
        self.cells.rename(definer, name, new_name);
    }

    /// Removes the object's cell of a definition.
    pub fn lose(&mut self, definer: usize, name: &[u8])
        ensures { self.new ≡ record self.old { cells = filter (λ c. not (is_key (definer, folded name.now) c)) self.old.cells } }
    {
        self.cells.lose(definer, name);
    }

    /// Removes the object's cells of all definitions of an object.
    pub fn lose_all_of(&mut self, definer: usize)
        ensures { self.new ≡ record self.old { cells = filter (λ c. not (c.definer == definer)) self.old.cells } }
    {
        self.cells.lose_all_of(definer);
    }
}
