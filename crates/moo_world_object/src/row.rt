//! The cells of an object.
ghost use Rattle.std.specs.Prelude.{◌≡◌, ◌<◌, [], ◌==◌, OnOk, OnErr, IfSome, length, filter, map, not, true, false, position, slice_get};
ghost use Rattle.std.specs.Option.{ForSome, option_copied, option_and_then};
ghost use Rattle.std.specs.List.{list_any};
ghost use Rattle.moo_value.specs.Compare.{folded};
ghost use Rattle.moo_value.specs.View.{tree};
ghost use Rattle.moo_syntax_ast.specs.NameNumber.{name_number};
ghost use Rattle.moo_world_object.specs.Cells.{AreDistinct, with_value, is_key, is_named, key_of, cell_at, cell_named, at_key, emptied, valued, with_info};
ghost use Rattle.moo_world_object.specs.Verbs.{changed_at};
ghost use Rattle.moo_world_object.specs.Rows.{put_before, taken_before, with_new_name};

use crate::cell::{PropCell, PropPerms};
use moo_syntax_ast::{Text, name_number};
use moo_value::{MooStr, Value};
use std::alloc::{AllocError, Global};
use std::marker::Model;

/// The number of cells from which on a search for a name compares numbers. In a shorter row the number of the name costs
/// more than comparing letters.
const LONG_ROW: usize = 16;

/// The cells of an object, in the order of definitions: its own, then its parent's, and so on.
#[derive(Drop)]
pub struct Row {
    cells: Vec<PropCell>,
}

impl Model for Row {
    ghost use Rattle.std.specs.Prelude.{List};
    ghost use Rattle.moo_world_object.specs.Cells.{Cell};
    ghost use Rattle.std.specs.Coded.{codes};
    ghost use Rattle.moo_value.specs.TreeCode.{tree_code};

    ghost Value = { List Cell };

    ghost coded = { Prim.hlevel (codes, tree_code) };

    ghost view = { λ r. r.cells.items };
}

impl Row {
    /// Makes a row without cells.
    pub fn new(alloc: Global) -> Self
        ensures { result ≡ [] }
    {
        Row {
            cells: Vec::new(alloc),
        }
    }

    /// Makes the row of these cells.
    pub fn from_cells(cells: Vec<PropCell>) -> Self
        ensures { result ≡ cells.items }
    {
        Row { cells }
    }

    /// Returns the cells.
    pub fn as_slice(&self) -> &[PropCell]
        ensures { result.now ≡ self.now }
    {
        &self.cells
    }

    /// Inserts a cell before the last `following` cells. Out of memory nothing changes.
    pub fn insert(&mut self, cell: PropCell, following: usize) -> Result<(), AllocError>
        ensures ok { OnOk result (self.new ≡ put_before following cell self.old) }
        ensures err { OnErr result (self.new ≡ self.old) }
    {
        let place = self.cells.len().saturating_sub(following);
        self.cells.insert(place, cell)?;
        Ok(())
    }

    /// Removes the cell before the last `following` cells.
    pub fn remove(&mut self, following: usize)
        ensures { self.new ≡ taken_before following self.old }
    {
        let place = self.cells.len().saturating_sub(following).saturating_sub(1);
        if place < self.cells.len() {
            let _cell = self.cells.remove(place);
        }
    }

    /// Removes the cell of a definition.
    pub fn lose(&mut self, definer: usize, name: &[u8])
        ensures { self.new ≡ filter (λ c. not (is_key (definer, folded name.now) c)) self.old }
    {
        lose_cell(&mut self.cells, definer, name);
    }

    /// Removes the cells of all definitions of an object.
    pub fn lose_all_of(&mut self, definer: usize)
        ensures { self.new ≡ filter (λ c. not (c.definer == definer)) self.old }
    {
        lose_cells_of(&mut self.cells, definer);
    }

    /// Sets the value of the first cell with this name.
    pub fn set_value(&mut self, name: &[u8], value: Value)
        ensures { self.new ≡ with_value (folded name.now) (tree value) self.old }
    {
        set_named(&mut self.cells, name, value);
    }

    /// Sets the value of the cell at a place.
    #[inline(always)]
    pub fn set_at(&mut self, place: usize, value: Value)
        requires { place < length self.old }
        ensures { self.new ≡ changed_at place (valued (tree value)) self.old }
    {
        put_value(&mut self.cells, place, value);
    }

    /// Makes the cell of a definition clear.
    pub fn clear(&mut self, definer: usize, name: &[u8])
        ensures { self.new ≡ map (at_key (definer, folded name.now) emptied) self.old }
    {
        clear_cell(&mut self.cells, definer, name);
    }

    /// Sets the owner and the permissions of a definition's cell.
    pub fn set_info(&mut self, definer: usize, name: &[u8], owner: i32, perms: PropPerms)
        ensures { self.new ≡ map (at_key (definer, folded name.now) (with_info owner perms)) self.old }
    {
        set_cell_info(&mut self.cells, definer, name, owner, perms);
    }

    /// Renames the cell of a definition: the first one, if there are more.
    pub fn rename(&mut self, definer: usize, name: &[u8], new_name: MooStr)
        ensures { self.new ≡ with_new_name (definer, folded name.now) (folded new_name) self.old }
    {
        rename_cell(&mut self.cells, definer, name, new_name);
    }
}

/// Returns the cell of a definition, or `None` if the row has none.
pub fn cell_at<'a>(cells: &'a [PropCell], definer: usize, name: &[u8]) -> Option<&'a PropCell>
    ensures { option_copied result ≡ cell_at cells.now (definer, folded name.now) }
{
    cells.iter().find(|cell| cell.is_for(definer, name))
}

/// Returns the place of the cell that has the same definition as another. Looks at `next` first. Looks nowhere else if
/// the definer is `absent`, which has no cell in the row.
pub(crate) fn place_for(
    cells: &[PropCell],
    other: &PropCell,
    next: usize,
    absent: Option<usize>,
) -> Option<usize>
    requires distinct { AreDistinct cells.now }
    requires absent { ForSome absent (λ d. list_any (λ c. c.definer == d) cells.now ≡ false) }
    ensures within { ForSome result (λ i. i < length cells.now) }
    ensures found { option_and_then (slice_get cells.now) result ≡ cell_at cells.now (key_of other.now) }
{
    match cells.get(next) {
        Some(cell) if cell.has_key_of(other) => Some(next),
        _ if absent == Some(other.definer()) => None,
        _ => position_of_key(cells, other),
    }
}

fn position_of_key(cells: &[PropCell], other: &PropCell) -> Option<usize>
    ensures { result ≡ position (is_key (key_of other.now)) cells.now }
{
    cells.iter().position(|cell| cell.has_key_of(other))
}

/// Returns a definer that has no cell in the row: that of the other cell if it has none, else `absent`.
pub(crate) fn absent_definer(
    cells: &[PropCell],
    other: &PropCell,
    absent: Option<usize>,
) -> Option<usize>
    requires { ForSome absent (λ d. list_any (λ c. c.definer == d) cells.now ≡ false) }
    ensures { ForSome result (λ d. list_any (λ c. c.definer == d) cells.now ≡ false) }
{
    let definer = other.definer();
    if absent == Some(definer) || has_definer(cells, definer) {
        return absent;
    }
    Some(definer)
}

fn has_definer(cells: &[PropCell], definer: usize) -> bool
    ensures { result ≡ list_any (λ c. c.definer == definer) cells.now }
{
    cells.iter().any(|cell| cell.definer() == definer)
}

/// Returns the first cell with this name, in any case.
#[inline(always)]
pub fn cell_named<'a>(cells: &'a [PropCell], name: &[u8]) -> Option<&'a PropCell>
    ensures { option_copied result ≡ cell_named cells.now (folded name.now) }
{
    if cells.len() >= LONG_ROW {
        return cell_numbered(cells, name_number(name), name);
    }
    cells.iter().find(|cell| cell.is_named(name))
}

// Returns the first cell of the name with this number.
#[inline(never)]
fn cell_numbered<'a>(cells: &'a [PropCell], number: u64, name: &[u8]) -> Option<&'a PropCell>
    requires { number ≡ name_number (folded name.now) }
    ensures { option_copied result ≡ cell_named cells.now (folded name.now) }
{
    cells.iter().find(|cell| cell.is_numbered(number, name))
}

/// Returns the place of a cell with the literal's name if the literal's hint leads to it: the hint is the distance from
/// the end of the row.
#[inline(always)]
pub fn place_known(cells: &[PropCell], name: &Text) -> Option<usize>
    ensures { IfSome result (λ place. (place < length cells.now) × IfSome (slice_get cells.now place) (λ c. is_named (folded name.now) c ≡ true)) }
{
    let place = cells.len().checked_sub(name.hint())?;
    let cell = cells.get(place)?;
    if cell.is_named_as(name) {
        Some(place)
    } else {
        None
    }
}

/// Notes in the literal the distance of its cell from the end of the row. It is the same in all rows that have the cell
/// from one definition.
pub fn note_place(cells: &[PropCell], name: &Text, place: usize) {
    name.note(cells.len().saturating_sub(place));
}

/// Returns the place of the first cell with this name, in any case.
#[inline(always)]
pub fn place_named(cells: &[PropCell], name: &[u8]) -> Option<usize>
    ensures { result ≡ position (is_named (folded name.now)) cells.now }
{
    if cells.len() >= LONG_ROW {
        return place_numbered(cells, name_number(name), name);
    }
    cells.iter().position(|cell| cell.is_named(name))
}

// Returns the place of the first cell of the name with this number.
#[inline(never)]
fn place_numbered(cells: &[PropCell], number: u64, name: &[u8]) -> Option<usize>
    requires { number ≡ name_number (folded name.now) }
    ensures { result ≡ position (is_named (folded name.now)) cells.now }
{
    cells.iter().position(|cell| cell.is_numbered(number, name))
}

/// Returns the place of the first cell with the literal's name, in any case.
#[inline(always)]
pub fn place_named_as(cells: &[PropCell], name: &Text) -> Option<usize>
    ensures { result ≡ position (is_named (folded name.now)) cells.now }
{
    cells.iter().position(|cell| cell.is_named_as(name))
}

// Sets the value of the first cell with this name.
fn set_named(cells: &mut Vec<PropCell>, name: &[u8], value: Value)
    ensures { cells.new.items ≡ with_value (folded name.now) (tree value) cells.old.items }
{
    for i in 0..cells.len() {
        if cells[i].is_named(name) {
            cells[i].set_value(value);
            return;
        }
    }
}

#[inline(always)]
fn put_value(cells: &mut Vec<PropCell>, place: usize, value: Value)
    requires { place < length cells.old.items }
    ensures { cells.new.items ≡ changed_at place (valued (tree value)) cells.old.items }
{
    cells[place].set_value(value);
}

fn lose_cell(cells: &mut Vec<PropCell>, definer: usize, name: &[u8])
    ensures { cells.new.items ≡ filter (λ c. not (is_key (definer, folded name.now) c)) cells.old.items }
{
    cells.retain(|cell| !cell.is_for(definer, name));
}

fn lose_cells_of(cells: &mut Vec<PropCell>, definer: usize)
    ensures { cells.new.items ≡ filter (λ c. not (c.definer == definer)) cells.old.items }
{
    cells.retain(|cell| cell.definer() != definer);
}

fn clear_cell(cells: &mut Vec<PropCell>, definer: usize, name: &[u8])
    ensures { cells.new.items ≡ map (at_key (definer, folded name.now) emptied) cells.old.items }
{
    for i in 0..cells.len() {
        clear_if_for(&mut cells[i], definer, name);
    }
}

fn clear_if_for(cell: &mut PropCell, definer: usize, name: &[u8])
    ensures { cell.new ≡ at_key (definer, folded name.now) emptied cell.old }
{
    if cell.is_for(definer, name) {
        cell.clear();
    }
}

fn set_cell_info(
    cells: &mut Vec<PropCell>,
    definer: usize,
    name: &[u8],
    owner: i32,
    perms: PropPerms,
)
    ensures { cells.new.items ≡ map (at_key (definer, folded name.now) (with_info owner perms)) cells.old.items }
{
    for i in 0..cells.len() {
        set_info_if_for(&mut cells[i], definer, name, owner, perms);
    }
}

fn set_info_if_for(cell: &mut PropCell, definer: usize, name: &[u8], owner: i32, perms: PropPerms)
    ensures { cell.new ≡ at_key (definer, folded name.now) (with_info owner perms) cell.old }
{
    if cell.is_for(definer, name) {
        cell.set_info(owner, perms);
    }
}

// Renames the first cell of a definition.
fn rename_cell(cells: &mut Vec<PropCell>, definer: usize, name: &[u8], new_name: MooStr)
    ensures { cells.new.items ≡ with_new_name (definer, folded name.now) (folded new_name) cells.old.items }
{
    for i in 0..cells.len() {
        if cells[i].is_for(definer, name) {
            cells[i].set_name(new_name);
            return;
        }
    }
}
