//! Cells by names that are literals in a program. The search first tries the distance from the end of the row at which
//! the name was last found. That distance is the same on all objects that have the property from one definition.

ghost use Rattle.std.specs.Prelude.{◌≡◌, ◌<◌, ◌∷◌, Some, IfSome, false, length, map, slice_get};
ghost use Rattle.std.specs.Option.{option_map, option_copied};
ghost use Rattle.std.specs.List.{filter_map, position};
ghost use Rattle.moo_value.specs.Compare.{folded};
ghost use Rattle.moo_value.specs.View.{tree};
ghost use Rattle.moo_world_tree.specs.Forest.{ancestors};
ghost use Rattle.moo_world_object.specs.Cells.{Key, is_key, is_named, key_of};
ghost use Rattle.moo_world_table.specs.World.{has_twice, IsStocked};
ghost use Rattle.moo_world_table.specs.Properties.{value_at, distance_of, cell_from_end, value_from_end, value_from_end_at};

use crate::properties::cells_in;
use moo_syntax_ast::Text;
use moo_value::Value;
use moo_world_object::{Object, PropCell, note_place, place_known, place_named_as};
use moo_world_tree::Forest;

/// Returns the place of the cell of a name. No two cells may have one name.
#[inline(always)]
pub fn place_written(cells: &[PropCell], name: &Text) -> Option<usize>
    requires once { has_twice (map (λ (k : Key). k.1) (map key_of cells.now)) ≡ false }
    ensures { result ≡ position (is_named (folded name.now)) cells.now }
{
    match place_known(cells, name) {
        Some(place) => Some(place),
        None => place_searched(cells, name),
    }
}

// Returns the place of the cell of a name by a linear search, which compares numbers. It is a separate function, so
// that a look-up that needs no search stays short.
#[inline(never)]
fn place_searched(cells: &[PropCell], name: &Text) -> Option<usize>
    ensures { result ≡ position (is_named (folded name.now)) cells.now }
{
    let place = place_named_as(cells, name)?;
    note_place(cells, name, place);
    Some(place)
}

/// Returns the value for a definition that is nearest to `x` on its way up. It looks up the name on `x` alone: the cells
/// of the ancestors for this definition are at the same distance from the ends of their rows.
pub fn nearest_written<'a>(
    objects: &'a [Option<Object>],
    parents: &Forest,
    x: usize,
    definer: usize,
    name: &Text,
) -> Option<&'a Value>
    requires many { length objects.now ≡ length parents.now }
    requires first { x < length objects.now }
    requires stocked { IsStocked objects.now parents.now }
    ensures { option_map tree (option_copied result) ≡ slice_get (filter_map (value_at objects.now (definer, folded name.now)) (x ∷ ancestors parents.now x)) 0 }
{
    parents.is_forest();
    let distance = distance_of(cells_in(&objects[x]), definer, name);
    nearest_from_end(objects, parents, x, distance)
}

// Returns the distance of the cell for a definition from the end of the row, or 0 if there is none.
#[inline(always)]
fn distance_of(cells: &[PropCell], definer: usize, name: &Text) -> usize
    requires { has_twice (map (λ (k : Key). k.1) (map key_of cells.now)) ≡ false }
    ensures { result ≡ distance_of (definer, folded name.now) cells.now }
{
    match place_of(cells, definer, name) {
        Some(place) => cells.len().saturating_sub(place),
        None => 0,
    }
}

// Returns the place of the cell for a definition.
#[inline(always)]
fn place_of(cells: &[PropCell], definer: usize, name: &Text) -> Option<usize>
    requires { has_twice (map (λ (k : Key). k.1) (map key_of cells.now)) ≡ false }
    ensures { result ≡ position (is_key (definer, folded name.now)) cells.now }
{
    match place_noted(cells, definer, name) {
        Some(place) => Some(place),
        None => place_for(cells, definer, name.string().as_bytes()),
    }
}

// Returns the place of the cell for a definition, if the hint at its name leads to it.
#[inline(always)]
fn place_noted(cells: &[PropCell], definer: usize, name: &Text) -> Option<usize>
    requires { has_twice (map (λ (k : Key). k.1) (map key_of cells.now)) ≡ false }
    ensures { IfSome result (λ place. position (is_key (definer, folded name.now)) cells.now ≡ Some place) }
{
    let place = place_known(cells, name)?;
    if cells[place].definer() == definer {
        Some(place)
    } else {
        None
    }
}

#[inline(never)]
fn place_for(cells: &[PropCell], definer: usize, name: &[u8]) -> Option<usize>
    ensures { result ≡ position (is_key (definer, folded name.now)) cells.now }
{
    cells.iter().position(|cell| cell.is_for(definer, name))
}

// Returns the nearest value on the way up from `x`, of the cells at one distance from the ends of their rows.
fn nearest_from_end<'a>(
    objects: &'a [Option<Object>],
    parents: &Forest,
    x: usize,
    distance: usize,
) -> Option<&'a Value>
    requires many { length objects.now ≡ length parents.now }
    requires first { x < length objects.now }
    ensures { option_map tree (option_copied result) ≡ slice_get (filter_map (value_from_end_at objects.now distance) (x ∷ ancestors parents.now x)) 0 }
{
    let mut at = x;
    if let Some(value) = value_from_end(&objects[x], distance) {
        return Some(value);
    }
    for _ in 0..objects.len() {
        match parents.above(at) {
            Some(up) => at = up,
            None => return None,
        }
        if let Some(value) = value_from_end(&objects[at], distance) {
            return Some(value);
        }
    }
    None
}

// Returns the value of the cell at a distance from the end of an object's row.
#[inline(always)]
fn value_from_end(slot: &Option<Object>, distance: usize) -> Option<&Value>
    ensures { option_map tree (option_copied result) ≡ value_from_end distance slot.now }
{
    cell_from_end(cells_in(slot), distance)?.value()
}

// Returns the cell at a distance from the end of a row.
#[inline(always)]
fn cell_from_end(cells: &[PropCell], distance: usize) -> Option<&PropCell>
    ensures { option_copied result ≡ cell_from_end distance cells.now }
{
    let place = cells.len().checked_sub(distance)?;
    cells.get(place)
}
