//! The cells of one object.

ghost use Rattle.std.specs.Prelude.{◌≡◌, ◌<◌, Some, length};
ghost use Rattle.std.specs.Option.{ForSome, option_copied, option_map, unwrap_or};
ghost use Rattle.moo_value.specs.Compare.{folded};
ghost use Rattle.moo_value.specs.View.{tree};
ghost use Rattle.moo_world_object.specs.Cells.{Cell, cell_named};
ghost use Rattle.moo_world_table.specs.World.{nothing, cells_of};
ghost use Rattle.moo_world_table.specs.Changes.{with_value_of, with_value_at};

use moo_value::Value;
use moo_world_object::{Object, PropCell, cell_named};

/// Returns an object's cell of a name.
#[inline(always)]
pub fn cell_in<'a>(slot: &'a Option<Object>, name: &[u8]) -> Option<&'a PropCell>
    ensures { option_copied result ≡ cell_named (unwrap_or slot.now nothing).cells (folded name.now) }
{
    match slot {
        Some(object) => cell_named(object.cells(), name),
        None => None,
    }
}

/// Returns the object whose definition an object's cell of a name is for.
pub fn definer_in(slot: &Option<Object>, name: &[u8]) -> Option<usize>
    ensures { result ≡ option_map (λ (c : Cell). c.definer) (cell_named (unwrap_or slot.now nothing).cells (folded name.now)) }
{
    let object = slot.as_ref()?;
    let cell = cell_named(object.cells(), name)?;
    Some(cell.definer())
}

/// Returns the cells of the object at a number, in the order of definitions.
#[inline(always)]
pub fn cells_in(slot: &Option<Object>) -> &[PropCell]
    ensures { result.now ≡ (unwrap_or slot.now nothing).cells }
{
    match slot {
        Some(object) => object.cells(),
        None => &[],
    }
}

/// Sets the value of an object's own cell of a name.
pub fn set_in(slot: &mut Option<Object>, name: &[u8], value: Value)
    ensures { slot.new ≡ option_map (with_value_of (folded name.now) (tree value)) slot.old }
{
    if let Some(object) = slot {
        object.set_value(name, value);
    }
}

/// Sets the value of an object's own cell at a place.
#[inline(always)]
pub fn set_at_in(slot: &mut Option<Object>, place: usize, value: Value)
    requires { place < length (unwrap_or slot.old nothing).cells }
    ensures { slot.new ≡ option_map (with_value_at place (tree value)) slot.old }
{
    if let Some(object) = slot {
        object.set_value_at(place, value);
    }
}

/// Returns the cells of an object, none for no object.
pub fn cells_of(objects: &[Option<Object>], p: Option<usize>) -> &[PropCell]
    requires { ForSome p (λ up. up < length objects.now) }
    ensures { result.now ≡ cells_of objects.now p }
{
    match p {
        Some(p) => match &objects[p] {
            Some(object) => object.cells(),
            None => &[],
        },
        None => &[],
    }
}
