//! New definitions on an object, the cells for them, and the tests of the objects that inherit from it.

ghost use Rattle.std.specs.Prelude.{◌≡◌, ◌<◌, length, vec_len, List, OnOk, OnErr, Option, Some, ℕ, nat_le, None};
ghost use Rattle.std.specs.Option.{unwrap_or};
ghost use Rattle.std.specs.List.{list_any};
ghost use Rattle.moo_value.specs.Compare.{folded};
ghost use Rattle.moo_world_tree.specs.Walk.{met, step_at};
ghost use Rattle.moo_world_object.specs.Cells.{Cell, is_named};
ghost use Rattle.moo_world_object.specs.Objects.{Object as Contents};
ghost use Rattle.moo_world_table.specs.World.{thing_of, nothing, most};
ghost use Rattle.moo_world_table.specs.Steps.{changed_along, defined_along, with_clear_cell, with_own_cell, without_cell_before};

use crate::MOST;
use moo_value::MooStr;
use moo_world_object::{Object, PropCell};
use moo_world_tree::Step;
use std::alloc::AllocError;

/// Returns whether some object on a walk has a property of this name.
pub fn some_named(objects: &[Option<Object>], walk: &[Step], name: &[u8]) -> bool
    requires { (k : ℕ) → k < length walk.now → (step_at walk.now k).node < length objects.now }
    ensures { result ≡ list_any (λ y. list_any (is_named (folded name.now)) (thing_of objects.now y).cells) (met walk.now) }
{
    for step in walk {
        if named_in(&objects[step.node], name) {
            return true;
        }
    }
    false
}

/// Returns whether an object has a property of this name, its own or an inherited one.
pub fn named_in(slot: &Option<Object>, name: &[u8]) -> bool
    ensures { result ≡ list_any (is_named (folded name.now)) (unwrap_or slot.now nothing).cells }
{
    match slot {
        Some(object) => object.cells().iter().any(|cell| cell.is_named(name)),
        None => false,
    }
}

/// Returns whether some object on a walk has as many properties as it may have.
pub fn some_full(objects: &[Option<Object>], walk: &[Step]) -> bool
    requires { (k : ℕ) → k < length walk.now → (step_at walk.now k).node < length objects.now }
    ensures { result ≡ list_any (λ y. nat_le most (length (thing_of objects.now y).cells)) (met walk.now) }
{
    for step in walk {
        if full_in(&objects[step.node]) {
            return true;
        }
    }
    false
}

/// Returns whether an object has as many properties as it may have, inherited ones too.
pub fn full_in(slot: &Option<Object>) -> bool
    ensures { result ≡ nat_le most (length (unwrap_or slot.now nothing).cells) }
{
    match slot {
        Some(object) => object.cells().len() >= MOST,
        None => false,
    }
}

/// Adds a definition with its cell to the first object of a walk, and a clear cell for it to each other one. In each
/// row the cell comes before the `following` cells that the first object inherits. If memory runs out, nothing changes.
pub fn define_along(
    objects: &mut Vec<Option<Object>>,
    walk: &[Step],
    name: MooStr,
    cell: PropCell,
    following: usize,
) -> Result<(), AllocError>
    requires { (k : ℕ) → k < length walk.now → (step_at walk.now k).node < vec_len objects.old }
    ensures ok { OnOk result (objects.new.items ≡ defined_along following name cell objects.old.items (met walk.now)) }
    ensures err { OnErr result (objects.new.items ≡ objects.old.items) }
{
    let Some((first, below)) = walk.split_first() else {
        return Ok(());
    };
    add_clear_along(objects, below, &cell, following)?;
    if let Err(fault) = define_in(&mut objects[first.node], name, cell, following) {
        take_along(objects, below, following);
        return Err(fault);
    }
    Ok(())
}

// Adds a definition with its cell to an object.
fn define_in(
    slot: &mut Option<Object>,
    name: MooStr,
    cell: PropCell,
    following: usize,
) -> Result<(), AllocError>
    ensures ok { OnOk result (slot.new ≡ with_own_cell following name cell slot.old) }
    ensures err { OnErr result (slot.new ≡ slot.old) }
{
    match slot {
        Some(object) => object.define(name, cell, following),
        None => Ok(()),
    }
}

// Adds a clear cell to each object on a walk, or to none.
fn add_clear_along(
    objects: &mut Vec<Option<Object>>,
    walk: &[Step],
    cell: &PropCell,
    following: usize,
) -> Result<(), AllocError>
    requires { (k : ℕ) → k < length walk.now → (step_at walk.now k).node < vec_len objects.old }
    ensures ok { OnOk result (objects.new.items ≡ changed_along (with_clear_cell following cell.now) objects.old.items (met walk.now)) }
    ensures err { OnErr result (objects.new.items ≡ objects.old.items) }
    ensures many { vec_len objects.new ≡ vec_len objects.old }
{
    for i in 0..walk.len() {
        if let Err(fault) = add_clear_in(&mut objects[walk[i].node], cell, following) {
            take_along(objects, &walk[..i], following);
            return Err(fault);
        }
    }
    Ok(())
}

fn add_clear_in(
    slot: &mut Option<Object>,
    cell: &PropCell,
    following: usize,
) -> Result<(), AllocError>
    ensures ok { OnOk result (slot.new ≡ with_clear_cell following cell.now slot.old) }
    ensures err { OnErr result (slot.new ≡ slot.old) }
{
    match slot {
        Some(object) => object.add_clear(cell, following),
        None => Ok(()),
    }
}

// Removes the cells that were added along a walk.
fn take_along(objects: &mut Vec<Option<Object>>, walk: &[Step], following: usize)
    requires { (k : ℕ) → k < length walk.now → (step_at walk.now k).node < vec_len objects.old }
    ensures back { (cell : Cell) (before : List (Option Contents)) → objects.old.items ≡ changed_along (with_clear_cell following cell) before (met walk.now) → objects.new.items ≡ before }
    ensures many { vec_len objects.new ≡ vec_len objects.old }
{
    let mut left = walk.len();
    while left > 0 {
        left -= 1;
        take_in(&mut objects[walk[left].node], following);
    }
}

fn take_in(slot: &mut Option<Object>, following: usize)
    ensures { slot.new ≡ without_cell_before following slot.old }
{
    if let Some(object) = slot {
        object.remove_cell(following);
    }
}
