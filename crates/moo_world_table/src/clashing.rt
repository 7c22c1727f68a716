//! Tests whether names of properties would clash under another parent.

ghost use Rattle.std.specs.Prelude.{◌≡◌, ◌<◌, ◌++◌, IfOk, OnOk, length, map, ℕ};
ghost use Rattle.std.specs.Option.{unwrap_or};
ghost use Rattle.std.specs.List.{list_any};
ghost use Rattle.moo_value.specs.Compare.{folded};
ghost use Rattle.moo_world_tree.specs.Walk.{met, step_at};
ghost use Rattle.moo_world_object.specs.Cells.{Cell};
ghost use Rattle.moo_world_object.specs.Names.{same_name};
ghost use Rattle.moo_world_table.specs.World.{nothing};
ghost use Rattle.moo_world_table.specs.Steps.{own_clash, own_names, HasJust};

use moo_value::MooStr;
use moo_world_object::{Object, PropCell, folded_name};
use moo_world_tree::Step;
use std::alloc::{AllocError, Global};
use std::collections::BTreeMap;

/// Returns whether some object on a walk defines a name that one of these cells has; Err is lack of memory. It sorts
/// the cells' names once, and searches them for each defined name.
pub fn names_clash(
    objects: &[Option<Object>],
    alloc: Global,
    walk: &[Step],
    cells: &[PropCell],
) -> Result<bool, AllocError>
    requires { (k : ℕ) → k < length walk.now → (step_at walk.now k).node < length objects.now }
    ensures { IfOk result (λ clash. clash ≡ list_any (own_clash objects.now cells.now) (met walk.now)) }
{
    let own = names_below(objects, alloc, walk)?;
    if own.is_empty() {
        return Ok(false);
    }
    let gained = cell_names(alloc, cells)?;
    some_stands_in(alloc, &gained, &own)
}

// Returns the names that the objects on a walk define, letters folded.
fn names_below(
    objects: &[Option<Object>],
    alloc: Global,
    walk: &[Step],
) -> Result<Vec<MooStr>, AllocError>
    requires { (k : ℕ) → k < length walk.now → (step_at walk.now k).node < length objects.now }
    ensures { IfOk result (λ names. names.items ≡ own_names objects.now (met walk.now)) }
{
    let mut names = Vec::new(alloc);
    for step in walk {
        add_folded(alloc, &mut names, defined_in(&objects[step.node]))?;
    }
    Ok(names)
}

fn defined_in(slot: &Option<Object>) -> &[MooStr]
    ensures { result.now ≡ (unwrap_or slot.now nothing).defined }
{
    match slot {
        Some(object) => object.defined(),
        None => &[],
    }
}

fn add_folded(alloc: Global, names: &mut Vec<MooStr>, more: &[MooStr]) -> Result<(), AllocError>
    ensures { OnOk result (names.new.items ≡ names.old.items ++ map folded more.now) }
{
    for name in more {
        names.push(folded_name(alloc, name)?)?;
    }
    Ok(())
}

fn cell_names(alloc: Global, cells: &[PropCell]) -> Result<Vec<MooStr>, AllocError>
    ensures { IfOk result (λ names. names.items ≡ map (λ (c : Cell). c.name) cells.now) }
{
    let mut names = Vec::with_capacity(alloc, cells.len())?;
    for cell in cells {
        names.push(cell.folded_name(alloc)?)?;
    }
    Ok(names)
}

// Returns whether one of the second names is among the first ones.
fn some_stands_in<'a>(
    alloc: Global,
    names: &'a [MooStr],
    others: &'a [MooStr],
) -> Result<bool, AllocError>
    ensures { IfOk result (λ found. found ≡ list_any (λ n. list_any (λ m. same_name m n) names.now) others.now) }
{
    let known = ordered(alloc, names)?;
    for name in others {
        if known.contains_key(&name.as_bytes()) {
            return Ok(true);
        }
    }
    Ok(false)
}

fn ordered<'a>(alloc: Global, names: &'a [MooStr]) -> Result<BTreeMap<&'a [u8], ()>, AllocError>
    ensures { IfOk result (λ known. HasJust known names.now) }
{
    let mut known = BTreeMap::new(alloc);
    for name in names {
        known.insert(name.as_bytes(), ())?;
    }
    Ok(known)
}
