//! Combined rights that functions require, and the verbs that they are about.
ghost use Rattle.std.specs.Prelude.{◌≡◌, ◌&&◌};
ghost use Rattle.std.specs.Option.{option_copied};
ghost use Rattle.moo_world.specs.Numbered.{cell_numbered, verb_numbered};
ghost use Rattle.moo_world.specs.Rights.{controls, may_own, may_write_object, may_write_property, may_write_this_verb};
ghost use Rattle.moo_builtin_world.specs.Objects.{may_be_parent};
ghost use Rattle.moo_builtin_world.specs.Properties.{may_give_cell};
ghost use Rattle.moo_builtin_world.specs.Verbs.{may_give_verb};

use moo_world::{Rights, World};
use moo_world_object::{PropCell, Verb, cell_named};

/// Returns whether the programmer owns an object and may make it inherit from another, or from none.
pub fn may_reparent(o: i32, to: i32, world: &World, programmer: i32) -> bool
    ensures { result ≡ (may_own world.now programmer o && may_be_parent world.now programmer to) }
{
    Rights::may_own(world, programmer, o) && may_be_parent(to, world, programmer)
}

fn may_be_parent(to: i32, world: &World, programmer: i32) -> bool
    ensures { result ≡ may_be_parent world.now programmer to }
{
    to == -1 || Rights::may_inherit_from(world, programmer, to)
}

/// Returns whether the programmer may write an object and make something with this owner on it.
pub fn may_add(o: i32, owner: i32, world: &World, programmer: i32) -> bool
    ensures { result ≡ (may_write_object world.now programmer o && controls world.now programmer owner) }
{
    Rights::may_write_object(world, programmer, o) && Rights::controls(world, programmer, owner)
}

/// Returns whether the programmer may write a property and give it this owner.
pub fn may_change_info(o: i32, name: &[u8], owner: i32, world: &World, programmer: i32) -> bool
    ensures { result ≡ (may_write_property world.now programmer o name.now && may_give_cell world.now programmer (cell_numbered world.now o name.now) owner) }
{
    Rights::may_write_property(world, programmer, o, name)
        && may_give_cell(o, name, owner, world, programmer)
}

// Returns whether the programmer may give a cell this owner: a wizard any, others the one that it has.
fn may_give_cell(o: i32, name: &[u8], owner: i32, world: &World, programmer: i32) -> bool
    ensures { result ≡ may_give_cell world.now programmer (cell_numbered world.now o name.now) owner }
{
    match numbered_cell(o, name, world) {
        Some(cell) => cell.owner() == owner || Rights::is_wizard(world, programmer),
        None => Rights::is_wizard(world, programmer),
    }
}

fn numbered_cell<'a>(o: i32, name: &[u8], world: &'a World) -> Option<&'a PropCell>
    ensures { option_copied result ≡ cell_numbered world.now o name.now }
{
    match world.object(o) {
        Some(object) => cell_named(object.cells(), name),
        None => None,
    }
}

/// Returns whether the programmer may write a verb and give it this owner.
pub fn may_change_verb(o: i32, index: usize, owner: i32, world: &World, programmer: i32) -> bool
    ensures { result ≡ (may_write_this_verb world.now programmer (verb_numbered world.now o index) && may_give_verb world.now programmer (verb_numbered world.now o index) owner) }
{
    Rights::may_write_verb(world, programmer, o, index)
        && may_give_verb(o, index, owner, world, programmer)
}

// Returns whether the programmer may give a verb this owner: a wizard any, others the one that it has.
fn may_give_verb(o: i32, index: usize, owner: i32, world: &World, programmer: i32) -> bool
    ensures { result ≡ may_give_verb world.now programmer (verb_numbered world.now o index) owner }
{
    match numbered_verb(o, index, world) {
        Some(verb) => verb.owner == owner || Rights::is_wizard(world, programmer),
        None => Rights::is_wizard(world, programmer),
    }
}

/// Returns an object's verb at a place, which counts from 0.
pub fn numbered_verb(o: i32, index: usize, world: &World) -> Option<&Verb>
    ensures { option_copied result ≡ verb_numbered world.now o index }
{
    match world.object(o) {
        Some(object) => object.verb(index),
        None => None,
    }
}
