//! What follows from the invariant of a world.

ghost use Rattle.std.specs.Prelude.{◌≡◌, ◌<◌, length, None, Some, is_some, IsSome, true};
ghost use Rattle.std.specs.Option.{ForSome};
ghost use Rattle.moo_value.specs.Compare.{folded};
ghost use Rattle.moo_world_tree.specs.Forest.{above_of, below_of};
ghost use Rattle.moo_value.specs.Size.{weight_limit};
ghost use Rattle.moo_value.specs.View.{tree};
ghost use Rattle.moo_world_object.specs.Cells.{own_cell};
ghost use Rattle.moo_world_table.specs.Changes.{after_chparent, after_create, after_define, after_move, after_undefine, with_object, with_value_of};
ghost use Rattle.moo_world.specs.Calls.{parent_raises, place_raises};
ghost use Rattle.moo_world.specs.PropertyCalls.{add_property_raises};
ghost use Rattle.moo_world.specs.Lookups.{IsCreated, IsReparented, IsDefinedOn, IsRenamed, IsSet, IsWithout, IsUndefined};
ghost use Rattle.moo_world_table.specs.Recycling.{after_recycle};
ghost use Rattle.moo_world_table.specs.Renames.{after_rename};
ghost use Rattle.moo_world.specs.InfoCalls.{rename_raises};
ghost use Rattle.moo_world_table.specs.World.{IsWellFormed, object_of};
ghost use Rattle.moo_world_table.specs.Restoring.{AreParts, restored_world};
ghost use Rattle.moo_world_table.specs.Properties.{definition_named, read};

use crate::World;
use moo_value::{MooStr, Value};
pub use moo_world_object::laws::{
    a_fitting_name_meets_the_rule, a_number_has_one_set_of_flags,
    a_number_has_one_set_of_property_permissions, a_number_has_one_set_of_verb_permissions,
    every_name_fits_a_star,
};
use moo_world_object::{Object, PropPerms};
pub use moo_world_text::laws::{
    object_specifiers_are_read_back, preposition_specifiers_are_read_back,
    prop_perms_are_read_back, verb_perms_are_read_back,
};
use moo_world_tree::Forest;

/// A property that is defined on an object or an ancestor has a value, and no other has one.
pub fn a_defined_property_has_a_value(world: &World, x: usize, name: &[u8])
    ensures { is_some (read world.now x (folded name.now)) ≡ is_some (definition_named world.now x (folded name.now)) }
{
    world.is_well_formed();
}

/// A change to the parent that is there raises nothing and changes nothing.
pub fn the_same_parent_changes_nothing(world: &World, x: usize, p: Option<usize>)
    requires { above_of world.now.inheritance x ≡ p }
    ensures raises { parent_raises world.now x p ≡ None }
    ensures world { after_chparent world.now x p ≡ world.now }
{
    world.is_well_formed();
}

/// A move to where the object is raises nothing and changes nothing.
pub fn the_same_place_changes_nothing(world: &World, x: usize, to: Option<usize>)
    requires { above_of world.now.containment x ≡ to }
    ensures raises { place_raises world.now x to ≡ None }
    ensures world { after_move world.now x to ≡ world.now }
{
    world.is_well_formed();
}

/// Under another parent an object and its descendants keep the cells of definers that are still above them. They have
/// clear cells for new definitions above them, and lose the others. All else in the world and all other look-ups
/// stay.
pub fn another_parent_keeps_what_is_still_above(world: &World, x: usize, p: Option<usize>)
    requires object { IsSome (object_of world.now.objects x) }
    requires parent { ForSome p (λ up. IsSome (object_of world.now.objects up)) }
    requires allowed { parent_raises world.now x p ≡ None }
    ensures { IsReparented world.now (after_chparent world.now x p) x }
{
    world.is_well_formed();
}

/// A new property has its cell on the object that defines it, and a clear one on each descendant. It reads on a
/// descendant as on the object. Other cells, all else in the world and all other look-ups stay.
pub fn a_new_property_is_seen_below(
    world: &World,
    x: usize,
    name: &MooStr,
    value: &Value,
    owner: i32,
    perms: PropPerms,
)
    requires object { IsSome (object_of world.now.objects x) }
    requires allowed { add_property_raises world.now (Some x) (folded name.now) ≡ None }
    ensures { let cell = own_cell x (folded name.now) (tree value.now) owner perms in
        IsDefinedOn world.now (after_define world.now x name.now cell) x name.now cell }
{
    world.is_well_formed();
    let _bytes = name.as_bytes();
    let _weight = value.weight();
}

/// A value that is set is read on the object and on what inherits it. Every other cell stays, and no other property
/// reads otherwise.
pub fn a_set_value_is_read(world: &World, x: usize, name: &[u8], value: &Value)
    requires object { IsSome (object_of world.now.objects x) }
    requires defined { is_some (definition_named world.now x (folded name.now)) ≡ true }
    ensures { IsSet world.now (with_object world.now x (with_value_of (folded name.now) (tree value.now))) x (folded name.now) (tree value.now) }
{
    world.is_well_formed();
}

/// Under its new name a property reads as it did under its old one, wherever it was found. Its cells are otherwise as
/// they were, and every other cell stays.
pub fn a_renamed_property_reads_as_before(world: &World, x: usize, name: &[u8], new_name: &MooStr)
    requires object { IsSome (object_of world.now.objects x) }
    requires allowed { rename_raises world.now x (x, folded name.now) (folded new_name.now) ≡ None }
    ensures { IsRenamed world.now (after_rename world.now x (folded name.now) new_name.now) x (folded name.now) (folded new_name.now) }
{
    world.is_well_formed();
    let _bytes = new_name.as_bytes();
}

/// A new object has its parent's cells, clear, and its properties read as its parent's. Nothing else
/// changes.
pub fn a_new_object_reads_as_its_parent(world: &World, parent: Option<usize>, owner: i32)
    requires { ForSome parent (λ up. IsSome (object_of world.now.objects up)) }
    ensures { IsCreated world.now (after_create world.now parent owner) parent owner }
{
    world.is_well_formed();
}

/// Once an object is recycled, no object has a cell for what it defined. Every other cell stays.
pub fn a_recycled_object_takes_its_properties_along(world: &World, x: usize)
    requires { IsSome (object_of world.now.objects x) }
    ensures { IsWithout world.now (after_recycle world.now x) x }
{
    world.is_well_formed();
}

/// Once a property is deleted, no object has a cell for it. Every other cell stays.
pub fn a_deleted_property_is_gone_below(world: &World, x: usize, name: &[u8])
    requires { IsSome (object_of world.now.objects x) }
    ensures { IsUndefined world.now (after_undefine world.now x (folded name.now)) (x, folded name.now) }
{
    world.is_well_formed();
}

/// The contents of an object are within the limits of a list: the objects are distinct, and none is in itself.
pub fn contents_are_within_the_limits(world: &World, x: usize)
    ensures { length (below_of world.now.containment x) < weight_limit }
{
    world.is_well_formed();
}

/// A world is restored from its own objects, trees and players as it is. The cells of an object are in the order of
/// definitions, so their names need not be given.
pub fn a_world_is_restored_as_it_was(world: &World)
    ensures { restored_world world.now.objects world.now.inheritance world.now.containment world.now.players ≡ world.now }
{
    world.is_well_formed();
}

/// Parts with as many cells as definitions that keep the other rules are restored to a well-formed world.
pub fn what_is_restored_is_well_formed(
    objects: &[Option<Object>],
    parents: &Forest,
    places: &Forest,
    players: &[i32],
)
    requires { AreParts objects.now parents.now places.now players.now }
    ensures { IsWellFormed (restored_world objects.now parents.now places.now players.now) }
{}
