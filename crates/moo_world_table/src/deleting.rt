//! Removes definitions and their cells.

ghost use Rattle.std.specs.Prelude.{◌≡◌, ◌<◌, length, vec_len, ℕ};
ghost use Rattle.std.specs.Option.{unwrap_or};
ghost use Rattle.std.specs.List.{list_any};
ghost use Rattle.moo_value.specs.Compare.{folded};
ghost use Rattle.moo_world_tree.specs.Walk.{met, step_at};
ghost use Rattle.moo_world_object.specs.Names.{same_name};
ghost use Rattle.moo_world_table.specs.World.{nothing};
ghost use Rattle.moo_world_table.specs.Changes.{without_cell, without_name};
ghost use Rattle.moo_world_table.specs.Steps.{changed_along};

use moo_world_object::Object;
use moo_world_tree::Step;

/// Returns whether an object itself defines a property of this name.
pub fn defines_in(slot: &Option<Object>, name: &[u8]) -> bool
    ensures { result ≡ list_any (λ n. same_name (folded name.now) (folded n)) (unwrap_or slot.now nothing).defined }
{
    match slot {
        Some(object) => object.defines(name),
        None => false,
    }
}

/// Removes a name from those that an object defines. Its cell stays.
pub fn forget_in(slot: &mut Option<Object>, name: &[u8])
    ensures { slot.new ≡ without_name (folded name.now) slot.old }
{
    if let Some(object) = slot {
        object.forget(name);
    }
}

/// Removes an object's cell for a definition.
pub fn lose_in(slot: &mut Option<Object>, definer: usize, name: &[u8])
    ensures { slot.new ≡ without_cell (definer, folded name.now) slot.old }
{
    if let Some(object) = slot {
        object.lose(definer, name);
    }
}

/// Removes the cell for a definition from each object on a walk.
pub fn lose_along(objects: &mut Vec<Option<Object>>, walk: &[Step], definer: usize, name: &[u8])
    requires { (k : ℕ) → k < length walk.now → (step_at walk.now k).node < vec_len objects.old }
    ensures { objects.new.items ≡ changed_along (without_cell (definer, folded name.now)) objects.old.items (met walk.now) }
{
    for step in walk {
        lose_in(&mut objects[step.node], definer, name);
    }
}
