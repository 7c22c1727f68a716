//! Changes to the objects that remain when one is recycled.

ghost use Rattle.std.specs.Prelude.{◌≡◌, ◌<◌, None, length, vec_len, ℕ};
ghost use Rattle.moo_world_tree.specs.Walk.{met, step_at};
ghost use Rattle.moo_world_table.specs.Steps.{changed_along};
ghost use Rattle.moo_world_table.specs.Recycling.{without_cells_of};

use moo_world_object::Object;
use moo_world_tree::Step;

/// Removes the object at a number.
pub fn empty(slot: &mut Option<Object>)
    ensures { slot.new ≡ None }
{
    *slot = None;
}

/// Removes the cells for all that an object defines from each object on a walk.
pub fn lose_all_along(objects: &mut Vec<Option<Object>>, walk: &[Step], definer: usize)
    requires { (k : ℕ) → k < length walk.now → (step_at walk.now k).node < vec_len objects.old }
    ensures { objects.new.items ≡ changed_along (without_cells_of definer) objects.old.items (met walk.now) }
{
    for step in walk {
        lose_all_in(&mut objects[step.node], definer);
    }
}

fn lose_all_in(slot: &mut Option<Object>, definer: usize)
    ensures { slot.new ≡ without_cells_of definer slot.old }
{
    if let Some(object) = slot {
        object.lose_all_of(definer);
    }
}
