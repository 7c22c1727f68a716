//! Renames a definition: on the object that has it, and in the cells for it.

ghost use Rattle.std.specs.Prelude.{◌≡◌, ◌<◌, ℕ, List, length, vec_len, map, IfOk};
ghost use Rattle.std.specs.Option.{option_map};
ghost use Rattle.moo_value.specs.Compare.{folded};
ghost use Rattle.moo_world_tree.specs.Walk.{met, step_at};
ghost use Rattle.moo_world_tree.specs.declared.walk.Step.{Step as WalkStep};
ghost use Rattle.moo_world_table.specs.Edits.{with_respelled};
ghost use Rattle.moo_world_table.specs.Steps.{changed_along, with_new_cell_name};

use moo_value::MooStr;
use moo_world_object::Object;
use moo_world_tree::Step;
use std::alloc::{AllocError, Global};

/// Returns one copy of a name for each object on a walk. The copies share their bytes.
pub fn names_along(alloc: Global, walk: &[Step], name: &MooStr) -> Result<Vec<MooStr>, AllocError>
    ensures { IfOk result (λ names. names.items ≡ map (λ (s : WalkStep). name.now) walk.now) }
{
    let mut names = Vec::with_capacity(alloc, walk.len())?;
    for _step in walk {
        names.push(name.try_clone()?)?;
    }
    Ok(names)
}

/// Renames the cell for a definition in each object on a walk; each takes one of these names.
pub fn rename_along(
    objects: &mut Vec<Option<Object>>,
    walk: &[Step],
    definer: usize,
    name: &[u8],
    mut names: Vec<MooStr>,
)
    requires { (k : ℕ) → k < length walk.now → (step_at walk.now k).node < vec_len objects.old }
    ensures { (n : List ℕ) → names.items ≡ map (λ (s : WalkStep). n) walk.now →
        objects.new.items ≡ changed_along (option_map (with_new_cell_name (definer, folded name.now) (folded n))) objects.old.items (met walk.now) }
{
    for step in walk {
        let Some(new_name) = names.pop() else {
            return;
        };
        rename_in(&mut objects[step.node], definer, name, new_name);
    }
}

fn rename_in(slot: &mut Option<Object>, definer: usize, name: &[u8], new_name: MooStr)
    ensures { slot.new ≡ option_map (with_new_cell_name (definer, folded name.now) (folded new_name)) slot.old }
{
    if let Some(object) = slot {
        object.rename_cell(definer, name, new_name);
    }
}

/// Respells one of the names that an object defines.
pub fn respell_in(slot: &mut Option<Object>, name: &[u8], new_name: MooStr)
    ensures { slot.new ≡ option_map (with_respelled (folded name.now) new_name) slot.old }
{
    if let Some(object) = slot {
        respell(object, name, new_name);
    }
}

fn respell(object: &mut Object, name: &[u8], new_name: MooStr)
    ensures { object.new ≡ with_respelled (folded name.now) new_name object.old }
{
    if let Some(index) = object.definition_position(name) {
        object.rename_definition(index, new_name);
    }
}
