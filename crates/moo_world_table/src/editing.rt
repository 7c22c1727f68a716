//! Changes to one object: a property set, cleared, or given another owner.

ghost use Rattle.std.specs.Prelude.{◌≡◌};
ghost use Rattle.std.specs.Option.{option_map};
ghost use Rattle.moo_value.specs.Compare.{folded};
ghost use Rattle.moo_value.specs.View.{tree};
ghost use Rattle.moo_builtin_operator.specs.Truth.{is_true};
ghost use Rattle.moo_world_table.specs.Edits.{with_name, with_owner, with_built_in, with_clear, with_cell_info};

use moo_value::Value;
use moo_world_object::{BuiltInProperty, Object, PropPerms};

/// Sets a built-in property. A value of a wrong type, the location and the contents change nothing.
pub fn set_built_in_in(slot: &mut Option<Object>, property: BuiltInProperty, value: Value)
    ensures { slot.new ≡ option_map (with_built_in property (tree value)) slot.old }
{
    if let Some(object) = slot {
        set_own(object, property, value);
    }
}

// Sets a built-in property that is a field of the object itself.
fn set_own(object: &mut Object, property: BuiltInProperty, value: Value)
    ensures { object.new ≡ with_built_in property (tree value) object.old }
{
    let flags = object.flags();
    match property {
        BuiltInProperty::Name => set_name(object, value),
        BuiltInProperty::Owner => set_owner(object, value),
        BuiltInProperty::Location | BuiltInProperty::Contents => {}
        BuiltInProperty::Programmer => object.set_flags(flags.with_programmer(is_true(&value))),
        BuiltInProperty::Wizard => object.set_flags(flags.with_wizard(is_true(&value))),
        BuiltInProperty::Read => object.set_flags(flags.with_read(is_true(&value))),
        BuiltInProperty::Write => object.set_flags(flags.with_write(is_true(&value))),
        BuiltInProperty::Fertile => object.set_flags(flags.with_fertile(is_true(&value))),
    }
}

fn set_name(object: &mut Object, value: Value)
    ensures { object.new ≡ with_name (tree value) object.old }
{
    if let Value::Str(name) = value {
        object.set_name(name);
    }
}

fn set_owner(object: &mut Object, value: Value)
    ensures { object.new ≡ with_owner (tree value) object.old }
{
    if let Value::Obj(owner) = value {
        object.set_owner(owner);
    }
}

#[tactic(auto, using(crate::proofs::Truths::tested))]
fn is_true(value: &Value) -> bool
    ensures { result ≡ is_true (tree value.now) }
{
    value.is_true()
}

/// Makes the cell for a definition clear.
pub fn clear_in(slot: &mut Option<Object>, definer: usize, name: &[u8])
    ensures { slot.new ≡ option_map (with_clear (definer, folded name.now)) slot.old }
{
    if let Some(object) = slot {
        object.clear_value(definer, name);
    }
}

/// Gives the cell for a definition another owner and other permissions.
pub fn set_info_in(
    slot: &mut Option<Object>,
    definer: usize,
    name: &[u8],
    owner: i32,
    perms: PropPerms,
)
    ensures { slot.new ≡ option_map (with_cell_info (definer, folded name.now) owner perms) slot.old }
{
    if let Some(object) = slot {
        object.set_cell_info(definer, name, owner, perms);
    }
}
