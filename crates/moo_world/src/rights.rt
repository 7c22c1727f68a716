//! The rights of programmers: wizards may do everything, others may act on what they own or what is open to all.

ghost use Rattle.std.specs.Prelude.{◌≡◌, is_some, Some};
ghost use Rattle.std.specs.Option.{option_copied};
ghost use Rattle.moo_world_object.specs.Cells.{cell_named};
ghost use Rattle.moo_world.specs.Numbered.{verb_numbered};
ghost use Rattle.moo_world.specs.Rights.{is_wizard, controls, may_own, may_read_object, may_write_object, may_inherit_from, may_read_this_verb, may_write_this_verb, may_read_cell, may_write_cell, may_set_built_in, may_read_property, may_write_property, may};

use crate::World;
use moo_world_object::{BuiltInProperty, Object, PropCell, Verb, built_in, cell_named};

/// What a programmer may do, and with what: read or set a property and its info, read or write an object, make one
/// inherit from it, own it, read or write a verb by its place.
#[derive(Clone, Copy)]
pub enum Action<'a> {
    ReadProperty(i32, &'a [u8]),
    WriteProperty(i32, &'a [u8]),
    ReadObject(i32),
    WriteObject(i32),
    Fertile(i32),
    Own(i32),
    ReadVerb(i32, usize),
    WriteVerb(i32, usize),
}

/// The rights in a world.
pub struct Rights;

impl Rights {
    /// Returns whether a programmer may do something. No one may act on an object, property or verb that doesn't
    /// exist.
    pub fn may(world: &World, programmer: i32, action: Action<'_>) -> bool
        ensures { result ≡ may world.now programmer action.entry }
    {
        match action {
            Action::ReadProperty(o, name) => Self::may_read_property(world, programmer, o, name),
            Action::WriteProperty(o, name) => Self::may_write_property(world, programmer, o, name),
            Action::ReadObject(o) => Self::may_read_object(world, programmer, o),
            Action::WriteObject(o) => Self::may_write_object(world, programmer, o),
            Action::Fertile(o) => Self::may_inherit_from(world, programmer, o),
            Action::Own(o) => Self::may_own(world, programmer, o),
            Action::ReadVerb(o, index) => Self::may_read_verb(world, programmer, o, index),
            Action::WriteVerb(o, index) => Self::may_write_verb(world, programmer, o, index),
        }
    }

    /// Returns whether the programmer is a wizard.
    pub fn is_wizard(world: &World, programmer: i32) -> bool
        ensures { result ≡ is_wizard world.now programmer }
    {
        match world.object(programmer) {
            Some(object) => object.flags().wizard,
            None => false,
        }
    }

    /// Returns whether something with this owner is the programmer's, or the programmer is a wizard.
    pub fn controls(world: &World, programmer: i32, owner: i32) -> bool
        ensures { result ≡ controls world.now programmer owner }
    {
        owner == programmer || Self::is_wizard(world, programmer)
    }

    /// Returns whether the programmer owns an object, or is a wizard.
    pub fn may_own(world: &World, programmer: i32, o: i32) -> bool
        ensures { result ≡ may_own world.now programmer o }
    {
        match world.object(o) {
            Some(object) => Self::controls(world, programmer, object.owner()),
            None => false,
        }
    }

    /// Returns whether the programmer may read an object: it is readable, the programmer owns it, or the programmer
    /// is a wizard.
    pub fn may_read_object(world: &World, programmer: i32, o: i32) -> bool
        ensures { result ≡ may_read_object world.now programmer o }
    {
        match world.object(o) {
            Some(object) => object.flags().read || Self::may_own(world, programmer, o),
            None => false,
        }
    }

    /// Returns whether the programmer may write an object: it is writable, the programmer owns it, or the programmer
    /// is a wizard.
    pub fn may_write_object(world: &World, programmer: i32, o: i32) -> bool
        ensures { result ≡ may_write_object world.now programmer o }
    {
        match world.object(o) {
            Some(object) => object.flags().write || Self::may_own(world, programmer, o),
            None => false,
        }
    }

    /// Returns whether the programmer may make an object inherit from this one.
    pub fn may_inherit_from(world: &World, programmer: i32, o: i32) -> bool
        ensures { result ≡ may_inherit_from world.now programmer o }
    {
        match world.object(o) {
            Some(object) => object.flags().fertile || Self::may_own(world, programmer, o),
            None => false,
        }
    }

    /// Returns whether the programmer may read the verb at a place of an object.
    pub fn may_read_verb(world: &World, programmer: i32, o: i32, index: usize) -> bool
        ensures { result ≡ may_read_this_verb world.now programmer (verb_numbered world.now o index) }
    {
        match Self::numbered_verb(world, o, index) {
            Some(verb) => verb.perms.read || Self::controls(world, programmer, verb.owner),
            None => false,
        }
    }

    /// Returns whether the programmer may write the verb at a place of an object.
    pub fn may_write_verb(world: &World, programmer: i32, o: i32, index: usize) -> bool
        ensures { result ≡ may_write_this_verb world.now programmer (verb_numbered world.now o index) }
    {
        match Self::numbered_verb(world, o, index) {
            Some(verb) => verb.perms.write || Self::controls(world, programmer, verb.owner),
            None => false,
        }
    }

    fn numbered_verb(world: &World, o: i32, index: usize) -> Option<&Verb>
        ensures { option_copied result ≡ verb_numbered world.now o index }
    {
        match world.object(o) {
            Some(object) => object.verb(index),
            None => None,
        }
    }

    /// Returns whether the programmer may read a property of an object by its name. Everyone may read the built-in
    /// ones.
    pub fn may_read_property(world: &World, programmer: i32, o: i32, name: &[u8]) -> bool
        ensures { result ≡ may_read_property world.now programmer o name.now }
    {
        match world.object(o) {
            Some(object) => {
                built_in(name).is_some()
                    || Self::may_read_cell(world, programmer, cell_named(object.cells(), name))
            }
            None => false,
        }
    }

    /// Returns whether the programmer may set a property of an object by its name. Each built-in property has its own
    /// rule; no one may set the location and the contents.
    pub fn may_write_property(world: &World, programmer: i32, o: i32, name: &[u8]) -> bool
        ensures { result ≡ may_write_property world.now programmer o name.now }
    {
        match world.object(o) {
            Some(object) => match built_in(name) {
                Some(property) => Self::may_set_built_in(world, programmer, object, property),
                None => Self::may_write_cell(world, programmer, cell_named(object.cells(), name)),
            },
            None => false,
        }
    }

    #[inline(always)]
    pub(crate) fn may_read_cell(world: &World, programmer: i32, cell: Option<&PropCell>) -> bool
        ensures { result ≡ may_read_cell world.now programmer (option_copied cell.entry) }
    {
        match cell {
            Some(cell) => cell.perms().read || Self::controls(world, programmer, cell.owner()),
            None => false,
        }
    }

    #[inline(always)]
    pub(crate) fn may_write_cell(world: &World, programmer: i32, cell: Option<&PropCell>) -> bool
        ensures { result ≡ may_write_cell world.now programmer (option_copied cell.entry) }
    {
        match cell {
            Some(cell) => cell.perms().write || Self::controls(world, programmer, cell.owner()),
            None => false,
        }
    }

    fn may_set_built_in(
        world: &World,
        programmer: i32,
        object: &Object,
        property: BuiltInProperty,
    ) -> bool
        ensures { result ≡ may_set_built_in world.now programmer object.now property }
    {
        match property {
            BuiltInProperty::Name => {
                Self::is_wizard(world, programmer)
                    || (object.owner() == programmer && !object.flags().player)
            }
            BuiltInProperty::Location | BuiltInProperty::Contents => false,
            BuiltInProperty::Owner | BuiltInProperty::Programmer | BuiltInProperty::Wizard => {
                Self::is_wizard(world, programmer)
            }
            BuiltInProperty::Read | BuiltInProperty::Write | BuiltInProperty::Fertile => {
                Self::controls(world, programmer, object.owner())
            }
        }
    }
}
