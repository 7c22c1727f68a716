//! Objects as their lines give them, before any check across objects.

use moo_value::{MooStr, Value};
use moo_world_object::{Flags, PropPerms, VerbArgs, VerbPerms};

/// A verb without its program.
#[derive(Drop)]
pub struct VerbRecord {
    /// Patterns with blanks between them.
    pub names: MooStr,
    pub owner: i32,
    pub perms: VerbPerms,
    pub args: VerbArgs,
}

/// The value, owner and permissions that an object has for a property.
#[derive(Drop)]
pub struct PropertyRecord {
    /// `None` if the cell is clear, so that the value is the parent's.
    pub value: Option<Value>,
    pub owner: i32,
    pub perms: PropPerms,
}

/// An object as its lines give it. Its links to other objects are not checked.
#[derive(Drop)]
pub struct ObjectRecord {
    pub name: MooStr,
    pub flags: Flags,
    pub owner: i32,
    pub location: i32,
    /// The first object in its contents, or -1.
    pub contents: i32,
    /// The next object in the contents of its location, or -1.
    pub next: i32,
    pub parent: i32,
    /// Its first child, or -1.
    pub child: i32,
    /// The next child of its parent, or -1.
    pub sibling: i32,
    pub verbs: Vec<VerbRecord>,
    /// The names of the properties that it defines.
    pub names: Vec<MooStr>,
    /// Its cells: those of its own definitions, then those of its parent's, and so on up to the root.
    pub cells: Vec<PropertyRecord>,
}
