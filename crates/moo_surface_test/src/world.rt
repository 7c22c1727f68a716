//! The surface of `moo_world`.
use moo_syntax::Program;
use moo_value::{ErrorCode, MooStr, Value};
use moo_world::{
    Action, Forest, Need, Node, ObjectSpecifier, PrepositionSpecifier, PropCell, PropPerms, Rights,
    Step, Verb, VerbArgs, VerbAt, VerbPerms, World, WorldFault,
};
use std::alloc::{AllocError, Global};

pub fn empty(alloc: Global) -> World {
    World::empty(alloc)
}

pub fn get(world: &World, alloc: Global, o: i32, name: &[u8]) -> Result<Value, WorldFault> {
    world.get(alloc, o, name)
}

pub fn set(world: &mut World, o: i32, name: &[u8], value: Value) -> Result<(), WorldFault> {
    world.set(o, name, value)
}

pub fn add_property(
    world: &mut World,
    alloc: Global,
    o: i32,
    name: MooStr,
    value: Value,
    owner: i32,
    perms: PropPerms,
) -> Result<(), WorldFault> {
    world.add_property(alloc, o, name, value, owner, perms)
}

pub fn delete_property(
    world: &mut World,
    alloc: Global,
    o: i32,
    name: &[u8],
) -> Result<(), WorldFault> {
    world.delete_property(alloc, o, name)
}

pub fn property_info(world: &World, o: i32, name: &[u8]) -> Result<(i32, PropPerms), WorldFault> {
    world.property_info(o, name)
}

pub fn set_property_info(
    world: &mut World,
    alloc: Global,
    o: i32,
    name: &[u8],
    owner: i32,
    perms: PropPerms,
    new_name: Option<MooStr>,
) -> Result<(), WorldFault> {
    world.set_property_info(alloc, o, name, owner, perms, new_name)
}

pub fn is_clear(world: &World, o: i32, name: &[u8]) -> Result<bool, WorldFault> {
    world.is_clear(o, name)
}

pub fn clear_property(world: &mut World, o: i32, name: &[u8]) -> Result<(), WorldFault> {
    world.clear_property(o, name)
}

pub fn create(
    world: &mut World,
    alloc: Global,
    parent: i32,
    owner: i32,
) -> Result<i32, WorldFault> {
    world.create(alloc, parent, owner)
}

pub fn recycle_bare(world: &mut World, alloc: Global, o: i32) -> Result<(), WorldFault> {
    world.recycle_bare(alloc, o)
}

pub fn chparent(world: &mut World, alloc: Global, o: i32, p: i32) -> Result<(), WorldFault> {
    world.chparent(alloc, o, p)
}

pub fn move_bare(world: &mut World, o: i32, to: i32) -> Result<(), WorldFault> {
    world.move_bare(o, to)
}

pub fn add_verb(
    world: &mut World,
    o: i32,
    names: MooStr,
    owner: i32,
    perms: VerbPerms,
    args: VerbArgs,
) -> Result<usize, WorldFault> {
    world.add_verb(o, names, owner, perms, args)
}

pub fn delete_verb(world: &mut World, o: i32, index: usize) -> Result<(), WorldFault> {
    world.delete_verb(o, index)
}

pub fn set_verb_info(
    world: &mut World,
    o: i32,
    index: usize,
    names: MooStr,
    owner: i32,
    perms: VerbPerms,
) -> Result<(), WorldFault> {
    world.set_verb_info(o, index, names, owner, perms)
}

pub fn set_verb_args(
    world: &mut World,
    o: i32,
    index: usize,
    args: VerbArgs,
) -> Result<(), WorldFault> {
    world.set_verb_args(o, index, args)
}

pub fn set_program(
    world: &mut World,
    o: i32,
    index: usize,
    program: Option<Program>,
) -> Result<(), WorldFault> {
    world.set_program(o, index, program)
}

pub fn find_verb(world: &World, o: i32, name: &[u8], need: Need) -> Option<VerbAt> {
    world.find_verb(o, name, need)
}

pub fn set_player(world: &mut World, o: i32, on: bool) -> Result<(), WorldFault> {
    world.set_player(o, on)
}

pub fn players(world: &World) -> &[i32] {
    world.players()
}

pub fn verb(world: &World, o: i32, index: usize) -> Option<&Verb> {
    world.verb(o, index)
}

pub fn inheritance(world: &World) -> &Forest {
    world.inheritance()
}

pub fn containment(world: &World) -> &Forest {
    world.containment()
}

pub fn row(world: &World, o: i32) -> Option<&[PropCell]> {
    world.row(o)
}

pub fn may(world: &World, programmer: i32, action: Action<'_>) -> bool {
    Rights::may(world, programmer, action)
}

/// Returns the error that a fault raises, if it raises one.
pub fn raised(fault: WorldFault) -> Option<ErrorCode> {
    match fault {
        WorldFault::Raise(error) => Some(error),
        WorldFault::Memory => None,
    }
}

/// Returns whether verbs without x count.
pub fn counts_all(need: Need) -> bool {
    match need {
        Need::Call => false,
        Need::Any => true,
    }
}

/// Returns the object of a verb and the verb's index.
pub fn place(at: VerbAt) -> (i32, usize) {
    (at.definer, at.index)
}

/// Returns the number of an action's form.
pub fn action(action: &Action<'_>) -> u8 {
    match action {
        Action::ReadProperty(_, _) => 0,
        Action::WriteProperty(_, _) => 1,
        Action::ReadObject(_) => 2,
        Action::WriteObject(_) => 3,
        Action::Fertile(_) => 4,
        Action::Own(_) => 5,
        Action::ReadVerb(_, _) => 6,
        Action::WriteVerb(_, _) => 7,
    }
}

/// Returns the permissions of a property: r, w, c.
pub fn prop_perms(read: bool, write: bool, change_owner: bool) -> PropPerms {
    PropPerms {
        read,
        write,
        change_owner,
    }
}

/// Returns the permissions of a verb: r, w, x, d.
pub fn verb_perms(read: bool, write: bool, execute: bool, debug: bool) -> VerbPerms {
    VerbPerms {
        read,
        write,
        execute,
        debug,
    }
}

/// Returns the arguments of a verb.
pub fn verb_args(
    direct: ObjectSpecifier,
    preposition: PrepositionSpecifier,
    indirect: ObjectSpecifier,
) -> VerbArgs {
    VerbArgs {
        direct,
        preposition,
        indirect,
    }
}

/// Returns the number of an object specifier.
pub fn object_specifier(specifier: ObjectSpecifier) -> u8 {
    match specifier {
        ObjectSpecifier::None => 0,
        ObjectSpecifier::Any => 1,
        ObjectSpecifier::This => 2,
    }
}

/// Returns whether a preposition specifier names one preposition.
pub fn is_one(specifier: PrepositionSpecifier) -> bool {
    match specifier {
        PrepositionSpecifier::None => false,
        PrepositionSpecifier::Any => false,
        PrepositionSpecifier::One(_) => true,
    }
}

/// Returns a node that has this one right above it, and those right below it in order.
pub fn node(alloc: Global, above: Option<usize>, below: &[usize]) -> Result<Node, AllocError> {
    Node::new(alloc, above, below)
}

/// Walks down from a node. The walk has no step if there is no such node.
pub fn walk(forest: &Forest, alloc: Global, x: usize) -> Result<Vec<Step>, AllocError> {
    if x < forest.len() {
        forest.walk_down(alloc, x)
    } else {
        Ok(Vec::new(alloc))
    }
}
