//! The surface of `moo_command`.
use moo_command::{Chosen, Command};
use moo_value::MooStr;
use moo_world::{VerbAt, World};
use std::alloc::{AllocError, Global};

pub fn words(alloc: Global, line: &MooStr) -> Result<Vec<MooStr>, AllocError> {
    moo_command::words(alloc, line)
}

pub fn parse_command(
    alloc: Global,
    world: &World,
    player: i32,
    line: &MooStr,
) -> Result<Command, AllocError> {
    moo_command::parse_command(alloc, world, player, line)
}

pub fn match_object(world: &World, player: i32, text: &[u8]) -> i32 {
    moo_command::match_object(world, player, text)
}

pub fn choose_verb(world: &World, player: i32, command: &Command) -> Option<Chosen> {
    moo_command::choose_verb(world, player, command)
}

/// Returns the texts of a command: `verb`, `argstr`, `dobjstr`, `prepstr`, `iobjstr`.
pub fn texts(command: &Command) -> [&MooStr; 5] {
    [
        &command.verb,
        &command.argstr,
        &command.dobjstr,
        &command.prepstr,
        &command.iobjstr,
    ]
}

/// Returns the words after the verb.
pub fn args(command: &Command) -> &[MooStr] {
    &command.args
}

/// Returns the direct object, the preposition and the indirect object.
pub fn numbers(command: &Command) -> [i32; 3] {
    [command.dobj, command.prep, command.iobj]
}

/// Returns the object on which a verb was looked for, and the verb's place.
pub fn chosen(chosen: Chosen) -> (i32, VerbAt) {
    (chosen.this, chosen.found)
}
