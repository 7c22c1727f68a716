//! Laws on commands.
ghost use Rattle.moo_command.specs.Commands.{OneCommand, OneSplit};

/// Words are split at a preposition in at most one way.
pub fn one_split()
    ensures { OneSplit }
{}

/// A player's line is at most one command in a world.
pub fn one_command()
    ensures { OneCommand }
{
    one_typed();
}

pub use crate::word_laws::{one_reading, one_typed, words_are_light};
