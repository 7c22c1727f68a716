//! The verb that a command runs.
ghost use Rattle.std.specs.Prelude.{◌≡◌, IfOk};
ghost use Rattle.std.specs.Option.{option_map};
ghost use Rattle.moo_eval_access.specs.SeenCalled.{found_of};
ghost use Rattle.moo_command.specs.Seen.{command_of};
ghost use Rattle.moo_session.specs.Dispatch.{chosen_verb, huh_verb, verb_to_run};
ghost use Rattle.moo_session.specs.Frames.{command_frame};
ghost use Rattle.moo_session_task.specs.WordList.{FitsAList};

use moo_command::{Command, choose_verb, room_of};
use moo_eval_access::{Call, Found, called_verb, verb_frame, verb_there};
use moo_eval_frame::Frame;
use moo_session_task::word_list;
use moo_world::World;
use std::alloc::{AllocError, Global};

/// Returns the verb that a command runs and the object that it runs on: the verb that is chosen, else the room's `huh`.
/// `None` if there is neither.
pub(crate) fn verb_to_run<'a>(
    world: &'a World,
    player: i32,
    command: &Command,
) -> Option<(i32, Found<'a>)>
    ensures { option_map (λ meant. (meant.0, found_of meant.1)) result ≡ verb_to_run world.now player (command_of command.now) }
{
    match chosen_verb(world, player, command) {
        Some(meant) => Some(meant),
        None => huh_verb(world, player),
    }
}

fn chosen_verb<'a>(world: &'a World, player: i32, command: &Command) -> Option<(i32, Found<'a>)>
    ensures { option_map (λ meant. (meant.0, found_of meant.1)) result ≡ chosen_verb world.now player (command_of command.now) }
{
    let chosen = choose_verb(world, player, command)?;
    let found = verb_there(world, chosen.found)?;
    Some((chosen.this, found))
}

fn huh_verb(world: &World, player: i32) -> Option<(i32, Found<'_>)>
    ensures { option_map (λ meant. (meant.0, found_of meant.1)) result ≡ huh_verb world.now player }
{
    let room = room_of(world, player);
    let found = called_verb(world, room, b"huh")?;
    Some((room, found))
}

/// Returns the frame of a verb that a player's command runs on an object.
pub(crate) fn command_frame(
    alloc: Global,
    found: Found<'_>,
    this: i32,
    player: i32,
    command: Command,
) -> Result<Frame, AllocError>
    requires { FitsAList (command_of command).args }
    ensures { IfOk result (λ frame. frame ≡ command_frame (found_of found.entry) this player (command_of command)) }
{
    let args = word_list(alloc, command.args)?;
    let call = Call {
        this,
        caller: player,
        player,
        dobj: command.dobj,
        iobj: command.iobj,
        verb: command.verb,
        argstr: command.argstr,
        dobjstr: command.dobjstr,
        prepstr: command.prepstr,
        iobjstr: command.iobjstr,
        args,
    };
    verb_frame(alloc, found, call)
}
