//! A player's line.
ghost use Rattle.std.specs.Prelude.{◌≡◌, OnOk, IsSomeAnd, IsSome};
ghost use Rattle.moo_builtin.specs.Telling.{Faults};
ghost use Rattle.moo_session_connection.specs.Connections.{client_here};
ghost use Rattle.moo_session_line.specs.Rest.{IsLine};
ghost use Rattle.moo_session.specs.Input.{PlayerTypes, kind_of, sets_prefix, sets_suffix};

use crate::begin_programming;
use crate::dispatch::command;
use moo_command::read_typed;
use moo_session_task::WorldState;
use moo_value::MooStr;
use std::alloc::{AllocError, Global};

/// Is the kind of a player's line.
#[derive(Clone, Copy)]
pub(crate) enum LineKind {
    /// It says what goes before the output of commands.
    Prefix,
    /// It says what goes after it.
    Suffix,
    /// It begins to program a verb.
    Program,
    Command,
}

/// Takes a player's line that isn't gathered, on a connection that is open and not leaving. The line is without words,
/// sets the text before or after the output of commands, is `.program`, or is a command. Fails only if memory runs out.
pub(crate) fn player_types(
    alloc: Global,
    live: &mut WorldState,
    moment: u32,
    number: u16,
    player: i32,
    line: &MooStr,
) -> Result<(), AllocError>
    requires line { IsLine line.now }
    requires here { IsSome (client_here number live.old.session.connections) }
    ensures { OnOk result (IsSomeAnd (client_here number live.old.session.connections) (λ client. PlayerTypes Faults moment number client player line.now live.old live.new)) }
{
    let Some(typed) = read_typed(alloc, line)? else {
        return Ok(());
    };
    match kind_of(typed.verb.as_bytes()) {
        LineKind::Prefix => {
            let connections = live.session.connections_mut();
            connections.set_prefix(number, typed.rest);
        }
        LineKind::Suffix => {
            let connections = live.session.connections_mut();
            connections.set_suffix(number, typed.rest);
        }
        LineKind::Program => begin_programming(
            alloc,
            &live.world,
            &mut live.session,
            number,
            player,
            &typed.args,
        )?,
        LineKind::Command => command(alloc, live, moment, number, player, typed)?,
    }
    Ok(())
}

fn kind_of(word: &[u8]) -> LineKind
    ensures { result ≡ kind_of word.now }
{
    if sets_prefix(word) {
        LineKind::Prefix
    } else if sets_suffix(word) {
        LineKind::Suffix
    } else if word == b".program".as_slice() {
        LineKind::Program
    } else {
        LineKind::Command
    }
}

fn sets_prefix(word: &[u8]) -> bool
    ensures { result ≡ sets_prefix word.now }
{
    word == b"PREFIX".as_slice() || word == b"OUTPUTPREFIX".as_slice()
}

fn sets_suffix(word: &[u8]) -> bool
    ensures { result ≡ sets_suffix word.now }
{
    word == b"SUFFIX".as_slice() || word == b"OUTPUTSUFFIX".as_slice()
}
