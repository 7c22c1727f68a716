//! Takes one line of a connection.
ghost use Rattle.std.specs.Prelude.{◌≡◌, OnOk, IsSomeAnd, IsSome, is_some};
ghost use Rattle.moo_builtin.specs.Telling.{Faults};
ghost use Rattle.moo_session_connection.specs.Connections.{client_here};
ghost use Rattle.moo_session_line.specs.Rest.{IsLine};
ghost use Rattle.moo_session.specs.Input.{Types};
ghost use Rattle.moo_session.specs.DotProgram.{gathering_of};
ghost use Rattle.moo_session.specs.Inner.{LogsInBy, TypesAs};

use crate::player_line::player_types;
use crate::{gather, log_in};
use moo_command::laws::words_are_light;
use moo_command::words;
use moo_session_task::{Session, WorldState};
use moo_value::MooStr;
use std::alloc::{AllocError, Global};

/// Takes one line of the connection of this number, which is open and not leaving, without the hooks that it causes.
/// Fails only if memory runs out.
pub(crate) fn type_line(
    alloc: Global,
    live: &mut WorldState,
    moment: u32,
    number: u16,
    line: &MooStr,
) -> Result<(), AllocError>
    requires line { IsLine line.now }
    requires here { IsSome (client_here number live.old.session.connections) }
    ensures { OnOk result (IsSomeAnd (client_here number live.old.session.connections) (λ client. Types Faults moment number client line.now live.old live.new)) }
{
    let client = live.session.connections().client_here(number).unwrap();
    match client.connection.login {
        None => log_in_by_line(alloc, live, moment, number, line),
        Some(login) => type_as(alloc, live, moment, number, login.player, line),
    }
}

// Takes a line of a connection on which this player is connected.
fn type_as(
    alloc: Global,
    live: &mut WorldState,
    moment: u32,
    number: u16,
    player: i32,
    line: &MooStr,
) -> Result<(), AllocError>
    requires line { IsLine line.now }
    requires here { IsSome (client_here number live.old.session.connections) }
    ensures { OnOk result (IsSomeAnd (client_here number live.old.session.connections) (λ client. TypesAs moment number client player line.now live.old live.new)) }
{
    if gathers(&live.session, number) {
        let line = line.try_clone()?;
        return gather(alloc, live, number, player, line);
    }
    player_types(alloc, live, moment, number, player, line)
}

// Is true if the connection gathers lines.
fn gathers(session: &Session, number: u16) -> bool
    ensures { result ≡ is_some (gathering_of number session.now) }
{
    match session.connections().client_here(number) {
        Some(client) => client.gathering.is_some(),
        None => false,
    }
}

// Takes the line's words as those of the login.
fn log_in_by_line(
    alloc: Global,
    live: &mut WorldState,
    moment: u32,
    number: u16,
    line: &MooStr,
) -> Result<(), AllocError>
    requires { IsLine line.now }
    ensures { OnOk result (LogsInBy moment number line.now live.old live.new) }
{
    let words = words(alloc, line)?;
    let line = line.try_clone()?;
    words_are_light();
    log_in(alloc, live, moment, number, words, line)
}
