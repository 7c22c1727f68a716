//! Functions that inspect the open connections: 'Operations on Network Connections' of the LambdaMOO Programmer's
//! Manual, 'Functions over the running task' of docs/reference/language.md.
ghost use Rattle.std.specs.Prelude.{◌≡◌, ◌++◌, OnOk};
ghost use Rattle.moo_value.specs.View.{tree, trees};
ghost use Rattle.moo_eval_frame.specs.Outcome.{answers};
ghost use Rattle.moo_eval_frame.specs.Seen.{surroundings_of, seen_answer, IsKnownFailure};
ghost use Rattle.moo_eval_semantics.specs.Connections.{who, is_asked, connected_players, connected, elapsed, elapsed_since, last_heard, last_login};

use moo_builtin_operator::{self as operation, is_true};
use moo_eval_frame::{Connection, Failure, Login, Surroundings, own_number, push};
use moo_value::{ErrorCode, Value};
use std::alloc::{AllocError, Global};

/// Computes `connected_players([all])`: the list of connected players, in the order of the connections. If the
/// argument is given and true, it includes the numbers of connections on which no player is. E_QUOTA for a list past
/// its limits.
pub(crate) fn connected_players(
    alloc: Global,
    around: &Surroundings<'_>,
    args: &[Value],
) -> Result<Value, Failure>
    ensures { IsKnownFailure result → answers (connected_players (surroundings_of around.now) (trees args.now)) ≡ seen_answer result }
{
    let all = is_asked(args);
    let mut players = Vec::new(alloc);
    for connection in around.connections {
        push_who(&mut players, all, connection)?;
    }
    Ok(operation::list(alloc, players)?)
}

// Returns whether the optional argument is given and true.
fn is_asked(args: &[Value]) -> bool
    ensures { result ≡ is_asked (trees args.now) }
{
    match args {
        [] => false,
        [first, ..] => is_true(first),
    }
}

// Appends the player on a connection, or if there is none its own number, if those are asked for too.
fn push_who(players: &mut Vec<Value>, all: bool, connection: &Connection) -> Result<(), AllocError>
    ensures { OnOk result (trees players.new.items ≡ trees players.old.items ++ who all connection.now.number connection.now.login) }
{
    match connection.login {
        Some(login) => push(players, Value::Obj(login.player)),
        None if all => push(players, Value::Obj(own_number(connection.number))),
        None => Ok(()),
    }
}

/// Computes `idle_seconds`: the seconds since bytes last came on a player's connection, or since it was opened if
/// none have come. E_INVARG if no one is connected by this number.
pub(crate) fn idle_seconds(around: &Surroundings<'_>, args: &[Value]) -> Result<Value, Failure>
    ensures { answers (elapsed_since last_heard (surroundings_of around.now) (trees args.now)) ≡ seen_answer result }
{
    let [Value::Obj(player)] = args else {
        return Err(Failure::Fails(ErrorCode::TypeMismatch));
    };
    let Some((connection, _)) = connected(*player, around.connections) else {
        return Err(Failure::Fails(ErrorCode::InvalidArgument));
    };
    let heard = connection.heard.unwrap_or(connection.opened);
    Ok(elapsed(heard, around.moment))
}

/// Computes `connected_seconds`: the seconds since a player's login. E_INVARG if no one is connected by this number.
pub(crate) fn connected_seconds(around: &Surroundings<'_>, args: &[Value]) -> Result<Value, Failure>
    ensures { answers (elapsed_since last_login (surroundings_of around.now) (trees args.now)) ≡ seen_answer result }
{
    let [Value::Obj(player)] = args else {
        return Err(Failure::Fails(ErrorCode::TypeMismatch));
    };
    let Some((_, login)) = connected(*player, around.connections) else {
        return Err(Failure::Fails(ErrorCode::InvalidArgument));
    };
    Ok(elapsed(login.moment, around.moment))
}

// Returns the connection of a player, with the login.
fn connected(player: i32, connections: &[Connection]) -> Option<(Connection, Login)>
    ensures { result ≡ connected player connections.now }
{
    for connection in connections {
        if let Some(login) = connection.login
            && login.player == player
        {
            return Some((*connection, login));
        }
    }
    None
}

// Returns the seconds from one moment to another, in 32 bits with a sign.
fn elapsed(from: u32, to: u32) -> Value
    ensures { tree result ≡ elapsed from to }
{
    Value::Int(to.wrapping_sub(from).cast_signed())
}
