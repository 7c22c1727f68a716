//! Openings, bytes and hang-ups.
ghost use Rattle.std.specs.Prelude.{◌≡◌, OnOk, IsOk, None, false};
ghost use Rattle.moo_builtin.specs.Telling.{Faults};
ghost use Rattle.moo_session_connection.specs.Connections.{client_here, is_open};
ghost use Rattle.moo_session.specs.Events.{OpensConnection, Hears, HangsUp, hung_up, player_at};

use crate::{log_in, meet_lines};
use moo_session_task::{Hook, Session, WorldState, run_hooks};
use moo_value::MooStr;
use std::alloc::{AllocError, Global};

/// Opens a connection at this moment, in seconds, under a number that none has. Calls `do_login_command` for it, and
/// runs the hooks that this causes. Fails only if memory runs out.
pub fn open(
    alloc: Global,
    live: &mut WorldState,
    moment: u32,
    number: u16,
) -> Result<(), AllocError>
    requires { is_open number live.old.session.connections ≡ false }
    ensures { OnOk result (OpensConnection Faults moment number live.old live.new) }
{
    live.session.connections_mut().join(number, moment)?;
    let line = MooStr::empty(alloc)?;
    log_in(alloc, live, moment, number, Vec::new(alloc), line)?;
    run_hooks(alloc, live, moment)
}

/// Takes bytes of the connection of this number, and runs the lines that they end. If it isn't open or is leaving,
/// drops them and takes no memory. Fails only if memory runs out.
pub fn receive(
    alloc: Global,
    live: &mut WorldState,
    moment: u32,
    number: u16,
    piece: &[u8],
) -> Result<(), AllocError>
    ensures heard { OnOk result (Hears Faults moment number piece.now live.old live.new) }
    ensures left { client_here number live.old.session.connections ≡ None → IsOk result × (live.new ≡ live.old) }
{
    let connections = live.session.connections_mut();
    let Some(lines) = connections.receive(number, moment, piece)? else {
        return Ok(());
    };
    meet_lines(alloc, live, moment, number, &lines)
}

/// Closes the connection of this number, which has hung up, and frees its number. Runs `user_client_disconnected` if a
/// player was connected on it. Fails only if memory runs out.
pub fn hang_up(
    alloc: Global,
    live: &mut WorldState,
    moment: u32,
    number: u16,
) -> Result<(), AllocError>
    ensures { OnOk result (HangsUp Faults moment number live.old live.new) }
{
    free(&mut live.session, number)?;
    run_hooks(alloc, live, moment)
}

fn free(session: &mut Session, number: u16) -> Result<(), AllocError>
    ensures { OnOk result (session.new ≡ hung_up number session.old) }
{
    let player = player_at(session, number);
    session.connections_mut().free(number);
    match player {
        Some(player) => session.cause(Hook::ClientDisconnected(player)),
        None => Ok(()),
    }
}

// Returns who is connected on a connection.
fn player_at(session: &Session, number: u16) -> Option<i32>
    ensures { result ≡ player_at number session.now.connections }
{
    session.connections().client_here(number)?.player()
}
