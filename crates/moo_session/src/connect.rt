//! Connects players on connections.
ghost use Rattle.std.specs.Prelude.{◌≡◌, OnOk};
ghost use Rattle.moo_session.specs.Login.{connected, redirected, welcomed, greeting, welcoming_hook};

use moo_session_task::{Hook, Session};
use std::alloc::AllocError;

/// Connects a player on a connection, which replaces another connection of the player's if there is one.
pub(crate) fn connect(
    session: &mut Session,
    number: u16,
    player: i32,
    moment: u32,
    is_new: bool,
) -> Result<(), AllocError>
    ensures { OnOk result (session.new ≡ connected number player moment is_new session.old) }
{
    if session.connections().client_known_as(player).is_some() {
        redirect(session, number, player, moment)
    } else {
        welcome(session, number, player, moment, is_new)
    }
}

fn redirect(session: &mut Session, number: u16, player: i32, moment: u32) -> Result<(), AllocError>
    ensures { OnOk result (session.new ≡ redirected number player moment session.old) }
{
    session.send(number, b"*** Redirecting old connection to this port ***")?;
    session.notify(player, b"*** Redirecting connection to new port ***")?;
    session.connections_mut().play(number, player, moment)?;
    session.cause(Hook::Reconnected(player))
}

fn welcome(
    session: &mut Session,
    number: u16,
    player: i32,
    moment: u32,
    is_new: bool,
) -> Result<(), AllocError>
    ensures { OnOk result (session.new ≡ welcomed number player moment is_new session.old) }
{
    session.send(number, greeting(is_new))?;
    session.connections_mut().play(number, player, moment)?;
    session.cause(welcoming_hook(player, is_new))
}

fn greeting(is_new: bool) -> &'static [u8]
    ensures { result.now ≡ greeting is_new }
{
    if is_new {
        b"*** Created ***"
    } else {
        b"*** Connected ***"
    }
}

fn welcoming_hook(player: i32, is_new: bool) -> Hook
    ensures { result ≡ welcoming_hook player is_new }
{
    if is_new {
        Hook::Created(player)
    } else {
        Hook::Connected(player)
    }
}
