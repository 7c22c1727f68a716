//! Connections that the server ends.
ghost use Rattle.std.specs.Prelude.{◌≡◌, ◌++◌, OnOk, IfOk};
ghost use Rattle.moo_session_task.specs.Leaving.{disconnected, shut_down, shutdown_line, sent_to_each, parted};

use crate::hook::Hook;
use crate::session::Session;
use moo_eval_frame::Connection;
use moo_session_connection::Sent;
use moo_value::MooStr;
use std::alloc::{AllocError, Global};

impl Session {
    /// Sends a last line to the connection that goes by this number, and marks it as leaving. Enqueues
    /// `user_disconnected` if a player was connected on it. Without such a connection, does nothing. Fails only if
    /// memory runs out.
    pub fn disconnect(&mut self, who: i32, line: &[u8]) -> Result<(), AllocError>
        ensures { OnOk result (self.new ≡ disconnected who line.now self.old) }
    {
        let Some(client) = self.connections.client_known_as(who) else {
            return Ok(());
        };
        let number = client.connection.number;
        let player = client.player();
        self.push_sent(number, line)?;
        self.connections.leave(who)?;
        self.part(player)
    }

    // Enqueues the hook if a player was connected.
    fn part(&mut self, player: Option<i32>) -> Result<(), AllocError>
        ensures { OnOk result (self.new ≡ parted player self.old) }
    {
        match player {
            Some(player) => self.cause(Hook::Disconnected(player)),
            None => Ok(()),
        }
    }

    /// Sends a line to every connection, marks each as leaving, and requests a last checkpoint. Fails only if memory
    /// runs out.
    pub fn shut_down(&mut self, why: &Option<MooStr>) -> Result<(), AllocError>
        ensures { OnOk result (self.new ≡ shut_down why.now self.old) }
    {
        let line = shutdown_line(self.alloc, why)?;
        send_to_each(self.alloc, &mut self.sent, self.connections.row(), &line)?;
        self.connections.leave_all()?;
        self.asked = true;
        self.closing = true;
        Ok(())
    }
}

fn shutdown_line(alloc: Global, why: &Option<MooStr>) -> Result<Vec<u8>, AllocError>
    ensures { IfOk result (λ line. line.items ≡ shutdown_line why.now) }
{
    match why {
        Some(why) => {
            let mut line = Vec::from_slice(alloc, b"*** Shutting down: ")?;
            line.extend_from_slice(why.as_bytes())?;
            line.extend_from_slice(b" ***")?;
            Ok(line)
        }
        None => Ok(Vec::from_slice(alloc, b"*** Shutting down ***")?),
    }
}

fn send_to_each(
    alloc: Global,
    sent: &mut Vec<Sent>,
    connections: &[Connection],
    line: &[u8],
) -> Result<(), AllocError>
    ensures { OnOk result (sent.new.items ≡ sent.old.items ++ sent_to_each line.now connections.now) }
{
    for connection in connections {
        let line = Vec::from_slice(alloc, line)?;
        sent.push(Sent::new(connection.number, line))?;
    }
    Ok(())
}
