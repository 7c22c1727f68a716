//! Lines for connections.
ghost use Rattle.std.specs.Prelude.{◌≡◌, ◌++◌, ◌∷◌, [], OnOk};
ghost use Rattle.moo_eval_control.specs.Traceback.{texts};
ghost use Rattle.moo_session_task.specs.Sending.{sent, notified, all_notified};

use crate::session::Session;
use moo_session_connection::Sent;
use std::alloc::AllocError;

impl Session {
    /// Sends a line, without its end, to the connection of this number, if it is open and not leaving. Fails only if
    /// memory runs out.
    pub fn send(&mut self, number: u16, line: &[u8]) -> Result<(), AllocError>
        ensures { OnOk result (self.new ≡ sent number line.now self.old) }
    {
        match self.connections.client_here(number) {
            Some(client) => {
                let to = client.connection.number;
                self.push_sent(to, line)
            }
            None => Ok(()),
        }
    }

    /// Sends a line to the connection that goes by this number, if there is one. Fails only if memory runs out.
    pub fn notify(&mut self, who: i32, line: &[u8]) -> Result<(), AllocError>
        ensures { OnOk result (self.new ≡ notified who line.now self.old) }
    {
        match self.connections.client_known_as(who) {
            Some(client) => {
                let to = client.connection.number;
                self.push_sent(to, line)
            }
            None => Ok(()),
        }
    }

    /// Sends several lines, in order, to the connection that goes by this number, if there is one. Fails only if memory
    /// runs out.
    pub fn notify_all(&mut self, who: i32, lines: &[Vec<u8>]) -> Result<(), AllocError>
        ensures { OnOk result (self.new ≡ all_notified who (texts lines.now) self.old) }
    {
        for line in lines {
            self.notify(who, line)?;
        }
        Ok(())
    }

    pub(crate) fn push_sent(&mut self, to: u16, line: &[u8]) -> Result<(), AllocError>
        ensures { OnOk result (self.new ≡ record self.old { sent = self.old.sent ++ record { to = to; line = line.now } ∷ [] }) }
    {
        let line = Vec::from_slice(self.alloc, line)?;
        self.sent.push(Sent::new(to, line))?;
        Ok(())
    }
}
