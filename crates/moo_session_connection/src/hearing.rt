//! The bytes that connections send.
ghost use Rattle.std.specs.Prelude.{◌≡◌, None, Ok, IfOk, OnOk, OnErr, IfSome, IfNone, All};
ghost use Rattle.moo_session_line.specs.Reading.{Reads};
ghost use Rattle.moo_session_line.specs.Rest.{IsLine};
ghost use Rattle.moo_session_connection.specs.Connections.{client_here};
ghost use Rattle.moo_session_connection.specs.Changes.{HasHeard, with_heard};

use crate::client::Client;
use crate::connections::Connections;
use moo_value::MooStr;
use std::alloc::AllocError;

impl Connections {
    /// Takes a piece that a connection sent at this moment, in seconds, and returns the lines that it ends. Returns
    /// `None` if the connection isn't open or is leaving; this allocates no memory. Fails only if memory runs out.
    pub fn receive(
        &mut self,
        number: u16,
        moment: u32,
        piece: &[u8],
    ) -> Result<Option<Vec<MooStr>>, AllocError>
        ensures heard { IfOk result (λ answer. IfSome answer (λ lines. HasHeard number moment piece.now self.old lines.items self.new)) }
        ensures lines { IfOk result (λ answer. IfSome answer (λ lines. All IsLine lines.items)) }
        ensures nobody { IfOk result (λ answer. IfNone answer ((client_here number self.old ≡ None) × (self.new ≡ self.old))) }
        ensures left { client_here number self.old ≡ None → result ≡ Ok None }
    {
        let Some(place) = self.place_here(number) else {
            return Ok(None);
        };
        let lines = self.clients[place].receive(moment, piece)?;
        self.row[place] = self.clients[place].connection;
        Ok(Some(lines))
    }
}

impl Client {
    fn receive(&mut self, moment: u32, piece: &[u8]) -> Result<Vec<MooStr>, AllocError>
        ensures reads { IfOk result (λ lines. Reads self.old.reader piece.now lines.items self.new.reader) }
        ensures lines { IfOk result (λ lines. All IsLine lines.items) }
        ensures changed { OnOk result (self.new ≡ with_heard moment self.new.reader self.old) }
        ensures err { OnErr result (self.new ≡ self.old) }
    {
        let lines = self.reader.feed(piece)?;
        self.connection.heard = Some(moment);
        Ok(lines)
    }
}
