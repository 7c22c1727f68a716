//! Lines to send.
ghost use Rattle.std.specs.Prelude.{◌≡◌};

use std::marker::Model;

/// A line for a connection, by its number, without its end.
#[derive(Drop)]
pub struct Sent {
    number: u16,
    line: Vec<u8>,
}

impl Model for Sent {
    ghost use Rattle.moo_session_connection.specs.Streams.{Sent as Contents};

    ghost Value = { Contents };

    ghost view = { λ s. record { to = s.number; line = s.line.items } };
}

impl Sent {
    /// Returns a line, without its end, for the connection of this number.
    pub fn new(number: u16, line: Vec<u8>) -> Sent
        ensures { result ≡ record { to = number; line = line.items } }
    {
        Sent { number, line }
    }

    /// Returns the connection's number.
    pub fn number(&self) -> u16
        ensures { result ≡ self.now.to }
    {
        self.number
    }

    /// Returns the line, without its end.
    pub fn line(&self) -> &[u8]
        ensures { result.now ≡ self.now.line }
    {
        &self.line
    }
}
