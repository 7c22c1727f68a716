//! One open connection.
ghost use Rattle.std.specs.Prelude.{◌≡◌, IfOk};
ghost use Rattle.moo_session_connection.specs.Clients.{newcomer, player_on};

use crate::gathering::Gathering;
use moo_eval_frame::Connection;
use moo_session_line::LineReader;
use moo_value::MooStr;
use std::alloc::{AllocError, Global};

/// An open connection that is not leaving.
#[derive(Drop)]
pub struct Client {
    /// The part of it that tasks see: its number, its player, the moment when it was opened, and the moment when it
    /// last sent bytes.
    pub connection: Connection,
    /// The reader of its lines.
    pub reader: LineReader,
    /// The text that goes before the output of a command; empty for none.
    pub prefix: MooStr,
    /// The text that goes after the output of a command; empty for none.
    pub suffix: MooStr,
    /// The program that `.program` is gathering, if it is.
    pub gathering: Option<Gathering>,
}

impl Client {
    /// Returns a connection that was opened at this moment, in seconds, and has sent nothing. Fails only if memory
    /// runs out.
    pub(crate) fn new(alloc: Global, number: u16, moment: u32) -> Result<Client, AllocError>
        ensures { IfOk result (λ client. client ≡ newcomer number moment) }
    {
        Ok(Client {
            connection: Connection {
                number,
                login: None,
                opened: moment,
                heard: None,
            },
            reader: LineReader::new(alloc),
            prefix: MooStr::empty(alloc)?,
            suffix: MooStr::empty(alloc)?,
            gathering: None,
        })
    }

    /// Returns the player who is connected on it, if any.
    pub fn player(&self) -> Option<i32>
        ensures { result ≡ player_on self.now }
    {
        Some(self.connection.login?.player)
    }
}
