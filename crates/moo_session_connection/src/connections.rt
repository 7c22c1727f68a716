//! The open connections of a server.
ghost use Rattle.std.specs.Prelude.{◌≡◌};
ghost use Rattle.moo_session_connection.specs.Clients.{row_of};
ghost use Rattle.moo_session_connection.specs.Connections.{no_connections};

use crate::client::Client;
use moo_eval_frame::Connection;
use std::alloc::Global;
use std::collections::BTreeMap;
use std::marker::Model;

/// The open connections. Of those that are leaving, only the numbers are left. The others are in the order of their
/// numbers, and each player is connected on at most one of them.
#[derive(Drop)]
pub struct Connections {
    pub(crate) alloc: Global,
    pub(crate) clients: Vec<Client>,
    // The part of them that tasks see.
    pub(crate) row: Vec<Connection>,
    // The number of the connection of each player.
    pub(crate) players: BTreeMap<i32, u16>,
    pub(crate) leaving: Vec<u16>,
}

impl Model for Connections {
    ghost use Rattle.std.specs.Prelude.{◌≡◌};
    ghost use Rattle.moo_session_connection.specs.Clients.{row_of};
    ghost use Rattle.moo_session_connection.specs.Connections.{Connections as Contents, AreInOrder, HaveOwnPlayers, HaveNumbersBelowLimit, HaveOwnNumbers};
    ghost use Rattle.moo_session_connection.specs.Players.{LeadsToPlayers};

    ghost Value = { Contents };

    ghost view = { λ s. record { clients = s.clients.items; leaving = s.leaving.items } };

    ghost invariant = { λ s. (AreInOrder s.clients.items × HaveOwnPlayers s.clients.items × (s.row.items ≡ row_of s.clients.items) × LeadsToPlayers s.players s.clients.items)
        × HaveNumbersBelowLimit s.clients.items × HaveOwnNumbers (record { clients = s.clients.items; leaving = s.leaving.items }) };
}

impl Connections {
    /// Returns a table without connections.
    pub fn new(alloc: Global) -> Connections
        ensures { result ≡ no_connections }
    {
        Connections {
            alloc,
            clients: Vec::new(alloc),
            row: Vec::new(alloc),
            players: BTreeMap::new(alloc),
            leaving: Vec::new(alloc),
        }
    }

    /// Returns the part of them that tasks see.
    pub fn row(&self) -> &[Connection]
        ensures { result.now ≡ row_of self.now.clients }
    {
        &self.row
    }

    /// Returns the numbers of those that are leaving.
    pub fn leaving(&self) -> &[u16]
        ensures { result.now ≡ self.now.leaving }
    {
        &self.leaving
    }
}
