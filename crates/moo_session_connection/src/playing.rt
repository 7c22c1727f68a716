//! The players of connections.
ghost use Rattle.std.specs.Prelude.{◌≡◌, ◌++◌, ◌∷◌, ◌≤◌, ℤ, [], None, IfOk, OnOk, OnErr, length, if◌then◌else◌};
ghost use Rattle.std.specs.BTreeMap.{get};
ghost use Rattle.std.specs.Ordering.{int_cmp};
ghost use Rattle.moo_session_connection.specs.Clients.{is_played_by, players_on};
ghost use Rattle.moo_session_connection.specs.Connections.{NonePlayedBy, number_limit, players_of};
ghost use Rattle.moo_session_connection.specs.Changes.{played, with_changed, as_playing};

use crate::client::Client;
use crate::connections::Connections;
use moo_eval_frame::Login;
use std::alloc::{AllocError, Global};
use std::collections::BTreeMap;

impl Connections {
    /// Returns the players who are connected, in the order of the numbers of their connections. Fails only if memory
    /// runs out.
    pub fn players(&self) -> Result<Vec<i32>, AllocError>
        ensures all { IfOk result (λ players. players.items ≡ players_of self.now) }
        ensures few { IfOk result (λ players. length players.items ≤ number_limit) }
    {
        players_on(self.alloc, &self.clients)
    }

    /// Connects a player on a connection at this moment, in seconds. Another connection of the player is then
    /// leaving. Fails only if memory runs out.
    pub fn play(&mut self, number: u16, player: i32, moment: u32) -> Result<(), AllocError>
        ensures { OnOk result (self.new ≡ played number player moment self.old) }
    {
        self.displace(player)?;
        self.log_in(number, player, moment)
    }

    // If memory runs out, nothing changes.
    fn log_in(&mut self, number: u16, player: i32, moment: u32) -> Result<(), AllocError>
        requires { NonePlayedBy player self.old.clients }
        ensures ok { OnOk result (self.new ≡ with_changed number (as_playing player moment) self.old) }
        ensures err { OnErr result (self.new ≡ self.old) }
    {
        let Some(place) = self.place_here(number) else {
            return Ok(());
        };
        self.players.insert(player, number)?;
        remove_player(&mut self.players, &self.clients[place]);
        self.clients[place].connection.login = Some(Login { player, moment });
        self.row[place] = self.clients[place].connection;
        Ok(())
    }
}

// Removes the player of this connection from the table.
pub(crate) fn remove_player(players: &mut BTreeMap<i32, u16>, client: &Client)
    ensures { (player : ℤ) → get int_cmp players.new player ≡ (if is_played_by player client.now then None else get int_cmp players.old player) }
{
    if let Some(player) = client.player() {
        let _number = players.remove(&player);
    }
}

// Returns the players who are connected on these connections, in their order.
fn players_on(alloc: Global, clients: &[Client]) -> Result<Vec<i32>, AllocError>
    ensures { IfOk result (λ players. players.items ≡ players_on clients.now) }
{
    let mut players = Vec::new(alloc);
    for client in clients {
        add_player(&mut players, client)?;
    }
    Ok(players)
}

// Appends the player who is connected on this connection, if any.
fn add_player(players: &mut Vec<i32>, client: &Client) -> Result<(), AllocError>
    ensures { OnOk result (players.new.items ≡ players.old.items ++ players_on (client.now ∷ [])) }
{
    if let Some(player) = client.player() {
        players.push(player)?;
    }
    Ok(())
}
