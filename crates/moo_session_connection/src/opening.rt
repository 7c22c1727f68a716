//! Connections that open and close.
ghost use Rattle.std.specs.Prelude.{◌≡◌, ◌<◌, ◌≤◌, None, false, length, position, OnOk};
ghost use Rattle.std.specs.List.{position_or_len, insert};
ghost use Rattle.moo_session_connection.specs.Clients.{number_of, player_on, is_number, is_above, without_first};
ghost use Rattle.moo_session_connection.specs.Connections.{client_here, is_open, number_limit, AreInOrder};
ghost use Rattle.moo_session_connection.specs.Changes.{joined, freed};

use crate::client::Client;
use crate::connections::Connections;
use crate::lookup::search;
use crate::playing::remove_player;
use std::alloc::AllocError;

impl Connections {
    /// Opens a connection at this moment, in seconds. Fails only if memory runs out.
    pub fn join(&mut self, number: u16, moment: u32) -> Result<(), AllocError>
        requires { is_open number self.old ≡ false }
        ensures { OnOk result (self.new ≡ joined number moment self.old) }
    {
        let client = Client::new(self.alloc, number, moment)?;
        let place = self.place_for(number);
        self.put(place, client)
    }

    fn put(&mut self, place: usize, client: Client) -> Result<(), AllocError>
        requires inside { place ≤ length self.old.clients }
        requires order { AreInOrder (insert self.old.clients place client) }
        requires nobody { player_on client ≡ None }
        requires below { number_of client < number_limit }
        requires free { is_open (number_of client) self.old ≡ false }
        ensures { OnOk result (self.new ≡ record self.old { clients = insert self.old.clients place client }) }
    {
        let connection = client.connection;
        self.clients.insert(place, client)?;
        if self.row.insert(place, connection).is_err() {
            let _client = self.clients.remove(place);
            return Err(AllocError);
        }
        Ok(())
    }

    // Returns the index of the first connection of a higher number.
    fn place_for(&self, number: u16) -> usize
        requires { client_here number self.now ≡ None }
        ensures place { result ≡ position_or_len (is_above number) self.now.clients }
        ensures inside { result ≤ length self.now.clients }
    {
        match search(&self.row, u32::from(number)) {
            Ok(place) => place,
            Err(place) => place,
        }
    }

    /// Frees the number of a connection.
    pub fn free(&mut self, number: u16)
        ensures { self.new ≡ freed number self.old }
    {
        free_number(&mut self.leaving, number);
        let Some(place) = self.place_here(number) else {
            return;
        };
        let client = self.clients.remove(place);
        let _connection = self.row.remove(place);
        remove_player(&mut self.players, &client);
    }
}

fn free_number(leaving: &mut Vec<u16>, number: u16)
    ensures { leaving.new.items ≡ without_first (is_number number) leaving.old.items }
{
    if let Some(place) = place_of(leaving, number) {
        let _number = leaving.remove(place);
    }
}

fn place_of(numbers: &[u16], number: u16) -> Option<usize>
    ensures { result ≡ position (is_number number) numbers.now }
{
    numbers.iter().position(|other| *other == number)
}
